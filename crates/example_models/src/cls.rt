ghost use Rattle.std.specs.Prelude.{◌≡◌, IfOk};
ghost use Rattle.example_models.specs.ClsTable.{package_class, class_props, class_class, attr_props, attr_class, cls_classes, cls_desc};

use crate::descriptions::{
    ascii, class_under, metamodel, named_class, push_many, push_one, push_optional, push_parts,
};
use mof_metamodel::{ClassDesc, MetaDesc, MetaModel, NoMemory, PropDesc, Seq, or_drop};
use std::alloc::Global;

fn package_class(alloc: Global) -> Result<ClassDesc, NoMemory>
    ensures { IfOk result (λ c. c ≡ package_class) }
{
    let mut props = Seq::new(alloc);
    or_drop!(push_parts(alloc, &mut props, "classes", "Class", "owner"); props);
    let class = class_under(alloc, "Package", "Named", props)?;
    Ok(class)
}

fn class_props(alloc: Global) -> Result<Seq<PropDesc>, NoMemory>
    ensures { IfOk result (λ props. props ≡ class_props) }
{
    let mut props = Seq::new(alloc);
    or_drop!(push_one(alloc, &mut props, "owner", "Package", "classes"); props);
    or_drop!(push_optional(alloc, &mut props, "kind", "String"); props);
    or_drop!(push_optional(alloc, &mut props, "parent", "Class"); props);
    or_drop!(push_many(alloc, &mut props, "uses", "Class", "usedBy"); props);
    or_drop!(push_many(alloc, &mut props, "usedBy", "Class", "uses"); props);
    or_drop!(push_parts(alloc, &mut props, "attrs", "Attr", "owner"); props);
    Ok(props)
}

fn class_class(alloc: Global) -> Result<ClassDesc, NoMemory>
    ensures { IfOk result (λ c. c ≡ class_class) }
{
    let props = class_props(alloc)?;
    let class = class_under(alloc, "Class", "Named", props)?;
    Ok(class)
}

fn attr_props(alloc: Global) -> Result<Seq<PropDesc>, NoMemory>
    ensures { IfOk result (λ props. props ≡ attr_props) }
{
    let mut props = Seq::new(alloc);
    or_drop!(push_one(alloc, &mut props, "owner", "Class", "attrs"); props);
    or_drop!(push_optional(alloc, &mut props, "prim", "String"); props);
    or_drop!(push_optional(alloc, &mut props, "ref", "Class"); props);
    Ok(props)
}

fn attr_class(alloc: Global) -> Result<ClassDesc, NoMemory>
    ensures { IfOk result (λ c. c ≡ attr_class) }
{
    let props = attr_props(alloc)?;
    let class = class_under(alloc, "Attr", "Named", props)?;
    Ok(class)
}

fn classes(alloc: Global) -> Result<Seq<ClassDesc>, NoMemory>
    ensures { IfOk result (λ classes. classes ≡ cls_classes) }
{
    let mut classes = Seq::new(alloc);
    classes.push(named_class(alloc)?)?;
    classes.push(package_class(alloc)?)?;
    classes.push(class_class(alloc)?)?;
    classes.push(attr_class(alloc)?)?;
    Ok(classes)
}

fn description(alloc: Global) -> Result<MetaDesc, NoMemory>
    ensures { IfOk result (λ desc. desc ≡ cls_desc) }
{
    Ok(MetaDesc {
        name: ascii(alloc, "Cls")?,
        classes: classes(alloc)?,
        enums: Seq::new(alloc),
    })
}

/// The metamodel Cls of packages, classes and attributes.
pub fn cls_metamodel(alloc: Global) -> Result<MetaModel, NoMemory>
    ensures { IfOk result (λ m. m ≡ cls_desc) }
{
    let desc = description(alloc)?;
    metamodel(alloc, desc)
}
