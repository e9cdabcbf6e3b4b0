ghost use Rattle.std.specs.Prelude.{false, ◌≡◌, IfOk};
ghost use Rattle.example_models.specs.RdbTable.{schema_class, table_props, table_class, column_class, remark_class, audit_class, folder_class, rdb_classes, rdb_desc};

use crate::descriptions::{
    ascii, class_under, class_with, metamodel, named_class, push_one, push_optional, push_parts,
    push_required,
};
use mof_metamodel::{ClassDesc, MetaDesc, MetaModel, NoMemory, PropDesc, Seq, or_drop};
use std::alloc::Global;

fn schema_class(alloc: Global) -> Result<ClassDesc, NoMemory>
    ensures { IfOk result (λ c. c ≡ schema_class) }
{
    let mut props = Seq::new(alloc);
    or_drop!(push_parts(alloc, &mut props, "tables", "Table", "schema"); props);
    let class = class_under(alloc, "Schema", "Named", props)?;
    Ok(class)
}

fn table_props(alloc: Global) -> Result<Seq<PropDesc>, NoMemory>
    ensures { IfOk result (λ props. props ≡ table_props) }
{
    let mut props = Seq::new(alloc);
    or_drop!(push_one(alloc, &mut props, "schema", "Schema", "tables"); props);
    or_drop!(push_optional(alloc, &mut props, "kind", "String"); props);
    or_drop!(push_optional(alloc, &mut props, "note", "String"); props);
    or_drop!(push_parts(alloc, &mut props, "columns", "Column", "table"); props);
    Ok(props)
}

fn table_class(alloc: Global) -> Result<ClassDesc, NoMemory>
    ensures { IfOk result (λ c. c ≡ table_class) }
{
    let props = table_props(alloc)?;
    let class = class_under(alloc, "Table", "Named", props)?;
    Ok(class)
}

fn column_class(alloc: Global) -> Result<ClassDesc, NoMemory>
    ensures { IfOk result (λ c. c ≡ column_class) }
{
    let mut props = Seq::new(alloc);
    or_drop!(push_one(alloc, &mut props, "table", "Table", "columns"); props);
    or_drop!(push_optional(alloc, &mut props, "type", "String"); props);
    let class = class_under(alloc, "Column", "Named", props)?;
    Ok(class)
}

fn remark_class(alloc: Global) -> Result<ClassDesc, NoMemory>
    ensures { IfOk result (λ c. c ≡ remark_class) }
{
    let mut props = Seq::new(alloc);
    or_drop!(push_optional(alloc, &mut props, "text", "String"); props);
    let class = class_with(alloc, "Remark", false, props)?;
    Ok(class)
}

fn audit_class(alloc: Global) -> Result<ClassDesc, NoMemory>
    ensures { IfOk result (λ c. c ≡ audit_class) }
{
    let mut props = Seq::new(alloc);
    or_drop!(push_required(alloc, &mut props, "by", "String"); props);
    let class = class_under(alloc, "Audit", "Named", props)?;
    Ok(class)
}

fn folder_class(alloc: Global) -> Result<ClassDesc, NoMemory>
    ensures { IfOk result (λ c. c ≡ folder_class) }
{
    let mut props = Seq::new(alloc);
    or_drop!(push_parts(alloc, &mut props, "sub", "Folder", "up"); props);
    or_drop!(push_one(alloc, &mut props, "up", "Folder", "sub"); props);
    let class = class_under(alloc, "Folder", "Named", props)?;
    Ok(class)
}

fn classes(alloc: Global) -> Result<Seq<ClassDesc>, NoMemory>
    ensures { IfOk result (λ classes. classes ≡ rdb_classes) }
{
    let mut classes = Seq::new(alloc);
    classes.push(named_class(alloc)?)?;
    classes.push(schema_class(alloc)?)?;
    classes.push(table_class(alloc)?)?;
    classes.push(column_class(alloc)?)?;
    classes.push(remark_class(alloc)?)?;
    classes.push(audit_class(alloc)?)?;
    classes.push(folder_class(alloc)?)?;
    Ok(classes)
}

fn description(alloc: Global) -> Result<MetaDesc, NoMemory>
    ensures { IfOk result (λ desc. desc ≡ rdb_desc) }
{
    Ok(MetaDesc {
        name: ascii(alloc, "Rdb")?,
        classes: classes(alloc)?,
        enums: Seq::new(alloc),
    })
}

/// The metamodel Rdb of schemas, tables and columns, of remarks and audits, and of folders.
pub fn rdb_metamodel(alloc: Global) -> Result<MetaModel, NoMemory>
    ensures { IfOk result (λ m. m ≡ rdb_desc) }
{
    let desc = description(alloc)?;
    metamodel(alloc, desc)
}
