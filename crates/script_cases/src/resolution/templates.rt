//! Templates of programs, printed.
use case_texts::Pen;
use expression_settings::put_typed_tree;
use ocl_environments::Metas;
use qv_syntax::{Item, ItemValue, Tmpl};
use std::alloc::Global;

/// A template: its variable, its class and its items.
#[cycle(printing)]
pub(crate) fn put_template(alloc: Global, pen: &mut Pen, metas: &Metas, template: &Tmpl) {
    let var = template.var;
    let class = template.class.0;
    pen.put_string(format!(in alloc; "{var}: class {class} {{"));
    put_items(alloc, pen, metas, template.items.as_slice());
    pen.put("}");
}

#[cycle(printing)]
fn put_items(alloc: Global, pen: &mut Pen, metas: &Metas, items: &[Item]) {
    let mut is_later = false;
    for item in items {
        if is_later {
            pen.put(", ");
        }
        put_item(alloc, pen, metas, item);
        is_later = true;
    }
}

#[cycle(printing)]
fn put_item(alloc: Global, pen: &mut Pen, metas: &Metas, item: &Item) {
    let prop = item.prop.0;
    pen.put_string(format!(in alloc; "{prop} = "));
    match &item.value {
        ItemValue::Null => pen.put("null"),
        ItemValue::Expr { value } => put_typed_tree(alloc, pen, metas, value),
        ItemValue::Nested { template } => put_template(alloc, pen, metas, template),
    }
}
