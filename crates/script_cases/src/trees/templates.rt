use case_texts::Pen;
use qv_syntax::{ItemTree, ItemValueTree, Path, TemplateTree};

/// The names of a path.
pub(crate) fn put_path(pen: &mut Pen, path: &Path) {
    let mut is_later = false;
    for name in path.names.as_slice() {
        if is_later {
            pen.put("::");
        }
        pen.put(name.text.as_str());
        is_later = true;
    }
}

/// A template in short.
#[cycle(printing)]
pub(crate) fn put_template(pen: &mut Pen, template: &TemplateTree) {
    pen.put(":");
    put_path(pen, &template.class);
    pen.put("{");
    put_items(pen, template.items.as_slice());
    pen.put("}");
}

#[cycle(printing)]
fn put_items(pen: &mut Pen, items: &[ItemTree]) {
    for item in items {
        pen.put(" ");
        pen.put(item.prop.text.as_str());
        pen.put("=");
        put_value(pen, &item.value);
    }
}

#[cycle(printing)]
fn put_value(pen: &mut Pen, value: &ItemValueTree) {
    match value {
        ItemValueTree::Expr { .. } => pen.put("_"),
        ItemValueTree::Nested { variable, template } => {
            if let Some(name) = variable {
                pen.put(name.text.as_str());
            }
            put_template(pen, template);
        }
    }
}
