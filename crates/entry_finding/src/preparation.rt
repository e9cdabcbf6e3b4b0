use entry_making::Recipe;
use template_match::Plan;

/// What is found once for a relation: how its bindings are looked for, and what its entries make.
#[derive(Drop)]
pub struct Preparation<'p> {
    pub(crate) plan: Plan,
    pub(crate) recipe: Recipe<'p>,
}
