use mof_metamodel::Seq;
use repair_semantics::Report;

/// What an enforcement comes to that isn't refused.
#[derive(Drop)]
pub enum Enforced {
    /// The target stays as it is.
    Unchanged,
    /// What the target's file becomes, and what that changes.
    Changed { bytes: Seq<u8>, report: Report },
}
