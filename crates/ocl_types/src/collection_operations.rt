ghost use Rattle.std.specs.Prelude.{◌≡◌};
ghost use Rattle.std.specs.List.{find};
ghost use Rattle.std.specs.Str.{bytes_eq};
ghost use Rattle.ocl_types.specs.Operations.{collection_row as row_of_operation, collection_operation_named as operation_meant};

use qv_syntax::CollectionOperation;

/// The kinds of collections that an operation stands behind.
#[derive(Clone, Copy)]
pub(crate) enum Kinds {
    Any,
    Set,
    /// Those whose elements stand in an order.
    Ordered,
}

/// The argument of an operation on a collection.
#[derive(Clone, Copy)]
pub(crate) enum Argument {
    Nothing,
    /// What may stand among the elements.
    Element,
    /// A collection of any kind.
    Collection,
    /// A collection of the same kind.
    SameKind,
    /// An Integer.
    Index,
}

/// What an operation on a collection gives.
#[derive(Clone, Copy)]
pub(crate) enum CollectionResult {
    Int,
    Bool,
    /// An element.
    Element,
    /// A collection of the same kind and elements.
    Same,
    /// One of the same kind, of the type to which the elements and what is given conform.
    Wider,
    /// A Set of the same elements, and its like.
    Set,
    Bag,
    Sequence,
    OrderedSet,
}

/// A row of the table of operations on collections.
#[derive(Clone, Copy)]
pub(crate) struct CollectionRow {
    pub name: &'static str,
    pub kinds: Kinds,
    pub argument: Argument,
    pub result: CollectionResult,
}

/// All operations on collections.
static COLLECTION_OPERATIONS: [CollectionOperation; 22] = [
    CollectionOperation::Size,
    CollectionOperation::IsEmpty,
    CollectionOperation::NotEmpty,
    CollectionOperation::Includes,
    CollectionOperation::Excludes,
    CollectionOperation::IncludesAll,
    CollectionOperation::ExcludesAll,
    CollectionOperation::Count,
    CollectionOperation::Sum,
    CollectionOperation::Including,
    CollectionOperation::Excluding,
    CollectionOperation::Union,
    CollectionOperation::Intersection,
    CollectionOperation::AsSet,
    CollectionOperation::AsBag,
    CollectionOperation::AsSequence,
    CollectionOperation::AsOrderedSet,
    CollectionOperation::First,
    CollectionOperation::Last,
    CollectionOperation::At,
    CollectionOperation::Append,
    CollectionOperation::Prepend,
];

/// A row of operations on collections.
fn many(
    name: &'static str,
    kinds: Kinds,
    argument: Argument,
    gives: CollectionResult,
) -> CollectionRow
    ensures name { result.name.now ≡ name.now }
    ensures kinds { result.kinds ≡ kinds }
    ensures argument { result.argument ≡ argument }
    ensures gives { result.result ≡ gives }
{
    CollectionRow {
        name,
        kinds,
        argument,
        result: gives,
    }
}

/// The row of an operation on collections.
#[tactic(auto, unfolding(crate::specs::Operations::collection_row))]
pub(crate) fn collection_row(operation: CollectionOperation) -> CollectionRow
    ensures name { result.name.now ≡ (row_of_operation operation).name }
    ensures kinds { result.kinds ≡ (row_of_operation operation).kinds }
    ensures argument { result.argument ≡ (row_of_operation operation).argument }
    ensures gives { result.result ≡ (row_of_operation operation).result }
{
    use CollectionOperation as Of;
    use Argument as Takes;
    use CollectionResult as Gives;
    use Kinds as On;
    match operation {
        Of::Size => many("size", On::Any, Takes::Nothing, Gives::Int),
        Of::IsEmpty => many("isEmpty", On::Any, Takes::Nothing, Gives::Bool),
        Of::NotEmpty => many("notEmpty", On::Any, Takes::Nothing, Gives::Bool),
        Of::Includes => many("includes", On::Any, Takes::Element, Gives::Bool),
        Of::Excludes => many("excludes", On::Any, Takes::Element, Gives::Bool),
        Of::IncludesAll => many("includesAll", On::Any, Takes::Collection, Gives::Bool),
        Of::ExcludesAll => many("excludesAll", On::Any, Takes::Collection, Gives::Bool),
        Of::Count => many("count", On::Any, Takes::Element, Gives::Int),
        Of::Sum => many("sum", On::Any, Takes::Nothing, Gives::Int),
        Of::Including => many("including", On::Any, Takes::Element, Gives::Wider),
        Of::Excluding => many("excluding", On::Any, Takes::Element, Gives::Same),
        Of::Union => many("union", On::Any, Takes::SameKind, Gives::Wider),
        Of::Intersection => many("intersection", On::Set, Takes::SameKind, Gives::Wider),
        Of::AsSet => many("asSet", On::Any, Takes::Nothing, Gives::Set),
        Of::AsBag => many("asBag", On::Any, Takes::Nothing, Gives::Bag),
        Of::AsSequence => many("asSequence", On::Any, Takes::Nothing, Gives::Sequence),
        Of::AsOrderedSet => many("asOrderedSet", On::Any, Takes::Nothing, Gives::OrderedSet),
        Of::First => many("first", On::Ordered, Takes::Nothing, Gives::Element),
        Of::Last => many("last", On::Ordered, Takes::Nothing, Gives::Element),
        Of::At => many("at", On::Ordered, Takes::Index, Gives::Element),
        Of::Append => many("append", On::Ordered, Takes::Element, Gives::Wider),
        Of::Prepend => many("prepend", On::Ordered, Takes::Element, Gives::Wider),
    }
}

/// Whether an operation on collections has the name.
fn is_operation(operation: CollectionOperation, name: &str) -> bool
    ensures { result ≡ bytes_eq name.now (row_of_operation operation).name }
{
    collection_row(operation).name == name
}

/// The first of these operations that has the name.
fn first_operation(operations: &[CollectionOperation], name: &str) -> Option<CollectionOperation>
    ensures { result ≡ find (λ o. bytes_eq name.now (row_of_operation o).name) operations.now }
{
    match operations {
        [] => None,
        [first, rest @ ..] => if is_operation(*first, name) {
            Some(*first)
        } else {
            first_operation(rest, name)
        },
    }
}

/// The operation on collections of this name.
#[tactic(auto, unfolding(crate::specs::Operations::collection_operation_named))]
pub(crate) fn collection_operation_named(name: &str) -> Option<CollectionOperation>
    ensures { result ≡ operation_meant name.now }
{
    first_operation(&COLLECTION_OPERATIONS, name)
}
