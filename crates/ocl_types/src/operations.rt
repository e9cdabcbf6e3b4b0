ghost use Rattle.std.specs.Prelude.{◌≡◌};
ghost use Rattle.std.specs.List.{find};
ghost use Rattle.std.specs.Str.{bytes_eq};
ghost use Rattle.ocl_types.specs.Operations.{operation_row as row_of_operation, iterator_row as row_of_iterator, class_row as row_of_class_operation, operation_named as operation_meant, iterator_named as iterator_meant, class_operation_named as class_operation_meant};

use qv_syntax::{ClassOperation, IteratorKind, Operation};

/// The types of values that an operation on single values stands behind.
#[derive(Clone, Copy)]
pub(crate) enum Receivers {
    Int,
    IntOrBool,
    Str,
    Any,
}

/// The arguments of an operation on single values.
#[derive(Clone, Copy)]
pub(crate) enum Parameters {
    Nothing,
    Int,
    TwoInts,
    Str,
}

/// What an operation on single values gives.
#[derive(Clone, Copy)]
pub(crate) enum OperationResult {
    Int,
    Str,
    Bool,
    /// A Set of the value's type.
    SetOfIt,
}

/// A row of the table of operations on single values.
#[derive(Clone, Copy)]
pub(crate) struct OperationRow {
    pub name: &'static str,
    pub receivers: Receivers,
    pub parameters: Parameters,
    pub result: OperationResult,
}

/// What an iterator gives.
#[derive(Clone, Copy)]
pub(crate) enum IteratorResult {
    /// A collection of the kind and the elements of the one that it goes over.
    Same,
    /// A collection of what its body gives.
    Collected,
    Bool,
}

/// A row of the table of iterators.
#[derive(Clone, Copy)]
pub(crate) struct IteratorRow {
    pub name: &'static str,
    /// Whether the body is a condition.
    pub conditional: bool,
    pub result: IteratorResult,
}

/// What an operation with a class gives.
#[derive(Clone, Copy)]
pub(crate) enum ClassResult {
    Bool,
    /// An object of the class.
    Object,
}

/// A row of the table of operations with a class.
#[derive(Clone, Copy)]
pub(crate) struct ClassRow {
    pub name: &'static str,
    pub result: ClassResult,
}

/// The operations on single values that are called by a name.
static OPERATIONS: [Operation; 12] = [
    Operation::Absolute,
    Operation::Divide,
    Operation::Modulo,
    Operation::Maximum,
    Operation::Minimum,
    Operation::ToString,
    Operation::Length,
    Operation::Concatenate,
    Operation::ToInteger,
    Operation::Substring,
    Operation::IsUndefined,
    Operation::IsInvalid,
];

/// All iterators.
static ITERATORS: [IteratorKind; 7] = [
    IteratorKind::Select,
    IteratorKind::Reject,
    IteratorKind::Collect,
    IteratorKind::Exists,
    IteratorKind::ForAll,
    IteratorKind::One,
    IteratorKind::IsUnique,
];

/// All operations with a class.
static CLASS_OPERATIONS: [ClassOperation; 3] = [
    ClassOperation::IsTypeOf,
    ClassOperation::IsKindOf,
    ClassOperation::AsType,
];

/// A row of operations on single values.
fn single(
    name: &'static str,
    receivers: Receivers,
    parameters: Parameters,
    gives: OperationResult,
) -> OperationRow
    ensures name { result.name.now ≡ name.now }
    ensures receivers { result.receivers ≡ receivers }
    ensures parameters { result.parameters ≡ parameters }
    ensures gives { result.result ≡ gives }
{
    OperationRow {
        name,
        receivers,
        parameters,
        result: gives,
    }
}

/// The row of an operation on single values.
#[tactic(auto, unfolding(crate::specs::Operations::operation_row))]
pub(crate) fn operation_row(operation: Operation) -> OperationRow
    ensures name { result.name.now ≡ (row_of_operation operation).name }
    ensures receivers { result.receivers ≡ (row_of_operation operation).receivers }
    ensures parameters { result.parameters ≡ (row_of_operation operation).parameters }
    ensures gives { result.result ≡ (row_of_operation operation).result }
{
    use Operation as Of;
    use OperationResult as Gives;
    use Parameters as Takes;
    use Receivers as On;
    match operation {
        Of::Absolute => single("abs", On::Int, Takes::Nothing, Gives::Int),
        Of::Divide => single("div", On::Int, Takes::Int, Gives::Int),
        Of::Modulo => single("mod", On::Int, Takes::Int, Gives::Int),
        Of::Maximum => single("max", On::Int, Takes::Int, Gives::Int),
        Of::Minimum => single("min", On::Int, Takes::Int, Gives::Int),
        Of::ToString => single("toString", On::IntOrBool, Takes::Nothing, Gives::Str),
        Of::Length => single("size", On::Str, Takes::Nothing, Gives::Int),
        Of::Concatenate => single("concat", On::Str, Takes::Str, Gives::Str),
        Of::ToInteger => single("toInteger", On::Str, Takes::Nothing, Gives::Int),
        Of::Substring => single("substring", On::Str, Takes::TwoInts, Gives::Str),
        Of::IsUndefined => single("oclIsUndefined", On::Any, Takes::Nothing, Gives::Bool),
        Of::IsInvalid => single("oclIsInvalid", On::Any, Takes::Nothing, Gives::Bool),
        Of::AsSingletonSet => single("oclAsSet", On::Any, Takes::Nothing, Gives::SetOfIt),
    }
}

/// Whether an operation on single values has the name.
fn is_operation(operation: Operation, name: &str) -> bool
    ensures { result ≡ bytes_eq name.now (row_of_operation operation).name }
{
    operation_row(operation).name == name
}

/// The first of these operations that has the name.
fn first_operation(operations: &[Operation], name: &str) -> Option<Operation>
    ensures { result ≡ find (λ o. bytes_eq name.now (row_of_operation o).name) operations.now }
{
    match operations {
        [] => None,
        [first, rest @ ..] => if is_operation(*first, name) {
            Some(*first)
        } else {
            first_operation(rest, name)
        },
    }
}

/// The operation on single values of this name.
#[tactic(auto, unfolding(crate::specs::Operations::operation_named))]
pub(crate) fn operation_named(name: &str) -> Option<Operation>
    ensures { result ≡ operation_meant name.now }
{
    first_operation(&OPERATIONS, name)
}

/// The row of an iterator.
#[tactic(auto, unfolding(crate::specs::Operations::iterator_row))]
pub(crate) fn iterator_row(iterator: IteratorKind) -> IteratorRow
    ensures name { result.name.now ≡ (row_of_iterator iterator).name }
    ensures conditional { result.conditional ≡ (row_of_iterator iterator).conditional }
    ensures gives { result.result ≡ (row_of_iterator iterator).result }
{
    let (name, conditional, gives) = match iterator {
        IteratorKind::Select => ("select", true, IteratorResult::Same),
        IteratorKind::Reject => ("reject", true, IteratorResult::Same),
        IteratorKind::Collect => ("collect", false, IteratorResult::Collected),
        IteratorKind::Exists => ("exists", true, IteratorResult::Bool),
        IteratorKind::ForAll => ("forAll", true, IteratorResult::Bool),
        IteratorKind::One => ("one", true, IteratorResult::Bool),
        IteratorKind::IsUnique => ("isUnique", false, IteratorResult::Bool),
    };
    IteratorRow {
        name,
        conditional,
        result: gives,
    }
}

/// Whether an iterator has the name.
fn is_iterator(iterator: IteratorKind, name: &str) -> bool
    ensures { result ≡ bytes_eq name.now (row_of_iterator iterator).name }
{
    iterator_row(iterator).name == name
}

/// The first of these iterators that has the name.
fn first_iterator(iterators: &[IteratorKind], name: &str) -> Option<IteratorKind>
    ensures { result ≡ find (λ i. bytes_eq name.now (row_of_iterator i).name) iterators.now }
{
    match iterators {
        [] => None,
        [first, rest @ ..] => if is_iterator(*first, name) {
            Some(*first)
        } else {
            first_iterator(rest, name)
        },
    }
}

/// The iterator of this name.
#[tactic(auto, unfolding(crate::specs::Operations::iterator_named))]
pub(crate) fn iterator_named(name: &str) -> Option<IteratorKind>
    ensures { result ≡ iterator_meant name.now }
{
    first_iterator(&ITERATORS, name)
}

/// The row of an operation with a class.
#[tactic(auto, unfolding(crate::specs::Operations::class_row))]
pub(crate) fn class_row(operation: ClassOperation) -> ClassRow
    ensures name { result.name.now ≡ (row_of_class_operation operation).name }
    ensures gives { result.result ≡ (row_of_class_operation operation).result }
{
    let (name, gives) = match operation {
        ClassOperation::IsTypeOf => ("oclIsTypeOf", ClassResult::Bool),
        ClassOperation::IsKindOf => ("oclIsKindOf", ClassResult::Bool),
        ClassOperation::AsType => ("oclAsType", ClassResult::Object),
    };
    ClassRow {
        name,
        result: gives,
    }
}

/// Whether an operation with a class has the name.
fn is_class_operation(operation: ClassOperation, name: &str) -> bool
    ensures { result ≡ bytes_eq name.now (row_of_class_operation operation).name }
{
    class_row(operation).name == name
}

/// The first of these operations with a class that has the name.
fn first_class_operation(operations: &[ClassOperation], name: &str) -> Option<ClassOperation>
    ensures { result ≡ find (λ o. bytes_eq name.now (row_of_class_operation o).name) operations.now }
{
    match operations {
        [] => None,
        [first, rest @ ..] => if is_class_operation(*first, name) {
            Some(*first)
        } else {
            first_class_operation(rest, name)
        },
    }
}

/// The operation with a class of this name.
#[tactic(auto, unfolding(crate::specs::Operations::class_operation_named))]
pub(crate) fn class_operation_named(name: &str) -> Option<ClassOperation>
    ensures { result ≡ class_operation_meant name.now }
{
    first_class_operation(&CLASS_OPERATIONS, name)
}
