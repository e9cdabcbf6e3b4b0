/// An operation on single values (OCL 2.4, sections 11.5.1 to 11.5.4).
#[derive(Clone, Copy, Debug)]
pub enum Operation {
    /// `abs()`
    Absolute,
    /// `div(i)`
    Divide,
    /// `mod(i)`
    Modulo,
    /// `max(i)`
    Maximum,
    /// `min(i)`
    Minimum,
    /// `toString()` of an Integer or a Boolean
    ToString,
    /// `size()` of a String
    Length,
    /// `concat(s)`
    Concatenate,
    /// `toInteger()`
    ToInteger,
    /// `substring(lower, upper)`
    Substring,
    /// `oclIsUndefined()`
    IsUndefined,
    /// `oclIsInvalid()`
    IsInvalid,
    /// `oclAsSet()`: what `->` takes of a single value
    AsSingletonSet,
}

/// An operation on a collection (OCL 2.4, section 11.7).
#[derive(Clone, Copy, Debug)]
pub enum CollectionOperation {
    /// `size()`
    Size,
    /// `isEmpty()`
    IsEmpty,
    /// `notEmpty()`
    NotEmpty,
    /// `includes(x)`
    Includes,
    /// `excludes(x)`
    Excludes,
    /// `includesAll(c)`
    IncludesAll,
    /// `excludesAll(c)`
    ExcludesAll,
    /// `count(x)`
    Count,
    /// `sum()`
    Sum,
    /// `including(x)`
    Including,
    /// `excluding(x)`
    Excluding,
    /// `union(c)`
    Union,
    /// `intersection(c)`
    Intersection,
    /// `asSet()`
    AsSet,
    /// `asBag()`
    AsBag,
    /// `asSequence()`
    AsSequence,
    /// `asOrderedSet()`
    AsOrderedSet,
    /// `first()`
    First,
    /// `last()`
    Last,
    /// `at(i)`
    At,
    /// `append(x)`
    Append,
    /// `prepend(x)`
    Prepend,
}

/// An iterator over a collection (OCL 2.4, section 11.9).
#[derive(Clone, Copy, Debug)]
pub enum IteratorKind {
    /// `select(x | e)`
    Select,
    /// `reject(x | e)`
    Reject,
    /// `collect(x | e)`
    Collect,
    /// `exists(x | e)`
    Exists,
    /// `forAll(x | e)`
    ForAll,
    /// `one(x | e)`
    One,
    /// `isUnique(x | e)`
    IsUnique,
}

/// What is asked of an object and a class (OCL 2.4, section 11.3.1).
#[derive(Clone, Copy, Debug)]
pub enum ClassOperation {
    /// `oclIsTypeOf(C)`
    IsTypeOf,
    /// `oclIsKindOf(C)`
    IsKindOf,
    /// `oclAsType(C)`
    AsType,
}
