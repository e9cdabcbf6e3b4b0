ghost use Rattle.std.specs.Prelude.{◌≡◌};

/// Which limit of a model is passed: that on its live objects, `MAX_OBJECTS`, or that on its depth of containment, `MAX_DEPTH`.
#[derive(Clone, Copy)]
pub enum LimitKind {
    Objects,
    Depth,
}

impl LimitKind {
    ghost use Rattle.object_tables.specs.Words.{limit_word};

    /// The word that is printed.
    pub fn word(self) -> &'static str
        ensures { result.now ≡ limit_word self }
    {
        match self {
            LimitKind::Objects => "Objects",
            LimitKind::Depth => "Depth",
        }
    }
}

/// How many objects may be added to a model, those that are gone again among them: the numbers of objects are below it.
pub const MAX_ADDED: usize = 4_000_000_000;

/// The greatest number of live objects of a model.
pub const MAX_OBJECTS: u32 = 200_000;

/// The greatest depth of containment of a model, a top object having depth 1.
pub const MAX_DEPTH: u32 = 200;
