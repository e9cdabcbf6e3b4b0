ghost use Rattle.std.specs.Prelude.{◌≡◌};

/// Why an object is not added. `Limit` stands where as many objects are live, or have been added, as a model may have;
/// else `Abstract` where the class is abstract; else `DuplicateId` where a live object has the identifier.
#[derive(Clone, Copy)]
pub enum AddFault {
    Abstract,
    DuplicateId,
    Limit,
    NoMemory,
}

impl AddFault {
    ghost use Rattle.object_tables.specs.Words.{fault_word};

    /// The word that is printed.
    pub fn word(self) -> &'static str
        ensures { result.now ≡ fault_word self }
    {
        match self {
            AddFault::Abstract => "Abstract",
            AddFault::DuplicateId => "DuplicateId",
            AddFault::Limit => "Limit",
            AddFault::NoMemory => "NoMemory",
        }
    }
}
