ghost use Rattle.std.specs.Prelude.{◌≡◌, ◌↔◌, ℕ, List, Some};
ghost use Rattle.xmi_text.specs.Faults.{IsFaultAt, IsBefore, IsFirstFault};
ghost use Rattle.xmi_text.specs.Markup.{Markup};
ghost use Rattle.xmi_text.specs.Reading.{end_fault_of};
ghost use Rattle.xmi_text.specs.Trees.{Tree};
ghost use Rattle.xmi_text.specs.declared.error.TextFault.{TextFault};
ghost use Rattle.xmi_text.specs.declared.error.TextKind.{TextKind};

/// The told fault comes before each fault that stands, or is it: the least place is told, and at one place the
/// least kind.
pub fn no_fault_is_missed()
    ensures { (bytes : List ℕ) (fault : TextFault) (kind : TextKind) (n : ℕ) → end_fault_of bytes ≡ Some fault → IsFaultAt bytes kind n → IsBefore fault.at fault.kind n kind }
{}

/// No fault stands in a document.
pub fn documents_have_no_fault()
    ensures { (bytes : List ℕ) (tree : Tree) (kind : TextKind) (n : ℕ) → Markup bytes tree → IsFaultAt bytes kind n → ⊥ }
{}

/// The fault that is told of bytes is the first that stands in them, and where one is the first, it is told.
pub fn told_fault_is_first()
    ensures { (bytes : List ℕ) (fault : TextFault) → (end_fault_of bytes ≡ Some fault) ↔ IsFirstFault bytes fault }
{}
