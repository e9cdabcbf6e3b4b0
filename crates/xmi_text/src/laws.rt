ghost use Rattle.std.specs.Prelude.{◌≡◌, ◌↔◌, ℕ, ◌+◌, List, ◌++◌, take, None, Some};
ghost use Rattle.xmi_text.specs.Completion.{MayGoOn, completion};
ghost use Rattle.xmi_text.specs.Reading.{state_of, marks_of, fault_of, end_fault_of};
ghost use Rattle.xmi_text.specs.Markup.{Begins, Markup};
ghost use Rattle.xmi_text.specs.Trees.{Tree, Spells};
ghost use Rattle.xmi_text.specs.declared.error.TextFault.{TextFault};
ghost use Rattle.xmi_text.specs.declared.error.TextKind.TheVariants.{BadMark};
ghost use Rattle.xmi_text.specs.declared.mark.Mark.{Mark};

/// The marks that bytes complete are the first marks of every text that they begin.
pub fn marks_stay()
    ensures { (bytes more : List ℕ) → (rest : List Mark) × (marks_of (bytes ++ more) ≡ marks_of bytes ++ rest) }
{}

/// A fault that bytes have, however they go on, is that of every text that they begin, and of the bytes where they
/// end, and no mark comes behind it.
pub fn faults_stay()
    ensures fault { (bytes more : List ℕ) (fault : TextFault) → fault_of bytes ≡ Some fault → fault_of (bytes ++ more) ≡ Some fault }
    ensures ended { (bytes : List ℕ) (fault : TextFault) → fault_of bytes ≡ Some fault → end_fault_of bytes ≡ Some fault }
    ensures marks { (bytes more : List ℕ) (fault : TextFault) → fault_of bytes ≡ Some fault → marks_of (bytes ++ more) ≡ marks_of bytes }
{}

/// Bytes spell one tree at most.
pub fn one_tree()
    ensures { (bytes : List ℕ) (first second : Tree) → Spells bytes first → Spells bytes second → first ≡ second }
{}

/// The bytes of a document are read without a fault, and as the document's tree.
pub fn documents_are_read()
    ensures { (bytes : List ℕ) (tree : Tree) → Markup bytes tree → Spells bytes tree }
{}

/// Bytes that are read as a tree are those of a document of that tree.
pub fn trees_are_documents()
    ensures { (bytes : List ℕ) (tree : Tree) → Spells bytes tree → Markup bytes tree }
{}

/// Bytes without a fault are those of a document, and no others.
pub fn faultless_bytes_are_documents()
    ensures { (bytes : List ℕ) → (end_fault_of bytes ≡ None) ↔ ((tree : Tree) × Markup bytes tree) }
{}

/// The bytes that begin a document are those that may go on to a whole text.
pub fn documents_begin()
    ensures { (bytes : List ℕ) → Begins bytes ↔ MayGoOn bytes }
{}

/// Bytes that are whole, or end before the text does, are made a document by their completion, and no others are made
/// whole by any bytes.
pub fn completions_end()
    ensures completed { (bytes : List ℕ) → MayGoOn bytes → (tree : Tree) × Markup (bytes ++ completion (state_of bytes)) tree }
    ensures only { (bytes more : List ℕ) → end_fault_of (bytes ++ more) ≡ None → MayGoOn bytes }
{}

/// The bytes before a fault may go on to a whole text, and where the fault is a bad mark, its byte is the first with
/// which they may not.
pub fn faults_have_places()
    ensures before { (bytes : List ℕ) (fault : TextFault) → end_fault_of bytes ≡ Some fault → MayGoOn (take fault.at bytes) }
    ensures through { (bytes : List ℕ) (fault : TextFault) → end_fault_of bytes ≡ Some fault → fault.kind ≡ BadMark → MayGoOn (take (fault.at + 1) bytes) → ⊥ }
{}
