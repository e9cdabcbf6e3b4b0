ghost use Rattle.std.specs.Prelude.{◌≡◌, ◌≢◌, ◌+◌, ◌++◌, ℕ, List, Some, take, codes};
ghost use Rattle.xmi_text.specs.Faults.{IsFaultAt};
ghost use Rattle.xmi_text.specs.Markup.{Begins};
ghost use Rattle.xmi_text.specs.Reading.{end_fault_of, marks_of};
ghost use Rattle.xmi_text.specs.declared.error.TextFault.{TextFault};
ghost use Rattle.xmi_text.specs.declared.error.TextKind.TheVariants.{Limit};

/// Where bytes are told to have a fault, one of its kind stands.
pub fn faults_stand()
    ensures { (bytes : List ℕ) (fault : TextFault) → end_fault_of bytes ≡ Some fault → IsFaultAt bytes fault.kind fault.at }
{}

/// The byte with which bytes no longer begin a document, and those behind it, complete no mark. An element too deep
/// completes the run of text before it, as an end tag in its place would.
pub fn marks_stop()
    ensures behind { (bytes : List ℕ) (n : ℕ) (fault : TextFault) → end_fault_of bytes ≡ Some fault → fault.kind ≢ Limit → ¬ Begins (take (n + 1) bytes) → marks_of bytes ≡ marks_of (take n bytes) }
    ensures deep { (bytes : List ℕ) (fault : TextFault) → end_fault_of bytes ≡ Some fault → fault.kind ≡ Limit → marks_of bytes ≡ marks_of (take fault.at bytes ++ codes "</") }
{}
