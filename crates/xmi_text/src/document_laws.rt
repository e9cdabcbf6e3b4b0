ghost use Rattle.std.specs.Prelude.{◌≡◌, ℕ, List, ◌∷◌, ◌++◌, length, true, take, encode_utf8_all};
ghost use Rattle.std.specs.Str.{all_scalars};
ghost use Rattle.xmi_text.specs.Markup.{Document, IsDocument, Markup, document_text, all_said, joined_runs};
ghost use Rattle.xmi_text.specs.Places.{document_marks, complete_marks};
ghost use Rattle.xmi_text.specs.Reading.{marks_of};
ghost use Rattle.xmi_text.specs.Trees.{Tree, told};

/// A document has one tree.
pub fn one_document_tree()
    ensures { (bytes : List ℕ) (first second : Tree) → Markup bytes first → Markup bytes second → first ≡ second }
{}

/// The marks of a document are read, each with its place.
pub fn marks_have_places()
    ensures { (d : Document) → IsDocument d → all_scalars (document_text d) ≡ true → marks_of (encode_utf8_all (document_text d)) ≡ document_marks d }
{}

/// The first bytes of a document, and so all bytes that begin one, are read as the marks that they complete.
pub fn first_bytes_are_read()
    ensures first { (d : Document) (n : ℕ) → IsDocument d → all_scalars (document_text d) ≡ true → marks_of (take n (encode_utf8_all (document_text d))) ≡ complete_marks d n }
    ensures beginnings { (bytes more : List ℕ) (tree : Tree) (m : Markup (bytes ++ more) tree) → marks_of bytes ≡ complete_marks m.document (length bytes) }
{}

/// The marks of a document without their places are what it says.
pub fn marks_tell_documents()
    ensures { (d : Document) → IsDocument d → told (document_marks d) ≡ joined_runs (all_said (d.root ∷ d.inner)) }
{}
