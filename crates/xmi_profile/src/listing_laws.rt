ghost use Rattle.std.specs.Prelude.{◌≡◌, ℕ, List, map, Ok};
ghost use Rattle.mof_metamodel.specs.declared.desc.MetaDesc.{MetaDesc};
ghost use Rattle.xmi_text.specs.Markup.{Markup};
ghost use Rattle.xmi_text.specs.Trees.{Tree};
ghost use Rattle.model_assembly.specs.declared.fault.Externs.{Externs};
ghost use Rattle.xmi_profile.specs.Bytes.{listing_of};
ghost use Rattle.model_assembly.specs.Elements.{items};
ghost use Rattle.xmi_profile.specs.Listing.{Listing, element_of};

/// The elements that are listed of a document are those of its tree.
pub(crate) fn documents_are_listed()
    ensures { (meta : MetaDesc) (outside : Externs) (bytes : List ℕ) (tree : Tree) → Markup bytes tree → (l : Listing) × (listing_of meta outside bytes ≡ Ok l) × (l.elements ≡ map element_of (items meta outside tree)) }
{}
