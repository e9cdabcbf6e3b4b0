ghost use Rattle.std.specs.Prelude.{All, map, Option, None};
ghost use Rattle.model_assembly.specs.Elements.{Item};
ghost use Rattle.model_assembly.specs.Faults.{StandsAt};
ghost use Rattle.xmi_profile.specs.Firsts.{FirstIn, Duplicates};
ghost use Rattle.xmi_profile.specs.Judging.{Found, first_of, first_fault};
ghost use Rattle.xmi_profile.specs.Listing.{element_of};
ghost use Rattle.xmi_profile.specs.Numbering.{NumbersOf, all_numbered};
ghost use Rattle.xmi_profile.specs.Scanning.{IsWithin};
ghost use Rattle.model_assembly.specs.Source.{Source, all_items, file_ids};

/// The first of what is found of a tree's identifiers and of its elements is the first fault that stands at a place.
pub(crate) fn first_faults_stand()
    ensures { (s : Source) (found : Option Found) → FirstIn (Duplicates s) found → All (λ (item : Item). IsWithin s.meta item.role) (all_items s) → FirstIn (StandsAt s) (first_of found (first_fault s.meta (file_ids s) None (map element_of (all_items s)))) }
{}

/// What is known of the objects of a tree.
pub(crate) fn objects_are_numbered()
    ensures { (s : Source) → NumbersOf s (all_numbered s.meta (map element_of (all_items s))) }
{}
