ghost use Rattle.std.specs.Prelude.{◌≡◌, ◌↔◌, ◌<◌, ℕ, List, true, length};
ghost use Rattle.object_tables.specs.Models.{ModelData};
ghost use Rattle.repair_semantics.specs.Deletions.{is_deleted};
ghost use Rattle.repair_laws.specs.Gone.{IsGone};

/// An object of the target is deleted exactly where it is in the least set that has the unneeded objects, and with each container the
/// parts that no demand speaks of.
pub fn deleted_objects_are_the_least_set()
    ensures { (m : ModelData) (classes images : List ℕ) (o : ℕ) → o < length m.objects → is_deleted m classes images o ≡ true ↔ IsGone m classes images o }
{}
