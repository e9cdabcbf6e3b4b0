ghost use Rattle.std.specs.Prelude.{◌≡◌, ◌↔◌, true, List, [], ◌∷◌, codes, Some};
ghost use Rattle.object_tables.specs.Models.{ModelData};
ghost use Rattle.qv_syntax.specs.declared.program.Program.{Program};
ghost use Rattle.qvtr_semantics.specs.SmallModels.{rdb, package_to_schema, class_to_table};
ghost use Rattle.repair_semantics.specs.declared.entry.Place.TheVariants as places;
ghost use Rattle.repair_semantics.specs.declared.entry.Entry.{Entry};
ghost use Rattle.repair_semantics.specs.declared.term.Term.{Term};
ghost use Rattle.repair_semantics.specs.Terms.{same_term};
ghost use Rattle.repair_semantics.specs.EntryValues.{known};
ghost use Rattle.repair_semantics.specs.EntryOrder.{AreEntries};
ghost use Rattle.repair_semantics.specs.Making.{made_values};
ghost use Rattle.repair_semantics.specs.Unmet.{unmet_at};
ghost use Rattle.repair_semantics.specs.Conflicts.{AreInConflict};
ghost use Rattle.repair_semantics.specs.Candidates.{candidate, candidate_by};
ghost use Rattle.repair_semantics.specs.SmallRepairs.{two_relations, with_remark, remark_alone, twice, one_demand, one_of_two, packages_of_shop, package_values, package_made, class_values, class_made, never, nameless, two_names, first_name, second_name, name_claim, shop, shop_demands, shop_terms, shop_repaired};

/// Two terms tie in their order exactly where they are one.
pub fn terms_tie_where_they_are_one()
    ensures { (t u : Term) → same_term t u ≡ true ↔ (t ≡ u) }
{}

/// The list of all entries is one: no other list in order has the same entries.
pub fn entries_stand_in_one_order()
    ensures { (program : Program) (models : List ModelData) (xs ys : List Entry) → AreEntries program models xs → AreEntries program models ys → xs ≡ ys }
{}

/// Small entries. A package makes a schema, and a persistent class a table. A condition that isn't true, and an item whose value is
/// null, are the places at which entries are unmet. Two names for one schema are in conflict.
pub fn small_entries_are_told()
    ensures schema { made_values two_relations packages_of_shop package_to_schema package_values ≡ package_made }
    ensures table { made_values two_relations packages_of_shop class_to_table class_values ≡ class_made }
    ensures condition { unmet_at two_relations packages_of_shop never (known package_values) ≡ Some (places.Where 1) }
    ensures item { unmet_at two_relations packages_of_shop nameless (known package_values) ≡ Some (places.Item (record { 0 = 0 })) }
    ensures conflict { AreInConflict rdb two_names first_name second_name (name_claim (codes "a")) (name_claim (codes "x")) }
{}

/// Small repairs. Where nothing is demanded, objects of managed classes go and a remark stays; of two objects with the key of a
/// demanded term the first one stays. A schema and a table that are demanded stay with what no demand speaks of, a table that isn't goes,
/// and one that is missing is made.
pub fn small_repairs_are_told()
    ensures nothing { candidate two_relations with_remark [] ≡ remark_alone }
    ensures one_of_two { candidate two_relations twice one_demand ≡ one_of_two }
    ensures shop { candidate_by two_relations shop shop_demands shop_terms ≡ shop_repaired }
{}
