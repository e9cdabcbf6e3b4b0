ghost use Rattle.std.specs.Prelude.{◌≡◌, ◌≢◌, ◌↔◌, List, map, Option, Contains, AllPairs};
ghost use Rattle.object_tables.specs.Models.{ModelData};
ghost use Rattle.qv_syntax.specs.declared.program.Program.{Program};
ghost use Rattle.qv_syntax.specs.declared.program.Rel.{Rel};
ghost use Rattle.qvtr_semantics.specs.Templates.{Values};
ghost use Rattle.qvtr_semantics.specs.Satisfaction.{IsLess};
ghost use Rattle.template_match.specs.Sources.{source_variables};
ghost use Rattle.repair_semantics.specs.declared.term.Term.{Term};
ghost use Rattle.repair_semantics.specs.declared.entry.Entry.{Entry};
ghost use Rattle.repair_semantics.specs.declared.entry.EntryName.{EntryName};
ghost use Rattle.repair_semantics.specs.EntryValues.{TermValues};
ghost use Rattle.repair_semantics.specs.Entries.{AreMatches};
ghost use Rattle.term_table.specs.TermTables.{values_in, AreDistinct};
ghost use Rattle.entry_bindings.specs.declared.matching.Match.{Match};
ghost use Rattle.entry_bindings.specs.Matches.{AreAmong, AreNamesOf, names_in};
ghost use Rattle.entry_bindings.specs.Starts.{NumberedValues};
ghost use Rattle.entry_bindings.specs.Joins.{all_joined};
ghost use Rattle.entry_bindings.specs.Asked.{IsEnforced, AreRoots, AreWithin, AreMatchesWithin, AreFound, IsEntryBinding};

/// Calls are among the names of entries exactly where they have their matches among these entries (QVT 1.3, sections 7.3 and 7.10.2).
pub fn calls_have_matches()
    ensures { (program : Program) (names : List EntryName) (entries : List Entry) → AreNamesOf program names entries → (calls : List (Option EntryName))
        → AreAmong names calls ↔ ((matches : List Entry) × AreMatches program calls matches × ((m : Entry) → Contains matches m → Contains entries m)) }
{}

/// The bindings that are joined by the matches of their calls are exactly those of the entries of a relation of the direction of an
/// enforceable program, with roots and matches whose terms are of a table without repeats; each is joined once, where no match stands
/// there twice (QVT 1.3, sections 7.2, 7.3 and 7.10.2).
pub fn joins_are_entry_bindings()
    ensures exact { (program : Program) (models : List ModelData) (rel : Rel) (terms : List Term) (ms : List Match) (roots : NumberedValues) → IsEnforced program rel
        → AreRoots program rel (values_in terms roots) → AreDistinct terms → AreWithin terms roots → AreMatchesWithin terms ms → (ds : List Values) → AreFound program models rel roots ds
        → (b : TermValues) → Contains (map (values_in terms) (all_joined program models ms rel roots ds)) b ↔ IsEntryBinding program models rel (names_in terms ms) (values_in terms roots) b }
    ensures once { (program : Program) (models : List ModelData) (rel : Rel) (terms : List Term) (ms : List Match) (roots : NumberedValues) → IsEnforced program rel
        → AreRoots program rel (values_in terms roots) → AreDistinct terms → AreWithin terms roots → AreMatchesWithin terms ms → (ds : List Values) → AreFound program models rel roots ds
        → AllPairs (IsLess (source_variables program rel)) ds → AllPairs (λ m n. m ≢ n) ms → AllPairs (λ a b. a ≢ b) (map (values_in terms) (all_joined program models ms rel roots ds)) }
{}
