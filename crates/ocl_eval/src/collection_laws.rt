//! What collections are, told by laws on their definitions. The functions do nothing.
ghost use Rattle.std.specs.Prelude.{◌≡◌, ◌∷◌, ◌++◌, [], ◌+◌, List, Bool, true, not, map, length};
ghost use Rattle.std.specs.List.{items_where_true, count_by};
ghost use Rattle.qv_syntax.specs.declared.type_tree.Kind.{Kind};
ghost use Rattle.qv_syntax.specs.declared.type_tree.Kind.TheVariants.{Set, Bag};
ghost use Rattle.qvtr_semantics.specs.declared.datum.Datum.{Datum};
ghost use Rattle.qvtr_semantics.specs.Data.{same_datum, is_among, in_order};
ghost use Rattle.qvtr_semantics.specs.Outs.{Collection};
ghost use Rattle.qvtr_semantics.specs.Collections.{collection, as_kind, kept, without};

/// Sets of the same members are equal, in whatever order and however often those were given.
#[tactic(auto, using(crate::proofs::SetLaws::set_by_members))]
pub fn sets_by_members()
    ensures { (ds es : List Datum) → ((d : Datum) → is_among d ds ≡ is_among d es) → collection Set ds ≡ collection Set es }
{}

/// A repeat in a Set changes nothing.
#[tactic(auto, using(crate::proofs::SetLaws::set_with_repeat))]
pub fn repeat_in_set()
    ensures { (d : Datum) (ds : List Datum) → is_among d ds ≡ true → collection Set (d ∷ ds) ≡ collection Set ds }
{}

/// `asSet` of a Bag is the Set of the elements that the Bag was made of.
#[tactic(auto, using(crate::proofs::SetLaws::set_of_a_bag))]
pub fn set_of_bag()
    ensures { (ds : List Datum) → as_kind Set (record { kind = Bag; elements = in_order ds }) ≡ collection Set ds }
{}

/// `excluding` after `including` leaves what `excluding` leaves, in each kind of collection.
#[tactic(auto, using(crate::proofs::MemberLaws::excluded_again))]
pub fn excluding_after_including()
    ensures { (kind : Kind) (ds : List Datum) (d e : Datum) → is_among e (without d (kept kind (ds ++ d ∷ []))) ≡ is_among e (without d ds) }
{}

/// What `select` and `reject` give of a condition, which has a value for each element, are together the elements, each as often.
pub fn select_and_reject_divide()
    ensures { (bs : List Bool) (ds : List Datum) (d : Datum) → length bs ≡ length ds → count_by (same_datum d) (items_where_true bs ds) + count_by (same_datum d) (items_where_true (map not bs) ds) ≡ count_by (same_datum d) ds }
{}
