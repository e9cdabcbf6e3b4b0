ghost use Rattle.std.specs.Prelude.{◌≡◌, ◌<◌, ◌++◌, ◌∷◌, ℕ, [], map, length, Some, All, IfOk, OnOk, OnErr};
ghost use Rattle.std.specs.BTreeMap.{IsUnchanged, Updates};
ghost use Rattle.repair_semantics.specs.Terms.{term_order, value_order, height};
ghost use Rattle.term_table.specs.TermTables.{keyed, term_at, value_in, IsBelow, IsWithin, IsNumberOf, AreDistinct, with_term, IsGrown};
ghost use Rattle.term_table.specs.NumberOrder.{numbered_term_order};
ghost use Rattle.term_table.specs.Kept.{tree_in};

use crate::comparing::{Compared, order_of, values_compared};
use crate::kept::{Kept, kept_of};
use crate::numbered::{NumberedTerm, NumberedValue};
use crate::trees::{tree_of, value_of};
use mof_metamodel::{ClassId, NoMemory, Seq};
use repair_semantics::{Term, TermValue};
use std::alloc::Global;
use std::cmp::Ordering;
use std::collections::BTreeMap;
use std::marker::Model;

/// Terms, each once, by their numbers. Contracts see it as the list of its terms. They are looked up in an order, so that no choice of
/// their key values makes that slow.
#[derive(Drop)]
pub struct TermTable {
    kept: Vec<Kept>,
    numbers: BTreeMap<NumberedTerm, usize>,
}

impl Model for TermTable {
    ghost use Rattle.std.specs.Prelude.{List};
    ghost use Rattle.std.specs.Coded.{coded_list};
    ghost use Rattle.repair_semantics.specs.declared.term.Term.{Term};
    ghost use Rattle.repair_semantics.specs.contracts.term.Term as term;

    ghost Value = { List Term };

    ghost coded = { coded_list term.the_row.coded };

    ghost use Rattle.term_table.specs.Kept.{trees, IsTable};

    ghost view = { λ t. trees t.kept.items };

    ghost invariant = { λ t. IsTable t.kept.items t.numbers.entries };
}

impl TermTable {
    /// A table without terms. It takes no memory until a term is interned.
    pub fn new(alloc: Global) -> TermTable
        ensures { result ≡ [] }
    {
        TermTable {
            kept: Vec::new(alloc),
            numbers: BTreeMap::new(alloc),
        }
    }

    /// How many terms there are.
    pub fn len(&self) -> usize
        ensures len { result ≡ length self.now }
        ensures distinct { AreDistinct self.now }
    {
        self.kept.len()
    }

    /// The number of the term with this class and these key values, which it gets if it isn't there. After `NoMemory` the table is as it
    /// was. It takes the logarithm of the number of terms, and a copy of the key values for a new one.
    pub fn intern(
        &mut self,
        alloc: Global,
        class: ClassId,
        keys: Seq<NumberedValue>,
    ) -> Result<usize, NoMemory>
        requires { All (IsWithin self.old) keys }
        ensures number { IfOk result (λ n. IsNumberOf self.new n (keyed class (map (value_in self.old) keys))) }
        ensures table { OnOk result (self.new ≡ with_term self.old (keyed class (map (value_in self.old) keys))) }
        ensures err { OnErr result (self.new ≡ self.old) }
        ensures grown { IsGrown self.old self.new }
    {
        let term = NumberedTerm { class, keys };
        match self.numbers.get(&term).copied() {
            Some(number) => Ok(number),
            None => self.add(alloc, term),
        }
    }

    /// Puts a term behind the others that isn't among them.
    fn add(&mut self, alloc: Global, term: NumberedTerm) -> Result<usize, NoMemory>
        requires within { All (IsWithin self.old) term.keys }
        requires absent { (n : ℕ) → IsNumberOf self.old n (tree_in self.old term) → ⊥ }
        ensures number { IfOk result (λ n. n ≡ length self.old) }
        ensures table { OnOk result (self.new ≡ self.old ++ tree_in self.old term ∷ []) }
        ensures err { OnErr result (self.new ≡ self.old) }
    {
        let one = kept_of(alloc, self.kept.as_slice(), &term)?;
        keep(&mut self.kept, &mut self.numbers, one, term)
    }

    /// The class and the key values of a term. The numbers of the terms among these are less than its own.
    pub fn at(&self, number: usize) -> &NumberedTerm
        requires { number < length self.now }
        ensures below { All (IsBelow number) result.now.keys }
        ensures term { keyed result.now.class (map (value_in self.now) result.now.keys) ≡ term_at self.now number }
    {
        &self.kept[number].term
    }

    /// The height of a term. It is kept.
    pub fn height(&self, number: usize) -> usize
        requires { number < length self.now }
        ensures { result ≡ height (term_at self.now number) }
    {
        self.kept[number].height
    }

    /// A term as a tree, with a stack as deep as it is high.
    pub fn term(&self, alloc: Global, number: usize) -> Result<Term, NoMemory>
        requires { number < length self.now }
        ensures { IfOk result (λ t. t ≡ term_at self.now number) }
    {
        tree_of(alloc, self.kept.as_slice(), number)
    }

    /// A value with its term as a tree.
    pub fn value(&self, alloc: Global, value: &NumberedValue) -> Result<TermValue, NoMemory>
        requires { IsWithin self.now value.now }
        ensures { IfOk result (λ x. x ≡ value_in self.now value.now) }
    {
        value_of(alloc, self.kept.as_slice(), self.kept.len(), value)
    }

    /// How two terms stand in the order of terms. It goes down one path of their key values, and not where they have one number.
    pub fn order(&self, one: usize, other: usize) -> Ordering
        ensures { result ≡ term_order (term_at self.now one) (term_at self.now other) }
    {
        order_of(self.kept.as_slice(), one, other)
    }

    /// How two values stand in the order of values.
    pub fn value_order(&self, one: &NumberedValue, other: &NumberedValue) -> Ordering
        ensures { result ≡ value_order (value_in self.now one.now) (value_in self.now other.now) }
    {
        match values_compared(one, other) {
            Compared::Decided(order) => order,
            Compared::As(m, n) => self.order(m, n),
        }
    }
}

/// Puts a term behind the others, with its number. After `NoMemory` both are as they were.
fn keep(
    kept: &mut Vec<Kept>,
    numbers: &mut BTreeMap<NumberedTerm, usize>,
    one: Kept,
    term: NumberedTerm,
) -> Result<usize, NoMemory>
    ensures number { IfOk result (λ n. n ≡ length kept.old.items) }
    ensures kept { OnOk result (kept.new.items ≡ kept.old.items ++ one ∷ []) }
    ensures numbers { OnOk result (Updates numbered_term_order numbers.old numbers.new term (Some (length kept.old.items))) }
    ensures same_kept { OnErr result (kept.new.items ≡ kept.old.items) }
    ensures same_numbers { OnErr result (IsUnchanged numbers.old numbers.new) }
{
    let number = kept.len();
    kept.push(one)?;
    match numbers.insert(term, number) {
        Ok(_) => Ok(number),
        Err(_) => {
            kept.pop();
            Err(NoMemory)
        }
    }
}
