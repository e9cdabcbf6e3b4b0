ghost use Rattle.std.specs.Prelude.{◌≡◌, ◌<◌, map, length, All};
ghost use Rattle.std.specs.List.{dedup};
ghost use Rattle.std.specs.List.Sorted.{IsPermutation, IsSorted};
ghost use Rattle.std.specs.Ordering.{eq_by_cmp};
ghost use Rattle.std.specs.Option.{option_cmp, option_map};
ghost use Rattle.repair_semantics.specs.Terms.{term_order, value_order, each_once};
ghost use Rattle.repair_semantics.specs.EntryOrder.{values_order};
ghost use Rattle.term_table.specs.TermTables.{term_at, value_in, values_in};
ghost use Rattle.term_table.specs.Sorting.{number_order};

use crate::comparing::ended;
use crate::numbered::NumberedValue;
use crate::table::TermTable;
use mof_metamodel::Seq;
use std::cmp::Ordering;

impl TermTable {
    /// How the values of two variables stand; none comes before each value.
    fn optional_order(&self, one: &Option<NumberedValue>, other: &Option<NumberedValue>) -> Ordering
        ensures { result ≡ option_cmp value_order (option_map (value_in self.now) one.now) (option_map (value_in self.now) other.now) }
    {
        match one {
            Some(v) => match other {
                Some(w) => self.value_order(v, w),
                None => Ordering::Greater,
            },
            None => match other {
                Some(_) => Ordering::Less,
                None => Ordering::Equal,
            },
        }
    }

    /// How two lists of values of variables stand, place by place.
    pub fn values_order(
        &self,
        ones: &[Option<NumberedValue>],
        others: &[Option<NumberedValue>],
    ) -> Ordering
        ensures { result ≡ values_order (values_in self.now ones.now) (values_in self.now others.now) }
    {
        for (place, one) in ones.iter().enumerate() {
            let Some(other) = others.get(place) else {
                return Ordering::Greater;
            };
            let order = self.optional_order(one, other);
            if order.is_ne() {
                return order;
            }
        }
        ended(ones.len(), others.len())
    }

    /// The numbers in the order of their terms.
    fn in_order(&self, numbers: Seq<usize>) -> Seq<usize>
        ensures same { IsPermutation numbers result }
        ensures sorted { IsSorted (number_order self.now) result }
    {
        let mut numbers = numbers.into_vec();
        numbers.sort_unstable_by(|m, n| self.order(*m, *n));
        Seq::from_vec(numbers)
    }

    /// Of neighbours with one term the first.
    fn without_neighbours(&self, numbers: Seq<usize>) -> Seq<usize>
        ensures { result ≡ dedup (λ m n. eq_by_cmp (number_order self.now) m n) numbers }
    {
        let mut numbers = numbers.into_vec();
        numbers.dedup_by(|later, kept| self.order(*later, *kept).is_eq());
        Seq::from_vec(numbers)
    }

    /// The numbers in the order of their terms, each once. It takes no memory.
    pub fn sorted(&self, numbers: Seq<usize>) -> Seq<usize>
        requires { All (λ n. n < length self.now) numbers }
        ensures terms { map (term_at self.now) result ≡ each_once term_order (map (term_at self.now) numbers) }
        ensures within { All (λ n. n < length self.now) result }
    {
        self.without_neighbours(self.in_order(numbers))
    }
}
