ghost use Rattle.std.specs.Prelude.{◌≡◌, ◌≤◌, ◌<◌, List, None, Some, IfSome, OnOk, OnErr};
ghost use Rattle.std.specs.Ordering.{nat_cmp};
ghost use Rattle.std.specs.BTreeMap.{get, IsUnchanged, Updates};
ghost use Rattle.object_tables.specs.Models.{ModelData};
ghost use Rattle.qv_syntax.specs.declared.program.Program.{Program};
ghost use Rattle.relation_calls.specs.declared.memo.Answer.{Answer};
ghost use Rattle.relation_calls.specs.CallOrder.{call_order};
ghost use Rattle.relation_calls.specs.Calm.{IsHeightOf};
ghost use Rattle.relation_calls.specs.Tables.{IsTable};
ghost use Rattle.relation_calls.specs.Memos.{IsMatching, IsHolding, IsTold, both_hold, one_holds};

use crate::call_key::CallKey;
use mof_metamodel::NoMemory;
use std::alloc::Global;
use std::collections::BTreeMap;
use template_match::MatchTable;

/// Whether calls of a clause hold, and how many calls a chain has at most that begins with one of them: a chain
/// of calls in where clauses. Calls in a when clause hold where they match, and begin none.
#[derive(Clone, Copy)]
pub(crate) struct Answer {
    pub(crate) holds: bool,
    pub(crate) height: usize,
}

impl Answer {
    /// Whether both hold.
    pub(crate) fn and(self, other: Answer) -> Answer
        ensures { result ≡ both_hold self other }
    {
        Answer {
            holds: self.holds & other.holds,
            height: self.height.max(other.height),
        }
    }

    /// Whether one of them holds.
    pub(crate) fn or(self, other: Answer) -> Answer
        ensures { result ≡ one_holds self other }
    {
        Answer {
            holds: self.holds | other.holds,
            height: self.height.max(other.height),
        }
    }
}

/// Answers to calls of one program over one state of its models: whether a call that was asked for a match
/// matches, and whether one in a where clause holds. It also keeps which relations are calm, and tables of
/// the matches of some. A look-up takes the logarithm of their number.
#[derive(Drop)]
pub struct Memo {
    matching: BTreeMap<CallKey, bool>,
    holding: BTreeMap<CallKey, Answer>,
    /// Of a relation a number of calls that its chains don't exceed, none where none is known.
    heights: BTreeMap<u32, Option<usize>>,
    /// Of a relation the table of its matches, none where it was given up.
    tables: BTreeMap<u32, Option<MatchTable>>,
}

impl Memo {
    /// Without answers. It takes no memory.
    pub fn new(alloc: Global) -> Memo
        ensures { (program : Program) (models : List ModelData) → IsTold program models result }
    {
        Memo {
            matching: BTreeMap::new(alloc),
            holding: BTreeMap::new(alloc),
            heights: BTreeMap::new(alloc),
            tables: BTreeMap::new(alloc),
        }
    }

    /// Whether the call matches, if an answer is kept.
    pub(crate) fn kept_match(&self, call: &CallKey) -> Option<bool>
        ensures { result ≡ get call_order self.now.matching call.now }
    {
        match self.matching.get(call) {
            Some(one) => Some(*one),
            None => None,
        }
    }

    /// Keeps whether the call matches.
    pub(crate) fn keep_match(&mut self, call: CallKey, one: bool) -> Result<(), NoMemory>
        ensures kept { OnOk result (Updates call_order self.old.matching self.new.matching call (Some one)) }
        ensures unchanged { OnErr result (IsUnchanged self.old.matching self.new.matching) }
        ensures told { (program : Program) (models : List ModelData) → IsTold program models self.old → IsMatching program models call one → IsTold program models self.new }
    {
        self.matching.insert(call, one)?;
        Ok(())
    }

    /// Whether the call holds, if an answer is kept by which no chain that begins with the call has more
    /// than `left` calls.
    pub(crate) fn kept_hold(&self, call: &CallKey, left: usize) -> Option<Answer>
        ensures kept { IfSome result (λ answer. (answer.height ≤ left) × (get call_order self.now.holding call.now ≡ Some answer)) }
        ensures none { result ≡ None → (answer : Answer) → get call_order self.now.holding call.now ≡ Some answer → left < answer.height }
    {
        match self.holding.get(call) {
            Some(answer) => if answer.height <= left {
                Some(*answer)
            } else {
                None
            },
            None => None,
        }
    }

    /// Keeps whether the call holds.
    pub(crate) fn keep_hold(&mut self, call: CallKey, answer: Answer) -> Result<(), NoMemory>
        ensures kept { OnOk result (Updates call_order self.old.holding self.new.holding call (Some answer)) }
        ensures unchanged { OnErr result (IsUnchanged self.old.holding self.new.holding) }
        ensures told { (program : Program) (models : List ModelData) → IsTold program models self.old → IsHolding program models call answer → IsTold program models self.new }
    {
        self.holding.insert(call, answer)?;
        Ok(())
    }

    /// A number of calls that the chains of the relation don't exceed, or that none is known, if that is
    /// kept.
    pub(crate) fn kept_height(&self, number: u32) -> Option<Option<usize>>
        ensures { result ≡ get nat_cmp self.now.heights number }
    {
        match self.heights.get(&number) {
            Some(height) => Some(*height),
            None => None,
        }
    }

    /// Keeps a number of calls that the chains of the relation don't exceed, or that none is known.
    pub(crate) fn keep_height(&mut self, number: u32, height: Option<usize>) -> Result<(), NoMemory>
        ensures told { (program : Program) (models : List ModelData) → IsTold program models self.old → IsHeightOf program number height → IsTold program models self.new }
    {
        self.heights.insert(number, height)?;
        Ok(())
    }

    /// Whether a table of the relation's matches was made or given up.
    pub(crate) fn has_table(&self, number: u32) -> bool {
        self.tables.contains_key(&number)
    }

    /// The table of the relation's matches, if one is kept.
    pub(crate) fn table(&self, number: u32) -> Option<&MatchTable>
        ensures { IfSome result (λ table. get nat_cmp self.now.tables number ≡ Some (Some table.now)) }
    {
        match self.tables.get(&number) {
            Some(table) => table.as_ref(),
            None => None,
        }
    }

    /// Keeps the table of the relation's matches, or that it was given up.
    pub(crate) fn keep_table(
        &mut self,
        number: u32,
        table: Option<MatchTable>,
    ) -> Result<(), NoMemory>
        ensures told { (program : Program) (models : List ModelData) → IsTold program models self.old → IsTable program models number table → IsTold program models self.new }
    {
        self.tables.insert(number, table)?;
        Ok(())
    }
}
