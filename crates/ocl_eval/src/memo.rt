ghost use Rattle.std.specs.Prelude.{◌≡◌, ◌≤◌, Some, IfOk, IfSome};
ghost use Rattle.std.specs.BTreeMap.{get};
ghost use Rattle.ocl_eval.specs.declared.world.World.{World};
ghost use Rattle.ocl_eval.specs.Memos.{IsRemembered, IsTold};
ghost use Rattle.ocl_eval.specs.QueryOrder.{call_order};

use crate::datum::duplicate_out;
use crate::query_call::QueryCall;
use mof_metamodel::NoMemory;
use object_tables::Value;
use qvtr_semantics::{Datum, Out};
use std::alloc::Global;
use std::collections::BTreeMap;

/// The greatest weight of what is remembered. A value, and an argument of its call, weighs as much as it has data and
/// bytes of Strings, and 16 beside them for each call: so there are at most 65,536.
const MAX_REMEMBERED: usize = 1 << 20;

/// The greatest number of bytes of a String that is an argument of a call that is remembered.
const MAX_SHORT: usize = 64;

/// The value of a call of a query.
#[derive(Drop)]
pub(crate) struct Remembered {
    pub(crate) out: Out,
    /// With how few calls of queries left, that of this one among them, it is found as well.
    pub(crate) least: usize,
}

/// Values of calls of queries in one evaluation. A look-up takes the logarithm of their number.
#[derive(Drop)]
pub(crate) struct Memo {
    values: BTreeMap<QueryCall, Remembered>,
    weight: usize,
}

/// How much of the memory a datum takes, as it is counted here.
fn datum_weight(datum: &Datum) -> usize {
    match datum {
        Datum::Val(_, Value::Str(text)) => text.as_str().len().saturating_add(1),
        _ => 1,
    }
}

fn data_weight(data: &[Datum]) -> usize {
    let mut weight = 0usize;
    for datum in data {
        weight = weight.saturating_add(datum_weight(datum));
    }
    weight
}

/// How much of the memory a value takes, as it is counted here.
fn weight_of(out: &Out) -> usize {
    match out {
        Out::One(datum) => datum_weight(datum),
        Out::Many(_, data) => data_weight(data.as_slice()),
        Out::Null => 0,
        Out::Invalid => 0,
    }
}

/// How much of the memory a call takes, as it is counted here.
fn call_weight(call: &QueryCall) -> usize {
    let mut weight = 16usize;
    for argument in call.args.as_slice() {
        weight = weight.saturating_add(weight_of(argument));
    }
    weight
}

/// Whether an argument is looked up in a step: it is neither a long String nor a collection.
fn is_short(argument: &Out) -> bool {
    match argument {
        Out::One(Datum::Val(_, Value::Str(text))) => text.as_str().len() <= MAX_SHORT,
        Out::Many(..) => false,
        _ => true,
    }
}

fn are_short(args: &[Out]) -> bool {
    args.iter().all(is_short)
}

impl Memo {
    /// Without values. It takes no memory.
    pub(crate) fn new(alloc: Global) -> Memo
        ensures { (w : World) → IsTold w result }
    {
        Memo {
            values: BTreeMap::new(alloc),
            weight: 0,
        }
    }

    /// The value of a call, if it is remembered and so many calls are as many as it needs.
    pub(crate) fn value(
        &self,
        alloc: Global,
        call: &QueryCall,
        calls: usize,
    ) -> Result<Option<Remembered>, NoMemory>
        ensures enough { IfOk result (λ found. IfSome found (λ kept. kept.least ≤ calls)) }
        ensures kept { IfOk result (λ found. IfSome found (λ kept. get call_order self.now.values call.now ≡ Some kept)) }
    {
        match self.values.get(call) {
            Some(kept) => if kept.least <= calls {
                let out = duplicate_out(alloc, &kept.out)?;
                let least = kept.least;
                Ok(Some(Remembered { out, least }))
            } else {
                Ok(None)
            },
            None => Ok(None),
        }
    }

    /// Remembers the value of a call, if none of its arguments is a long String or a collection. Where there is no room for it, all
    /// others are forgotten.
    pub(crate) fn remember(
        &mut self,
        alloc: Global,
        call: QueryCall,
        out: &Out,
        least: usize,
    ) -> Result<(), NoMemory>
        ensures { (w : World) → IsTold w self.old → IsRemembered w call (record { out = out.now; least = least }) → IsTold w self.new }
    {
        let weight = weight_of(out).saturating_add(call_weight(&call));
        if weight > MAX_REMEMBERED || !are_short(call.args.as_slice()) {
            return Ok(());
        }
        self.make_room(alloc, weight);
        let out = duplicate_out(alloc, out)?;
        self.values.insert(call, Remembered { out, least })?;
        Ok(())
    }

    /// Counts a value that is to be remembered, and forgets all others where there is no room for it.
    fn make_room(&mut self, alloc: Global, weight: usize)
        ensures { (w : World) → IsTold w self.old → IsTold w self.new }
    {
        self.weight = self.weight.saturating_add(weight);
        if self.weight > MAX_REMEMBERED {
            self.values = BTreeMap::new(alloc);
            self.weight = weight;
        }
    }
}
