ghost use Rattle.std.specs.Prelude.{List, ◌≡◌, ◌<◌, ◌≤◌, ◌+◌, ℕ, false, [], ◌++◌, length, map, slice_get, IfOk, OnOk};
ghost use Rattle.std.specs.Option.{option_copied};
ghost use Rattle.object_tables.specs.declared.value.Value.TheVariants.{Str, Lit};
ghost use Rattle.qvtr_semantics.specs.declared.datum.Datum.TheVariants.{Val};
ghost use Rattle.qvtr_semantics.specs.declared.out.Out.{Out};
ghost use Rattle.qvtr_semantics.specs.declared.out.Out.TheVariants.{One};
ghost use Rattle.qvtr_semantics.specs.Outs.{boolean_of};
ghost use Rattle.qvtr_semantics.specs.Expressions.{in_scope, with_collection, with_variable, chosen, each, on_collection as on_collection_of};
ghost use Rattle.qvtr_semantics.specs.Iterators.{iterated};
ghost use Rattle.ocl_eval.specs.declared.frame.Stacked.TheVariants as stacked;
ghost use Rattle.ocl_eval.specs.declared.world.World.{World};
ghost use Rattle.ocl_eval.specs.Frames.{Wanted, application, called, joined, made, iteration_result, returned, cover, standing, outcome_below, outcome_of, outcome, value_of, IsLed};
ghost use Rattle.ocl_eval.specs.Memos.{call_value, IsRemembered, IsTold};
ghost use Rattle.ocl_eval.specs.Worlds.{with_calls, queries_of, meaning_of, call_of, reached_in};

use crate::classes::{class_operation, extent};
use crate::datum::duplicate_datum;
use crate::frame::{Applied, Caller, Control, Frame, Iteration, Listed, Stacked};
use crate::integers::integer;
use crate::kinds::literal;
use crate::memo::{Memo, Remembered};
use crate::navigation::{collect_property, property_of};
use crate::on_collections::{argument, on_collection};
use crate::operations::operation;
use crate::operators::{negated, negation, operated};
use crate::outs::{boolean, boolean_of};
use crate::progress::{Progress, iterator_result};
use crate::query_call::QueryCall;
use crate::reach::Reach;
use crate::reached::Reached;
use crate::running::Running;
use crate::scope::Scope;
use crate::world::World;
use mof_metamodel::{EnumId, NoMemory, Seq};
use object_tables::Value;
use qv_syntax::{
    Call, CollectionOperation, IteratorKind, Literal, Node, Query, Typed, TypedInfix, TypedPostfix,
};
use qvtr_semantics::{Datum, Out};
use std::alloc::Global;
use std::mem;

/// An evaluation on its way. What waits for the value of a part stands on a stack of its own, so that
/// no depth of an expression or of calls of queries is paid from the stack of the program.
#[derive(Drop)]
pub(crate) struct Machine<'a, 'm, 'b> {
    pub(crate) world: World<'a, 'm>,
    pub(crate) scope: Reach<'b>,
    pub(crate) stack: Vec<Stacked<'a, 'b>>,
    /// The values of calls of queries that were made.
    pub(crate) memo: Memo,
    /// Whether a query was called since the evaluation came to the body in which it is.
    pub(crate) has_called: bool,
    /// By how many fewer calls may be left for what was found in the body: it would be the same.
    pub(crate) spare: usize,
    /// Whether a query wasn't called since no calls were left: with more of them, what was found may be another.
    pub(crate) exhausted: bool,
}

/// A String as it is written.
fn string_literal(alloc: Global, text: &Literal) -> Result<Out, NoMemory>
    ensures { IfOk result (λ out. out ≡ One (Val 0 (Str text.now))) }
{
    Ok(Out::One(Datum::Val(0, Value::Str(text.text().duplicate(alloc)?))))
}

/// The query of a number.
fn query_at<'a>(world: &World<'a, '_>, number: u32) -> Option<&'a Query>
    ensures { option_copied result ≡ slice_get world.now.program.now.queries number }
{
    world.program.queries.as_slice().get(number as usize)
}

/// A value that stands for itself.
fn own(x: Out) -> Reached
    ensures { (scope : List Out) → reached_in scope result ≡ x }
{
    Reached::Own(Running::new(x))
}

/// An operation on a value, if it is a collection, with its arguments.
fn on_value(
    alloc: Global,
    operation: CollectionOperation,
    x: Out,
    args: Seq<Out>,
) -> Result<Out, NoMemory>
    ensures { IfOk result (λ out. out ≡ with_collection x (λ c. on_collection_of operation c args)) }
{
    match x {
        Out::Many(kind, elements) => on_collection(alloc, operation, kind, elements, args),
        _ => Ok(Out::Invalid),
    }
}

/// The literal of an enumeration.
fn enum_literal(meta: u32, enumeration: EnumId, literal: u32) -> Out
    ensures { result ≡ One (Val meta (Lit enumeration literal)) }
{
    Out::One(Datum::Val(meta, Value::Lit(enumeration, literal)))
}

/// An iteration after its next element.
fn following(iteration: Iteration<'_>) -> Iteration<'_>
    requires { iteration.next < length iteration.elements }
    ensures { result ≡ record iteration.entry { next = iteration.entry.next + 1 } }
{
    let mut following = iteration;
    following.next += 1;
    following
}

impl<'a, 'm, 'b> Machine<'a, 'm, 'b> {
    /// An evaluation that begins.
    pub(crate) fn new(world: World<'a, 'm>, scope: Reach<'b>) -> Machine<'a, 'm, 'b>
        ensures world { result.world ≡ world.entry }
        ensures scope { result.scope ≡ scope.entry }
        ensures stack { result.stack.items ≡ [] }
        ensures spare { result.spare ≡ world.entry.calls }
        ensures told { (w : World) → IsTold w result.memo }
    {
        Machine {
            world,
            scope,
            stack: Vec::new(world.alloc),
            memo: Memo::new(world.alloc),
            has_called: false,
            spare: world.calls,
            exhausted: false,
        }
    }

    /// The variables in reach.
    pub(crate) fn into_scope(self) -> Result<Scope, NoMemory>
        ensures { IfOk result (λ scope. scope ≡ self.entry.scope) }
    {
        self.scope.into_scope(self.world.alloc)
    }

    /// Comes to a part, for whose value a frame waits.
    fn wait(&mut self, frame: Frame<'a>, part: &'a Typed) -> Result<Control<'a>, NoMemory>
        ensures { IfOk result (λ c. (n : ℕ) → outcome n self.new c ≡ outcome_of self.old (returned (with_calls self.old.world 0) frame.entry (standing n self.old (meaning_of (with_calls self.old.world n) part.now self.old.scope)))) }
    {
        self.stack.push(Stacked::Frame(frame))?;
        Ok(Control::Part(part))
    }

    /// Comes to calls on a part. A variable isn't copied.
    fn begin_calls(
        &mut self,
        part: &'a Typed,
        calls: &'a [TypedPostfix],
    ) -> Result<Control<'a>, NoMemory>
        ensures { IfOk result (λ c. (n : ℕ) → outcome n self.new c ≡ outcome_of self.old (standing n self.old (called (with_calls self.old.world n) self.old.scope (meaning_of (with_calls self.old.world n) part.now self.old.scope) calls.now))) }
    {
        if let Node::Variable { number } = &part.node {
            return Ok(Control::Calls(Reached::Variable(*number), calls));
        }
        self.wait(Frame::Calls(calls), part)
    }

    /// Comes to the parts of a list, behind values that stand in it already.
    fn next_in_list(
        &mut self,
        values: Seq<Out>,
        parts: &'a [Typed],
        of: Listed<'a>,
    ) -> Result<Control<'a>, NoMemory>
        ensures { IfOk result (λ c. (n : ℕ) → outcome n self.new c ≡ outcome_of self.old (standing n self.old (made (with_calls self.old.world n) self.old.scope of.entry (values ++ in_scope self.old.scope (map (meaning_of (with_calls self.old.world n)) parts.now))))) }
    {
        match parts {
            [part, rest @ ..] => self.wait(Frame::List(values, rest, of), part),
            [] => self.make(of, values),
        }
    }

    /// Makes what is to be made of a list of values.
    fn make(&mut self, of: Listed<'a>, values: Seq<Out>) -> Result<Control<'a>, NoMemory>
        ensures { IfOk result (λ c. (n : ℕ) → outcome n self.new c ≡ outcome_of self.old (standing n self.old (made (with_calls self.old.world n) self.old.scope of.entry values))) }
    {
        match of {
            Listed::Literal(kind) => Ok(Control::Value(literal(self.world.alloc, kind, values)?)),
            Listed::Query(query) => Ok(Control::Query(query, values)),
            Listed::Applied(operation, calls) => {
                let out = self.apply(operation, values)?;
                Ok(Control::Calls(out, calls))
            }
        }
    }

    /// An operation with the values of its arguments.
    fn apply(&self, applied: Applied, args: Seq<Out>) -> Result<Reached, NoMemory>
        ensures { IfOk result (λ out. reached_in self.now.scope out ≡ application self.now.scope applied args) }
    {
        let alloc = self.world.alloc;
        match applied {
            Applied::Operation(named, x) => {
                let out = operation(alloc, named, x, args.as_slice())?;
                Ok(Reached::Own(out))
            }
            Applied::Collection(named, x) => {
                let out = on_value(alloc, named, x, args)?;
                Ok(own(out))
            }
            Applied::Variable(named, number) => {
                let out = self.scope.on_collection(alloc, number, named, args)?;
                Ok(own(out))
            }
            Applied::Including(x) => {
                let out = self.scope.including(alloc, x, argument(args))?;
                Ok(Reached::Growing(out))
            }
            Applied::Union(x) => {
                let out = self.scope.union(alloc, x, argument(args))?;
                Ok(Reached::Growing(out))
            }
        }
    }

    /// Comes to a part by its form.
    fn enter(&mut self, part: &'a Typed) -> Result<Control<'a>, NoMemory>
        ensures { IfOk result (λ c. (n : ℕ) → outcome n self.new c ≡ outcome_of self.old (standing n self.old (meaning_of (with_calls self.old.world n) part.now self.old.scope))) }
    {
        let alloc = self.world.alloc;
        match &part.node {
            Node::Number { value } => Ok(Control::Value(integer(*value))),
            Node::Str { value } => Ok(Control::Value(string_literal(alloc, value)?)),
            Node::Bool { value } => Ok(Control::Value(boolean(*value))),
            Node::Null => Ok(Control::Value(Out::Null)),
            Node::Invalid => Ok(Control::Value(Out::Invalid)),
            Node::EnumLiteral {
                meta,
                enumeration,
                literal,
            } => Ok(Control::Value(enum_literal(*meta, *enumeration, *literal))),
            Node::Variable { number } => Ok(Control::Value(self.scope.variable(alloc, *number)?)),
            Node::Extent { model, class } => {
                Ok(Control::Value(extent(&self.world, *model, *class)?))
            }
            Node::Let {
                variable,
                value,
                body,
            } => self.wait(Frame::Let(*variable, body.get()), value.get()),
            Node::Chain { first, rest } => self.wait(Frame::First(rest.as_slice()), first.get()),
            Node::Not { operand } => self.wait(Frame::Not, operand.get()),
            Node::Negated { operand } => self.wait(Frame::Negated, operand.get()),
            Node::Calls { of, calls } => self.begin_calls(of.get(), calls.as_slice()),
            Node::If {
                condition,
                one,
                other,
            } => self.wait(Frame::If(one.get(), other.get()), condition.get()),
            Node::Coll { kind, elements } => {
                self.next_in_list(Seq::new(alloc), elements.as_slice(), Listed::Literal(*kind))
            }
            Node::Query { query, args } => {
                self.next_in_list(Seq::new(alloc), args.as_slice(), Listed::Query(*query))
            }
        }
    }

    /// Makes the calls on what was reached, the first of them now.
    fn make_calls(&mut self, x: Reached, calls: &'a [TypedPostfix]) -> Result<Control<'a>, NoMemory>
        ensures { IfOk result (λ c. (n : ℕ) → outcome n self.new c ≡ outcome_of self.old (standing n self.old (called (with_calls self.old.world n) self.old.scope (reached_in self.old.scope x) calls.now))) }
    {
        match calls {
            [call, rest @ ..] => self.make_call(x, &call.call, rest),
            [] => Ok(Control::Value(self.scope.taken(self.world.alloc, x)?)),
        }
    }

    /// Makes a call on what was reached, and then others.
    fn make_call(
        &mut self,
        x: Reached,
        call: &'a Call,
        calls: &'a [TypedPostfix],
    ) -> Result<Control<'a>, NoMemory>
        ensures { IfOk result (λ c. (n : ℕ) → outcome n self.new c ≡ outcome_of self.old (standing n self.old (called (with_calls self.old.world n) self.old.scope (call_of (with_calls self.old.world n) call.now self.old.scope (reached_in self.old.scope x)) calls.now))) }
    {
        let alloc = self.world.alloc;
        match call {
            Call::Collection { operation, args } => {
                let applied = self.on_collection(*operation, x)?;
                let of = Listed::Applied(applied, calls);
                self.next_in_list(Seq::new(alloc), args.as_slice(), of)
            }
            Call::Operation { operation, args } => {
                let x = self.running(x)?;
                let of = Listed::Applied(Applied::Operation(*operation, x), calls);
                self.next_in_list(Seq::new(alloc), args.as_slice(), of)
            }
            Call::Iterator {
                iterator,
                variable,
                body,
            } => {
                let x = self.scope.taken(alloc, x)?;
                self.iterate(x, *iterator, *variable, body.get(), calls)
            }
            Call::Property { prop, values } => {
                let x = self.scope.taken(alloc, x)?;
                let out = property_of(&self.world, *prop, *values, &x)?;
                Ok(Control::Calls(own(out), calls))
            }
            Call::CollectProperty { prop, values } => {
                let x = self.scope.taken(alloc, x)?;
                let out = collect_property(&self.world, *prop, *values, x)?;
                Ok(Control::Calls(own(out), calls))
            }
            Call::Class { operation, class } => {
                let x = self.scope.taken(alloc, x)?;
                let out = class_operation(&self.world, *operation, *class, x);
                Ok(Control::Calls(own(out), calls))
            }
        }
    }

    /// An operation on a collection that was reached. A variable's isn't copied, and one to which more is brought waits.
    fn on_collection(&self, operation: CollectionOperation, x: Reached) -> Result<Applied, NoMemory>
        ensures { IfOk result (λ applied. (args : List Out) → application self.now.scope applied args ≡ with_collection (reached_in self.now.scope x) (λ c. on_collection_of operation c args)) }
    {
        match operation {
            CollectionOperation::Including => Ok(Applied::Including(x)),
            CollectionOperation::Union => Ok(Applied::Union(x)),
            _ => match x {
                Reached::Variable(number) => Ok(Applied::Variable(operation, number)),
                _ => Ok(Applied::Collection(operation, self.scope.taken(self.world.alloc, x)?)),
            },
        }
    }

    /// The value that was reached, to which `+` or `concat` may add more.
    fn running(&self, x: Reached) -> Result<Running, NoMemory>
        ensures { IfOk result (λ out. out ≡ reached_in self.now.scope x) }
    {
        match x {
            Reached::Own(x) => Ok(x),
            _ => Ok(Running::new(self.scope.taken(self.world.alloc, x)?)),
        }
    }

    /// Begins an iterator over the elements of a collection.
    fn iterate(
        &mut self,
        x: Out,
        iterator: IteratorKind,
        variable: u32,
        body: &'a Typed,
        calls: &'a [TypedPostfix],
    ) -> Result<Control<'a>, NoMemory>
        ensures { IfOk result (λ c. (n : ℕ) → outcome n self.new c ≡ outcome_of self.old (standing n self.old (called (with_calls self.old.world n) self.old.scope (with_collection x (λ c. iterated iterator c (each self.old.scope variable (meaning_of (with_calls self.old.world n) body.now) c.elements))) calls.now))) }
    {
        match x {
            Out::Many(kind, elements) => {
                let behind = self.scope.cut(self.world.alloc, variable)?;
                let begun = Progress::new(self.world.alloc, iterator);
                let iteration = Iteration {
                    iterator,
                    kind,
                    elements,
                    next: 0,
                    body,
                    behind,
                    calls,
                };
                self.next_element(iteration, begun)
            }
            _ => Ok(Control::Calls(own(Out::Invalid), calls)),
        }
    }

    /// Comes to the body of an iterator for its next element, or to what it gives in the end.
    fn next_element(
        &mut self,
        iteration: Iteration<'a>,
        progress: Progress,
    ) -> Result<Control<'a>, NoMemory>
        ensures { IfOk result (λ c. (n : ℕ) → outcome n self.new c ≡ outcome_of self.old (record { cover = cover n self.old; scope = self.old.scope ++ iteration.entry.behind.items; out = iteration_result (with_calls self.old.world n) self.old.scope iteration.entry progress })) }
    {
        match iteration.elements.as_slice().get(iteration.next) {
            Some(element) => {
                let value = Out::One(duplicate_datum(self.world.alloc, element)?);
                self.scope.enter(value)?;
                let body = iteration.body;
                self.wait(Frame::Element(following(iteration), progress), body)
            }
            None => self.end_iteration(iteration, progress),
        }
    }

    /// What an iterator gives behind its last element.
    fn end_iteration(
        &mut self,
        iteration: Iteration<'a>,
        progress: Progress,
    ) -> Result<Control<'a>, NoMemory>
        requires { length iteration.elements ≤ iteration.next }
        ensures { IfOk result (λ c. (n : ℕ) → outcome n self.new c ≡ outcome_of self.old (record { cover = cover n self.old; scope = self.old.scope ++ iteration.entry.behind.items; out = iteration_result (with_calls self.old.world n) self.old.scope iteration.entry progress })) }
    {
        let Iteration {
            iterator,
            kind,
            elements,
            next: _,
            body: _,
            behind,
            calls,
        } = iteration;
        self.scope.extend(behind)?;
        let out = iterator_result(self.world.alloc, iterator, kind, elements, progress)?;
        Ok(Control::Calls(own(out), calls))
    }

    /// Comes to the operators with the parts behind them, on the value before them.
    fn next_operator(
        &mut self,
        x: Running,
        links: &'a [TypedInfix],
    ) -> Result<Control<'a>, NoMemory>
        ensures { IfOk result (λ c. (n : ℕ) → outcome n self.new c ≡ outcome_of self.old (standing n self.old (joined (with_calls self.old.world n) self.old.scope x links.now))) }
    {
        match links {
            [link, rest @ ..] => self.wait(Frame::Right(link.operator, x, rest), &link.right),
            [] => Ok(Control::Value(x.into_out())),
        }
    }

    /// Comes to a branch of an `if`: the other isn't looked at.
    fn choose(&self, condition: &Out, one: &'a Typed, other: &'a Typed) -> Control<'a>
        ensures { (n : ℕ) → value_of (with_calls self.now.world n) self.now.scope result ≡ chosen (boolean_of condition.now) (meaning_of (with_calls self.now.world n) one.now self.now.scope) (meaning_of (with_calls self.now.world n) other.now self.now.scope) }
    {
        match boolean_of(condition) {
            Some(true) => Control::Part(one),
            Some(false) => Control::Part(other),
            None => Control::Value(Out::Invalid),
        }
    }

    /// Comes to the body of a `let`.
    fn enter_let(
        &mut self,
        variable: u32,
        value: Out,
        body: &'a Typed,
    ) -> Result<Control<'a>, NoMemory>
        ensures { IfOk result (λ c. (n : ℕ) → outcome n self.new c ≡ outcome_of self.old (standing n self.old (meaning_of (with_calls self.old.world n) body.now (with_variable self.old.scope variable value)))) }
    {
        let behind = self.scope.cut(self.world.alloc, variable)?;
        self.scope.enter(value)?;
        self.wait(Frame::Body(behind), body)
    }

    /// Gives the value of a part to the frame that waits for it.
    fn resume(&mut self, frame: Frame<'a>, out: Out) -> Result<Control<'a>, NoMemory>
        ensures { IfOk result (λ c. (n : ℕ) → outcome n self.new c ≡ outcome_of self.old (returned (with_calls self.old.world 0) frame.entry (standing n self.old out))) }
    {
        match frame {
            Frame::Not => Ok(Control::Value(negation(&out))),
            Frame::Negated => Ok(Control::Value(negated(&out))),
            Frame::If(one, other) => Ok(self.choose(&out, one, other)),
            Frame::Let(variable, body) => self.enter_let(variable, out, body),
            Frame::Body(behind) => {
                self.scope.leave();
                self.scope.extend(behind)?;
                Ok(Control::Value(out))
            }
            Frame::First(links) => self.next_operator(Running::new(out), links),
            Frame::Right(operator, x, links) => {
                let x = operated(operator, x, &out)?;
                self.next_operator(x, links)
            }
            Frame::Calls(calls) => Ok(Control::Calls(own(out), calls)),
            Frame::List(values, parts, of) => {
                let mut values = values;
                values.push(out)?;
                self.next_in_list(values, parts, of)
            }
            Frame::Element(iteration, progress) => {
                self.scope.leave();
                let progress = progress.advanced(out)?;
                self.next_element(iteration, progress)
            }
        }
    }

    /// Comes to the value of a call of a query, or to its body with these values of its parameters.
    fn call_query(&mut self, query: u32, args: Seq<Out>) -> Result<Control<'a>, NoMemory>
        ensures { IfOk result (λ c. (w : World) (wanted : Wanted) → IsLed w wanted (λ n. outcome_of self.old (standing n self.old (queries_of (with_calls self.old.world n) query args))) → IsLed w wanted (λ n. outcome n self.new c)) }
    {
        let call = QueryCall { query, args };
        let calls = self.world.calls;
        self.has_called = true;
        match self.memo.value(self.world.alloc, &call, calls)? {
            Some(kept) => {
                let Remembered { out, least } = kept;
                self.spare = self.spare.min(calls - least);
                Ok(Control::Value(out))
            }
            None => self.enter_query(call),
        }
    }

    /// Comes to the body of a query.
    fn enter_query(&mut self, call: QueryCall) -> Result<Control<'a>, NoMemory>
        ensures { IfOk result (λ c. (w : World) (wanted : Wanted) → IsLed w wanted (λ n. outcome_of self.old (standing n self.old (call_value self.old.world n call))) → IsLed w wanted (λ n. outcome n self.new c)) }
    {
        let QueryCall { query, args } = call;
        let calls = self.world.calls;
        if calls == 0 {
            self.spare = 0;
            self.exhausted = true;
            return Ok(Control::Value(Out::Invalid));
        }
        match query_at(&self.world, query) {
            Some(called) => {
                let scope = mem::replace(&mut self.scope, Reach::of(Scope::new(args)));
                let caller = Caller {
                    query,
                    calls,
                    spare: self.spare,
                    scope,
                };
                self.world.calls = calls - 1;
                self.spare = calls - 1;
                self.has_called = false;
                self.stack.push(Stacked::Caller(caller))?;
                Ok(Control::Part(&called.body))
            }
            None => Ok(Control::Value(Out::Invalid)),
        }
    }

    /// Gives the value of a query to its caller. It is remembered where the query calls others.
    fn leave_query(&mut self, caller: Caller<'b>, out: Out) -> Result<Control<'a>, NoMemory>
        ensures { IfOk result (λ c. (w : World) (wanted : Wanted) → IsLed w wanted (λ n. outcome_below (with_calls self.old.world 0) self.old.memo self.old.stack.items (stacked.Caller caller.entry) (standing n self.old out)) → IsLed w wanted (λ n. outcome n self.new c)) }
    {
        let Caller {
            query,
            calls,
            spare,
            scope,
        } = caller;
        let parameters = mem::replace(&mut self.scope, scope);
        let least = calls.saturating_sub(self.spare);
        self.world.calls = calls;
        self.spare = spare.min(self.spare);
        if self.has_called {
            return self.remember_value(query, parameters, out, least);
        }
        self.has_called = true;
        Ok(Control::Value(out))
    }

    /// Remembers the value of a call, whose arguments are the values of the parameters, where it is that with more calls too.
    fn remember_value(
        &mut self,
        query: u32,
        parameters: Reach<'b>,
        out: Out,
        least: usize,
    ) -> Result<Control<'a>, NoMemory>
        ensures { IfOk result (λ c. (w : World) (wanted : Wanted) → IsLed w wanted (λ n. outcome_of self.old (standing n self.old out)) → (self.old.exhausted ≡ false → IsRemembered w (record { query = query; args = parameters.entry }) (record { out = out; least = least })) → IsLed w wanted (λ n. outcome n self.new c)) }
    {
        if self.exhausted {
            return Ok(Control::Value(out));
        }
        let args = parameters.into_args(self.world.alloc)?;
        let call = QueryCall { query, args };
        self.memo.remember(self.world.alloc, call, &out, least)?;
        Ok(Control::Value(out))
    }

    /// Gives a value to what waits for it.
    fn hand_on(&mut self, top: Stacked<'a, 'b>, out: Out) -> Result<Control<'a>, NoMemory>
        ensures { IfOk result (λ c. (w : World) (wanted : Wanted) → IsLed w wanted (λ n. outcome_below (with_calls self.old.world 0) self.old.memo self.old.stack.items top.entry (standing n self.old out)) → IsLed w wanted (λ n. outcome n self.new c)) }
    {
        match top {
            Stacked::Frame(frame) => self.resume(frame, out),
            Stacked::Caller(caller) => self.leave_query(caller, out),
        }
    }

    /// The value of a part. Want of memory after 2^64 steps, which no one waits for.
    pub(crate) fn run(&mut self, part: &'a Typed) -> Result<Out, NoMemory>
        requires stack { self.old.stack.items ≡ [] }
        requires told { IsTold self.old.world self.old.memo }
        ensures value { IfOk result (λ out. out ≡ meaning_of self.old.world part.now self.old.scope) }
        ensures scope { OnOk result (self.new.scope ≡ self.old.scope) }
    {
        let mut control = Control::Part(part);
        for _ in 0..u64::MAX {
            control = match control {
                Control::Part(part) => self.enter(part)?,
                Control::Calls(x, calls) => self.make_calls(x, calls)?,
                Control::Query(query, args) => self.call_query(query, args)?,
                Control::Value(out) => match self.stack.pop() {
                    Some(top) => self.hand_on(top, out)?,
                    None => return Ok(out),
                },
            };
        }
        Err(NoMemory)
    }
}
