ghost use Rattle.std.specs.Prelude.{◌≡◌, ◌+◌, ◌<◌, [], length, position, false, is_some, IfSome, OnOk, OnErr};
ghost use Rattle.std.specs.Option.{option_map};
ghost use Rattle.mof_metamodel.specs.Metamodels.{same_name};
ghost use Rattle.ocl_environments.specs.Environments.{number_of, value_of, is_bound as bound};
ghost use Rattle.ocl_environments.specs.Scopes.{in_reach, entered, left};

use crate::env::Env;
use crate::limits::MAX_NUMBERED;
use crate::variable::Variable;
use mof_metamodel::{NoMemory, Seq, Text};
use std::alloc::Global;
use std::marker::Model;

/// The names in reach while an expression is typed: those of an environment, and the lets and iterator variables in
/// force. Contracts see both.
#[derive(Drop)]
pub struct Scope<'e> {
    env: &'e Env<'e>,
    locals: Seq<(Text, Variable)>,
}

impl<'e> Model for Scope<'e> {
    ghost use Rattle.std.specs.Prelude.{◌+◌, ◌≤◌, length};
    ghost use Rattle.std.specs.Coded.{codes};
    ghost use Rattle.qv_syntax.specs.contracts.ty.Ty as ty;
    ghost use Rattle.ocl_environments.specs.Environments.{most};
    ghost use Rattle.ocl_environments.specs.Scopes.{Reach};

    ghost Value = { Reach };

    ghost coded = { Prim.hlevel (codes, ty.the_row.coded) };

    ghost view = { λ s. record { outer = s.env.now; locals = s.locals } };

    ghost invariant = { λ s. length s.env.now.variables + length s.locals ≤ most };
}

/// Whether two names have the same characters.
fn is_named(a: &Text, b: &Text) -> bool
    ensures { result ≡ same_name a.now b.now }
{
    *a == *b
}

/// Where a name stands among the variables, from 0.
fn index_of(locals: &[(Text, Variable)], name: &Text) -> Option<usize>
    ensures index { result ≡ position (λ local. same_name name.now local.0) locals.now }
    ensures within { IfSome result (λ i. i < length locals.now) }
{
    locals.iter().position(|local| is_named(name, &local.0))
}

impl<'e> Scope<'e> {
    /// An environment alone.
    pub fn over(alloc: Global, env: &'e Env<'e>) -> Scope<'e>
        ensures { result ≡ record { outer = env.now; locals = [] } }
    {
        let _count = env.variable_count();
        Scope {
            env,
            locals: Seq::new(alloc),
        }
    }

    /// The environment around the expression.
    pub fn env(&self) -> &Env<'e>
        ensures { result.now ≡ self.now.outer }
    {
        self.env
    }

    /// How many variables are in reach, which is the number of the next.
    pub fn size(&self) -> u32
        ensures { result ≡ length (in_reach self.now).variables }
    {
        (self.env.variable_count() as usize + self.locals.len()) as u32
    }

    /// Whether a variable of this name is in reach.
    pub fn is_bound(&self, name: &Text) -> bool
        ensures { result ≡ bound (in_reach self.now) name.now }
    {
        self.variable(name).is_some()
    }

    /// The number of a variable, its type and its model.
    pub fn variable(&self, name: &Text) -> Option<(u32, &Variable)>
        ensures number { option_map (λ v. v.0) result ≡ number_of (in_reach self.now).variables name.now }
        ensures value { option_map (λ v. v.1.now) result ≡ value_of (in_reach self.now).variables name.now }
    {
        match self.env.variable(name) {
            Some((number, variable)) => Some((number, variable)),
            None => self.local(name),
        }
    }

    /// The same of a variable that the expression brings in.
    fn local(&self, name: &Text) -> Option<(u32, &Variable)>
        ensures number { option_map (λ v. v.0) result ≡ option_map (λ i. length self.now.outer.variables + i) (number_of self.now.locals name.now) }
        ensures value { option_map (λ v. v.1.now) result ≡ value_of self.now.locals name.now }
    {
        let locals = self.locals.as_slice();
        match index_of(locals, name) {
            Some(i) => {
                let number = self.env.variable_count() as usize + i;
                Some((number as u32, &locals[i].1))
            }
            None => None,
        }
    }

    /// Brings a variable into reach.
    ///
    /// # Errors
    ///
    /// `NoMemory` where memory runs out, or where `MAX_NUMBERED` variables are in reach. The scope is then as it was.
    pub fn enter(&mut self, name: Text, variable: Variable) -> Result<(), NoMemory>
        requires { bound (in_reach self.old) name ≡ false }
        ensures ok { OnOk result (self.new ≡ entered self.old name variable) }
        ensures err { OnErr result (self.new ≡ self.old) }
    {
        if self.env.variable_count() as usize + self.locals.len() >= MAX_NUMBERED {
            return Err(NoMemory);
        }
        self.locals.push((name, variable))
    }

    /// Takes the last variable out of reach again.
    #[tactic(auto, using(crate::proofs::ScopeLaws::popped))]
    pub fn leave(&mut self)
        ensures { self.new ≡ left self.old }
    {
        let _last = self.locals.pop();
    }
}
