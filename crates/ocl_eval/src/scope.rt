ghost use Rattle.std.specs.Prelude.{◌≡◌, [], ◌∷◌, ◌++◌, ◌-◌, ◌<◌, length, take, drop, slice_get, slice_set, IfOk, OnOk};
ghost use Rattle.std.specs.Option.{option_copied};
ghost use Rattle.qvtr_semantics.specs.Expressions.{variable};

use crate::datum::duplicate_out;
use mof_metamodel::{NoMemory, Seq};
use qvtr_semantics::Out;
use std::alloc::Global;
use std::marker::Model;

/// The values of the variables in reach, by their numbers.
#[derive(Drop)]
pub struct Scope {
    values: Vec<Out>,
}

impl Model for Scope {
    ghost use Rattle.std.specs.Prelude.{List};
    ghost use Rattle.qvtr_semantics.specs.declared.out.Out.{Out};

    ghost Value = { List Out };

    ghost view = { λ s. s.values.items };
}

impl Scope {
    /// The scope of these values.
    pub fn new(values: Seq<Out>) -> Scope
        ensures { result ≡ values }
    {
        Scope {
            values: values.into_vec(),
        }
    }

    /// How many variables are in reach.
    pub fn len(&self) -> usize
        ensures { result ≡ length self.now }
    {
        self.values.len()
    }

    /// The value of the variable of a number, if it is in reach.
    pub fn get(&self, number: u32) -> Option<&Out>
        ensures { option_copied result ≡ slice_get self.now number }
    {
        self.values.get(number as usize)
    }

    /// Gives a variable in reach another value. It takes no memory.
    pub fn put(&mut self, number: u32, value: Out)
        requires { number < length self.old }
        ensures { self.new ≡ slice_set self.old number value }
    {
        self.values[number as usize] = value;
    }

    /// The values.
    pub(crate) fn into_values(self) -> Vec<Out>
        ensures { result.items ≡ self }
    {
        self.values
    }

    /// The value of a variable; one that has none is invalid.
    pub(crate) fn variable(&self, alloc: Global, number: u32) -> Result<Out, NoMemory>
        ensures { IfOk result (λ out. out ≡ variable self.now number) }
    {
        match self.values.get(number as usize) {
            Some(value) => duplicate_out(alloc, value),
            None => Ok(Out::Invalid),
        }
    }

    /// Takes the variables from this number on out of reach, and gives their values.
    pub(crate) fn cut(&mut self, alloc: Global, number: u32) -> Result<Vec<Out>, NoMemory>
        ensures scope { OnOk result (self.new ≡ take number self.old) }
        ensures behind { IfOk result (λ behind. behind.items ≡ drop number self.old) }
    {
        if (number as usize) < self.values.len() {
            Ok(self.values.split_off(number as usize)?)
        } else {
            Ok(Vec::new(alloc))
        }
    }

    /// Brings variables behind those in reach.
    pub(crate) fn extend(&mut self, behind: Vec<Out>) -> Result<(), NoMemory>
        ensures { OnOk result (self.new ≡ self.old ++ behind.items) }
    {
        let mut behind = behind;
        self.values.append(&mut behind)?;
        Ok(())
    }

    /// Brings a variable with this value into reach.
    pub(crate) fn enter(&mut self, value: Out) -> Result<(), NoMemory>
        ensures { OnOk result (self.new ≡ self.old ++ value ∷ []) }
    {
        self.values.push(value)?;
        Ok(())
    }

    /// Takes the last variable out of reach again.
    pub(crate) fn leave(&mut self)
        ensures { self.new ≡ take (length self.old - 1) self.old }
    {
        let _last = self.values.pop();
    }
}
