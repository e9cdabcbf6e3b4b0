ghost use Rattle.std.specs.Prelude.{◌≡◌, ◌<◌, ◌≤◌, ◌↔◌, [], ◌∷◌, ◌++◌, length, IsTrue, IfOk, MatchOption, OnOk, OnErr};
ghost use Rattle.mof_metamodel.specs.Metamodels.{prop_count, prop_at};
ghost use Rattle.ocl_environments.specs.Conformance.{TypeConforms, IsUpper, AreUnrelated};
ghost use Rattle.ocl_environments.specs.Navigation.{values_of};

use crate::agreement::fits;
use crate::conformance::upper_type;
use crate::limits::MAX_NUMBERED;
use crate::navigation::values;
use mof_metamodel::{MetaModel, NoMemory, PropId, Seq};
use qv_syntax::{Ty, Values};
use std::alloc::Global;
use std::marker::Model;

/// The metamodels of a script by their numbers, from 0. Contracts see them as the list of their descriptions.
#[derive(Drop)]
pub struct Metas {
    metas: Seq<MetaModel>,
}

impl Model for Metas {
    ghost use Rattle.std.specs.Prelude.{List};
    ghost use Rattle.mof_metamodel.specs.declared.desc.MetaDesc.{MetaDesc};
    ghost use Rattle.ocl_environments.specs.Environments.{AreInOrder};

    ghost Value = { List MetaDesc };

    ghost view = { λ m. m.metas };

    ghost invariant = { λ m. AreInOrder m.metas };
}

impl Metas {
    ghost use Rattle.ocl_environments.specs.Environments.{meta_at, most, AreWell};

    /// No metamodels.
    pub fn new(alloc: Global) -> Metas
        ensures { result ≡ [] }
    {
        Metas {
            metas: Seq::new(alloc),
        }
    }

    /// How many metamodels there are. No fault stands in any.
    pub fn len(&self) -> u32
        ensures count { result ≡ length self.now }
        ensures well { AreWell self.now }
    {
        self.metas.len() as u32
    }

    /// Adds a metamodel behind the others.
    ///
    /// # Errors
    ///
    /// `NoMemory` where memory runs out, or where there are `MAX_NUMBERED` already. The metamodels are then as they were.
    pub fn push(&mut self, meta: MetaModel) -> Result<(), NoMemory>
        ensures ok { OnOk result (self.new ≡ self.old ++ meta ∷ []) }
        ensures err { OnErr result (self.new ≡ self.old) }
    {
        if self.metas.len() >= MAX_NUMBERED {
            drop(meta);
            return Err(NoMemory);
        }
        // No fault stands in the new one.
        let _classes = meta.class_count();
        self.metas.push(meta)
    }

    /// The metamodel of this number.
    pub fn get(&self, i: u32) -> &MetaModel
        requires { i < length self.now }
        ensures { result.now ≡ meta_at self.now i }
    {
        &self.metas.as_slice()[i as usize]
    }

    /// Whether a type conforms to another: they are one, or classes of one metamodel of which the first conforms to the second.
    pub fn conforms(&self, a: &Ty, b: &Ty) -> bool
        ensures { IsTrue result ↔ TypeConforms self.now a.now b.now }
    {
        fits(self.metas.as_slice(), a, b)
    }

    /// That of two types to which both conform, if there is one.
    pub fn upper_type(&self, alloc: Global, a: &Ty, b: &Ty) -> Result<Option<Ty>, NoMemory>
        ensures { IfOk result (λ t. MatchOption t (AreUnrelated self.now a.now b.now) (IsUpper self.now a.now b.now)) }
    {
        upper_type(alloc, self.metas.as_slice(), a, b)
    }

    /// What navigation to a property of a metamodel gives: one value, or a collection.
    pub fn values(&self, m: u32, p: PropId) -> Values
        requires within { m < length self.now }
        requires prop { p.0 < prop_count (meta_at self.now m) }
        ensures { result ≡ values_of (prop_at (meta_at self.now m) p.0) }
    {
        values(self.get(m), p)
    }

    /// The metamodels in their order.
    pub fn as_slice(&self) -> &[MetaModel]
        ensures value { result.now ≡ self.now }
        ensures few { length self.now ≤ most }
        ensures well { AreWell self.now }
    {
        self.metas.as_slice()
    }
}
