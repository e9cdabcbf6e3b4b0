ghost use Rattle.std.specs.Prelude.{◌≡◌, ◌<◌, ◌≤◌, [], length, false, IsTrue, None, Some, IfOk, OnOk, OnErr};
ghost use Rattle.std.specs.Option.{option_map};

use crate::classifier::Wanted;
use crate::classifier_index::ClassifierIndex;
use crate::extents::only_models;
use crate::limits::MAX_NUMBERED;
use crate::literals::find_literal;
use crate::look_up::{class_alone, find_path, type_of};
use crate::metas::Metas;
use crate::of_types::{are_types, class_of, is_type};
use crate::variable::{Signature, Variable};
use mof_metamodel::{ClassId, EnumId, MetaModel, NameTable, NoMemory, Seq, Text, or_drop};
use qv_syntax::{ModelSlot, Path, Ty};
use std::alloc::Global;
use std::marker::Model;

/// The names in reach of an expression with their types (OCL 2.4, section 9.4): metamodels, models, variables and
/// queries. Names are found by hashing. Variables are numbered in the order of binding, from 0, and so are queries.
#[derive(Drop)]
pub struct Env<'a> {
    metas: &'a [MetaModel],
    names: Seq<Text>,
    models: Seq<ModelSlot>,
    variables: NameTable<Variable>,
    queries: NameTable<Signature>,
    /// The one model of each metamodel that has one alone.
    only_models: Seq<Option<u32>>,
    /// The classes and enumerations of the metamodels by their names.
    classifiers: ClassifierIndex,
}

impl<'a> Model for Env<'a> {
    ghost use Rattle.std.specs.Prelude.{length};
    ghost use Rattle.std.specs.Coded.{codes};
    ghost use Rattle.qv_syntax.specs.contracts.ty.Ty as ty;
    ghost use Rattle.ocl_environments.specs.Environments.{Environment, IsInOrder, IsTabled};
    ghost use Rattle.ocl_environments.specs.ClassifierIndexes.{IsIndexOf};

    ghost Value = { Environment };

    ghost coded = { Prim.hlevel (codes, ty.the_row.coded) };

    ghost view = { λ e. record { metas = e.metas.now; names = e.names; models = e.models; variables = e.variables; queries = e.queries } };

    ghost invariant = { λ e. IsInOrder (record { metas = e.metas.now; names = e.names; models = e.models; variables = e.variables; queries = e.queries }) × IsTabled e.models (length e.metas.now) e.only_models × IsIndexOf e.metas.now e.names e.classifiers };
}

impl<'a> Env<'a> {
    ghost use Rattle.std.specs.List.{list_all};
    ghost use Rattle.ocl_environments.specs.Naming.{names_of};
    ghost use Rattle.ocl_environments.specs.Classifiers.{named_type as type_named, named_class as class_named, named_literal as literal_named};
    ghost use Rattle.ocl_environments.specs.Environments.{nothing_in_reach, AreWell, IsInOrder, have_metas, is_type as typed, is_object_type as object_typed, are_types as all_typed, is_variable, is_bound as bound, is_query_bound as query_bound, with_variable, with_query, without_variables, number_of, value_of, most, only_model as model_alone};

    /// Nothing in reach, and no metamodels.
    pub fn new(alloc: Global) -> Env<'a>
        ensures { result ≡ nothing_in_reach }
    {
        Env {
            metas: &[],
            names: Seq::new(alloc),
            models: Seq::new(alloc),
            variables: NameTable::new(alloc),
            queries: NameTable::new(alloc),
            only_models: Seq::new(alloc),
            classifiers: ClassifierIndex::new(alloc),
        }
    }

    /// The metamodels and the models of a script, and nothing else in reach. `names` are the names of the metamodels.
    ///
    /// # Errors
    ///
    /// `NoMemory` where memory runs out, or where there are more than `MAX_NUMBERED` models.
    pub fn over(
        alloc: Global,
        metas: &'a Metas,
        names: Seq<Text>,
        models: Seq<ModelSlot>,
    ) -> Result<Env<'a>, NoMemory>
        requires named { length names ≡ length metas.now }
        requires placed { IsTrue (have_metas models (length names)) }
        ensures { IfOk result (λ e. e ≡ record { metas = metas.now; names = names; models = models; variables = []; queries = [] }) }
    {
        if models.len() > MAX_NUMBERED {
            drop(models);
            drop(names);
            return Err(NoMemory);
        }
        let only = only_models(alloc, models.as_slice(), metas.len());
        let only_models = or_drop!(only; models, names);
        let classifiers = ClassifierIndex::over(alloc, metas.as_slice(), names.as_slice());
        let classifiers = or_drop!(classifiers; only_models, models, names);
        Ok(Env {
            metas: metas.as_slice(),
            names,
            models,
            variables: NameTable::new(alloc),
            queries: NameTable::new(alloc),
            only_models,
            classifiers,
        })
    }

    /// Whether a variable of this name is bound.
    pub fn is_bound(&self, name: &Text) -> bool
        ensures { result ≡ bound self.now name.now }
    {
        self.variables.contains(name)
    }

    /// Whether a query of this name is bound.
    pub fn is_query(&self, name: &Text) -> bool
        ensures { result ≡ query_bound self.now name.now }
    {
        self.queries.contains(name)
    }

    /// The number of a variable, and its type.
    pub fn variable(&self, name: &Text) -> Option<(u32, &Variable)>
        ensures number { option_map (λ v. v.0) result ≡ number_of self.now.variables name.now }
        ensures value { option_map (λ v. v.1.now) result ≡ value_of self.now.variables name.now }
    {
        let (number, variable) = self.variables.find(name)?;
        Some((number as u32, variable))
    }

    /// How many variables are bound.
    pub fn variable_count(&self) -> u32
        ensures count { result ≡ length self.now.variables }
        ensures few { length self.now.variables ≤ most }
    {
        self.variables.len() as u32
    }

    /// The metamodels in their order. No fault stands in any.
    pub fn metas(&self) -> &[MetaModel]
        ensures value { result.now ≡ self.now.metas }
        ensures well { AreWell self.now.metas }
    {
        self.metas
    }

    /// The one model of a metamodel, if there is one alone.
    #[tactic(auto, using(crate::proofs::ModelLaws::only_at, crate::proofs::ModelLaws::only_past))]
    pub fn only_model(&self, meta: u32) -> Option<u32>
        ensures { result ≡ model_alone self.now.models meta }
    {
        let table = self.only_models.as_slice();
        let i = meta as usize;
        if i < table.len() { table[i] } else { None }
    }

    /// How many queries are in reach.
    pub fn query_count(&self) -> usize
        ensures { result ≡ length self.now.queries }
    {
        self.queries.len()
    }

    /// The number of a query, and its types.
    pub fn query(&self, name: &Text) -> Option<(u32, &Signature)>
        ensures number { option_map (λ q. q.0) result ≡ number_of self.now.queries name.now }
        ensures value { option_map (λ q. q.1.now) result ≡ value_of self.now.queries name.now }
    {
        let (number, signature) = self.queries.find(name)?;
        Some((number as u32, signature))
    }

    /// The type that a path names: the class or the enumeration, if it names one alone.
    pub fn named_type(&self, path: &Path) -> Option<Ty>
        ensures { result ≡ type_named self.now (names_of path.now) }
    {
        let found = find_path(&self.classifiers, Wanted::Types, path.names.as_slice());
        match found.one() {
            Some(classifier) => Some(type_of(classifier)),
            None => None,
        }
    }

    /// The class that a path names, with the number of its metamodel, if it names one class alone.
    pub fn named_class(&self, path: &Path) -> Option<(u32, ClassId)>
        ensures { result ≡ class_named self.now (names_of path.now) }
    {
        let found = find_path(&self.classifiers, Wanted::Classes, path.names.as_slice());
        match found.one() {
            Some(classifier) => class_alone(classifier),
            None => None,
        }
    }

    /// The literal that a path names, with the number of its metamodel, its enumeration and its number there.
    pub fn named_literal(&self, path: &Path) -> Option<(u32, EnumId, u32)>
        ensures { result ≡ literal_named self.now (names_of path.now) }
    {
        find_literal(&self.classifiers, self.metas, path.names.as_slice())
    }

    /// Whether a variable may have the type.
    pub fn is_type(&self, ty: &Ty) -> bool
        ensures { result ≡ typed self.now.metas ty.now }
    {
        is_type(self.metas, ty)
    }

    /// Whether a variable may have each of the types.
    pub fn are_types(&self, types: &[Ty]) -> bool
        ensures { result ≡ all_typed self.now.metas types.now }
    {
        are_types(self.metas, types)
    }

    /// Whether the type is a class of the metamodel of this model.
    pub fn is_object_type(&self, ty: &Ty, model: u32) -> bool
        ensures { result ≡ object_typed self.now ty.now model }
    {
        let models = self.models.as_slice();
        let i = model as usize;
        if i >= models.len() {
            return false;
        }
        match class_of(ty) {
            Some((meta, _)) => meta == models[i].meta && is_type(self.metas, ty),
            None => false,
        }
    }

    /// Puts a variable behind the others.
    fn put(&mut self, name: Text, variable: Variable) -> Result<(), NoMemory>
        requires unbound { bound self.old name ≡ false }
        requires typed { IsTrue (is_variable self.old (name, variable)) }
        ensures ok { OnOk result (self.new ≡ with_variable self.old name variable) }
        ensures err { OnErr result (self.new ≡ self.old) }
    {
        if self.variables.len() >= MAX_NUMBERED {
            return Err(NoMemory);
        }
        self.variables.put(name, variable)
    }

    /// Brings a variable into reach. One of a class has no model.
    ///
    /// # Errors
    ///
    /// `NoMemory` where memory runs out, or where `MAX_NUMBERED` variables are bound. Nothing is bound then.
    pub fn bind(&mut self, name: Text, ty: Ty) -> Result<(), NoMemory>
        requires unbound { bound self.old name ≡ false }
        requires typed { IsTrue (typed self.old.metas ty) }
        ensures ok { OnOk result (self.new ≡ with_variable self.old name (record { ty = ty; model = None })) }
        ensures err { OnErr result (self.new ≡ self.old) }
    {
        self.put(name, Variable { ty, model: None })
    }

    /// Brings an object variable into reach: its class, and the model of its objects.
    ///
    /// # Errors
    ///
    /// As those of `bind`.
    pub fn bind_object(&mut self, name: Text, class: Ty, model: u32) -> Result<(), NoMemory>
        requires unbound { bound self.old name ≡ false }
        requires typed { IsTrue (object_typed self.old class model) }
        ensures ok { OnOk result (self.new ≡ with_variable self.old name (record { ty = class; model = Some model })) }
        ensures err { OnErr result (self.new ≡ self.old) }
    {
        self.put(
            name,
            Variable {
                ty: class,
                model: Some(model),
            },
        )
    }

    /// Takes all variables out of reach. What a script has once, its metamodels, models and queries, stays.
    pub fn forget_variables(&mut self, alloc: Global)
        ensures { self.new ≡ without_variables self.old }
    {
        let _variables = self.take_variables(alloc);
    }

    /// Takes all variables out of reach, and hands them out.
    pub fn take_variables(&mut self, alloc: Global) -> NameTable<Variable>
        ensures taken { result ≡ self.old.variables }
        ensures left { self.new ≡ without_variables self.old }
        ensures typed { IsTrue (list_all (is_variable self.old) result) }
        ensures few { length result ≤ most }
    {
        std::mem::replace(&mut self.variables, NameTable::new(alloc))
    }

    /// Puts variables in the place of those in reach.
    pub fn put_variables(&mut self, variables: NameTable<Variable>)
        requires typed { IsTrue (list_all (is_variable self.old) variables) }
        requires few { length variables ≤ most }
        ensures { self.new ≡ record self.old { variables = variables } }
    {
        self.variables = variables;
    }

    /// Brings a query into reach: the types of its parameters and of its result.
    ///
    /// # Errors
    ///
    /// `NoMemory` where memory runs out, or where `MAX_NUMBERED` queries are bound. Nothing is bound then.
    pub fn bind_query(
        &mut self,
        name: Text,
        params: Seq<Ty>,
        result_type: Ty,
    ) -> Result<(), NoMemory>
        requires unbound { query_bound self.old name ≡ false }
        requires params { IsTrue (all_typed self.old.metas params) }
        requires result_type { IsTrue (typed self.old.metas result_type) }
        ensures ok { OnOk result (self.new ≡ with_query self.old name (record { params = params; result = result_type })) }
        ensures err { OnErr result (self.new ≡ self.old) }
    {
        if self.queries.len() >= MAX_NUMBERED {
            return Err(NoMemory);
        }
        self.queries.put(
            name,
            Signature {
                params,
                result: result_type,
            },
        )
    }

    /// Numbers of metamodels are in range, and types are such that a variable may have them.
    pub fn in_order(&self)
        ensures { IsInOrder self.now }
    {
        let _ = &self.metas;
    }
}
