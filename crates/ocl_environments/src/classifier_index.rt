//! One table over all metamodels: a name is looked up once, whatever their number.
ghost use Rattle.std.specs.Prelude.{◌≡◌, ℕ, ◌<◌, ◌≤◌, List, [], Option, None, Some, length, IfOk, IfSome, OnOk, option_copied};
ghost use Rattle.mof_metamodel.specs.Metamodels.{class_count, enum_count, class_number, enum_number};
ghost use Rattle.ocl_environments.specs.Environments.{number_of, most};
ghost use Rattle.ocl_environments.specs.Meanings.{found_as, with_option, with_meta, meaning_in, IsParallel, at_number, class_of_number, enum_of_number};
ghost use Rattle.ocl_environments.specs.Classifiers.{class_in, enum_in};
ghost use Rattle.ocl_environments.specs.ClassifierIndexes.{own_meaning as meaning_of_own, index_meaning, with_meta_of, IsIndex, IsIndexOf};

use crate::classifier::{Classifier, Found, Wanted};
use crate::meaning::{Meaning, MeaningTable};
use mof_metamodel::{ClassId, EnumId, MetaModel, NameTable, NoMemory, Text, or_drop};
use std::alloc::Global;

/// Adds a class to what its name means, unless a class before it has the name.
fn add_class(
    alloc: Global,
    table: &mut MeaningTable,
    m: u32,
    meta: &MetaModel,
    c: u32,
) -> Result<(), NoMemory>
    requires parallel { IsParallel table.old }
    requires within { c < class_count meta.now }
    ensures parallel { OnOk result (IsParallel table.new) }
    ensures added { OnOk result ((n : List ℕ) → meaning_in table.new n ≡ with_option (meaning_in table.old n) (class_of_number m (at_number c (class_number meta.now n)))) }
{
    let id = ClassId(c);
    let name = Text::new(alloc, meta.class_name(id))?;
    match meta.class_named(name.as_str()) {
        Some(first) => if first.0 == c {
            table.add(alloc, &name, Classifier::Class(m, id))
        } else {
            Ok(())
        },
        None => Ok(()),
    }
}

/// Adds the classes of a metamodel to what their names mean.
fn add_classes(
    alloc: Global,
    table: &mut MeaningTable,
    m: u32,
    meta: &MetaModel,
) -> Result<(), NoMemory>
    requires { IsParallel table.old }
    ensures parallel { OnOk result (IsParallel table.new) }
    ensures added { OnOk result ((n : List ℕ) → meaning_in table.new n ≡ with_option (meaning_in table.old n) (class_in m meta.now n)) }
{
    for c in 0..meta.class_count() {
        add_class(alloc, table, m, meta, c)?;
    }
    Ok(())
}

/// Adds an enumeration to what its name means, unless an enumeration before it has the name.
fn add_enum(
    alloc: Global,
    table: &mut MeaningTable,
    m: u32,
    meta: &MetaModel,
    e: u32,
) -> Result<(), NoMemory>
    requires parallel { IsParallel table.old }
    requires within { e < enum_count meta.now }
    ensures parallel { OnOk result (IsParallel table.new) }
    ensures added { OnOk result ((n : List ℕ) → meaning_in table.new n ≡ with_option (meaning_in table.old n) (enum_of_number m (at_number e (enum_number meta.now n)))) }
{
    let id = EnumId(e);
    let name = Text::new(alloc, meta.enum_name(id))?;
    match meta.enum_named(name.as_str()) {
        Some(first) => if first.0 == e {
            table.add(alloc, &name, Classifier::Enum(m, id))
        } else {
            Ok(())
        },
        None => Ok(()),
    }
}

/// Adds the enumerations of a metamodel to what their names mean.
fn add_enums(
    alloc: Global,
    table: &mut MeaningTable,
    m: u32,
    meta: &MetaModel,
) -> Result<(), NoMemory>
    requires { IsParallel table.old }
    ensures parallel { OnOk result (IsParallel table.new) }
    ensures added { OnOk result ((n : List ℕ) → meaning_in table.new n ≡ with_option (meaning_in table.old n) (enum_in m meta.now n)) }
{
    for e in 0..meta.enum_count() {
        add_enum(alloc, table, m, meta, e)?;
    }
    Ok(())
}

/// Adds the classes and the enumerations of a metamodel to what their names mean.
fn add_classifiers(
    alloc: Global,
    table: &mut MeaningTable,
    m: u32,
    meta: &MetaModel,
) -> Result<(), NoMemory>
    requires { IsParallel table.old }
    ensures parallel { OnOk result (IsParallel table.new) }
    ensures added { OnOk result ((n : List ℕ) → meaning_in table.new n ≡ with_meta (meaning_in table.old n) m meta.now n) }
{
    add_classes(alloc, table, m, meta)?;
    add_enums(alloc, table, m, meta)
}

/// What the names of classes and enumerations mean in all metamodels, and in those of each name of a metamodel.
#[derive(Drop)]
pub(crate) struct ClassifierIndex {
    all: MeaningTable,
    metas: NameTable<()>,
    own: Vec<MeaningTable>,
}

impl ClassifierIndex {
    /// Of no metamodels.
    pub(crate) fn new(alloc: Global) -> ClassifierIndex
        ensures { IsIndexOf [] [] result }
    {
        ClassifierIndex {
            all: MeaningTable::new(alloc),
            metas: NameTable::new(alloc),
            own: Vec::new(alloc),
        }
    }

    /// Of these metamodels, which have these names. In time linear in the number of their classes and enumerations.
    pub(crate) fn over(
        alloc: Global,
        metas: &[MetaModel],
        names: &[Text],
    ) -> Result<ClassifierIndex, NoMemory>
        requires few { length metas.now ≤ most }
        requires named { length names.now ≡ length metas.now }
        ensures { IfOk result (IsIndexOf metas.now names.now) }
    {
        let mut index = ClassifierIndex::new(alloc);
        for (m, meta) in metas.iter().enumerate() {
            or_drop!(index.add_meta(alloc, m as u32, meta, &names[m]); index);
        }
        Ok(index)
    }

    /// The place of the table of the metamodels of a name.
    fn own_place(&self, name: &Text) -> Option<usize>
        ensures number { result ≡ number_of self.now.metas name.now }
        ensures within { IfSome result (λ i. i < length self.now.metas) }
    {
        match self.metas.find(name) {
            Some((i, _)) => Some(i),
            None => None,
        }
    }

    /// The same, with an empty table where there is none.
    fn own_table(&mut self, alloc: Global, name: &Text) -> Result<usize, NoMemory>
        requires { IsIndex self.old }
        ensures index { OnOk result (IsIndex self.new) }
        ensures place { IfOk result (λ i. number_of self.new.metas name.now ≡ Some i) }
        ensures same { OnOk result ((q : Option (List ℕ)) (n : List ℕ) → index_meaning self.new q n ≡ index_meaning self.old q n) }
    {
        match self.own_place(name) {
            Some(i) => Ok(i),
            None => self.new_table(alloc, name),
        }
    }

    /// An empty table for the metamodels of a name that has none.
    fn new_table(&mut self, alloc: Global, name: &Text) -> Result<usize, NoMemory>
        requires index { IsIndex self.old }
        requires absent { number_of self.old.metas name.now ≡ None }
        ensures index { OnOk result (IsIndex self.new) }
        ensures place { IfOk result (λ i. number_of self.new.metas name.now ≡ Some i) }
        ensures same { OnOk result ((q : Option (List ℕ)) (n : List ℕ) → index_meaning self.new q n ≡ index_meaning self.old q n) }
    {
        let i = self.metas.len();
        let name = name.duplicate(alloc)?;
        self.metas.put(name, ())?;
        self.own.push(MeaningTable::new(alloc))?;
        Ok(i)
    }

    /// Adds a metamodel, which has this name.
    fn add_meta(
        &mut self,
        alloc: Global,
        m: u32,
        meta: &MetaModel,
        name: &Text,
    ) -> Result<(), NoMemory>
        requires { IsIndex self.old }
        ensures index { OnOk result (IsIndex self.new) }
        ensures added { OnOk result ((q : Option (List ℕ)) (n : List ℕ) → index_meaning self.new q n ≡ with_meta_of name.now q (index_meaning self.old q n) m meta.now n) }
    {
        let i = self.own_table(alloc, name)?;
        add_classifiers(alloc, &mut self.own[i], m, meta)?;
        add_classifiers(alloc, &mut self.all, m, meta)
    }

    /// What a name means in the metamodels of another name.
    fn own_meaning(&self, q: &Text, name: &Text) -> Meaning
        requires { IsIndex self.now }
        ensures { result ≡ meaning_of_own self.now.own.items name.now (number_of self.now.metas q.now) }
    {
        match self.own_place(q) {
            Some(i) => self.own[i].get(name),
            None => Meaning::nothing(),
        }
    }

    /// What is asked for and has this name, in the metamodels of the name that is written before it, or in all.
    pub(crate) fn find(&self, wanted: Wanted, qualifier: Option<&Text>, name: &Text) -> Found
        requires { IsIndex self.now }
        ensures { result ≡ found_as wanted (index_meaning self.now (option_copied qualifier.entry) name.now) }
    {
        match qualifier {
            Some(q) => self.own_meaning(q, name).found(wanted),
            None => self.all.get(name).found(wanted),
        }
    }
}
