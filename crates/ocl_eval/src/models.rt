ghost use Rattle.std.specs.Prelude.{◌≡◌, [], ◌∷◌, ◌++◌, length, slice_get, Some, OnOk, OnErr, IfSome};
ghost use Rattle.std.specs.Option.{option_copied};
ghost use Rattle.key_index.specs.Indexes.{IsIndexOf};
ghost use Rattle.ocl_eval.specs.Indexes.{AreIndexes};

use key_index::KeyIndex;
use mof_metamodel::NoMemory;
use object_tables::Model;
use std::alloc::Global;

/// The models of a script, in the order of its model parameters, and beside each an index over it, where one was made.
pub type Models<'m> = IndexedList<Model<'m>>;

/// What contracts see as a model.
pub trait Modelled {
    ghost use Rattle.object_tables.specs.Models.{ModelData};

    ghost model: { Self → ModelData };
}

impl<'m> Modelled for Model<'m> {
    ghost model = { λ m. m };
}

/// A list whose items may be changed in their places, with indexes beside them. Contracts see it as the list of its items.
#[derive(Drop)]
pub struct IndexedList<T: Modelled> {
    alloc: Global,
    items: Vec<T>,
    indexes: Vec<Option<KeyIndex>>,
}

impl<T: Modelled> std::marker::Model for IndexedList<T> {
    ghost use Rattle.std.specs.Prelude.{List};
    ghost use Rattle.std.specs.Coded.{coded_list};
    ghost use Rattle.ocl_eval.specs.Indexes.{AreIndexes};

    ghost Value = { List T };

    ghost coded = { coded_list T.code };

    ghost view = { λ it. it.items.items };

    ghost invariant = { λ it. AreIndexes T.model it.items.items it.indexes.items };
}

impl<T: Modelled> IndexedList<T> {
    ghost use Rattle.std.specs.Prelude.{◌<◌, Some};
    ghost use Rattle.std.specs.Borrow.{sem};
    ghost use Rattle.ocl_eval.specs.Lending.{LendsItem};

    /// No item. It takes no memory.
    pub fn new(alloc: Global) -> IndexedList<T>
        ensures { result ≡ [] }
    {
        IndexedList {
            alloc,
            items: Vec::new(alloc),
            indexes: Vec::new(alloc),
        }
    }

    /// How many items there are.
    pub fn len(&self) -> usize
        ensures { result ≡ length self.now }
    {
        self.items.len()
    }

    /// The item of that number, counted from 0.
    pub fn get(&self, number: usize) -> Option<&T>
        ensures { option_copied result ≡ slice_get self.now number }
    {
        self.items.get(number)
    }

    /// The item of that number, to be changed: afterwards it is as the caller leaves it, and the others are as they were. Its index is gone.
    pub fn get_mut(&mut self, number: u32) -> &mut T
        requires { number < length self.old }
        ensures* writes_back { sem 𝓛 (LendsItem T.row T.model self.entry number result) }
        ensures item { slice_get self.old number ≡ Some result.now }
    {
        self.indexes[number as usize] = None;
        &mut self.items[number as usize]
    }
}

impl<'m> IndexedList<Model<'m>> {
    ghost use Rattle.object_tables.specs.Models.{ModelData};

    /// Makes an index over each model that has none. After `NoMemory` some may have none still.
    pub fn index(&mut self) -> Result<(), NoMemory>
        ensures { self.new ≡ self.old }
    {
        build_all(
            self.alloc,
            self.items.as_slice(),
            self.indexes.as_mut_slice(),
        )
    }

    /// The index over the model of that number, if there is one.
    pub fn index_of(&self, number: u32) -> Option<&KeyIndex>
        ensures { IfSome result (λ i. (m : ModelData) → slice_get self.now number ≡ Some m → IsIndexOf m i.now) }
    {
        match self.indexes.get(number as usize) {
            Some(index) => index.as_ref(),
            None => None,
        }
    }
}

/// Makes the index over a model, if there is none beside it.
fn build_missing(
    alloc: Global,
    model: &Model<'_>,
    index: &mut Option<KeyIndex>,
) -> Result<(), NoMemory>
    requires { IfSome index.old (IsIndexOf model.now) }
    ensures { IfSome index.new (IsIndexOf model.now) }
{
    if index.is_none() {
        *index = Some(KeyIndex::build(alloc, model)?);
    }
    Ok(())
}

/// The same for each of some models.
fn build_all(
    alloc: Global,
    models: &[Model<'_>],
    indexes: &mut [Option<KeyIndex>],
) -> Result<(), NoMemory>
    requires { AreIndexes (λ m. m) models.now indexes.old }
    ensures { AreIndexes (λ m. m) models.now indexes.new }
{
    for number in 0..models.len() {
        build_missing(alloc, &models[number], &mut indexes[number])?;
    }
    Ok(())
}

impl<T: Modelled + Drop> IndexedList<T> {
    /// Puts an item behind the others, without an index. After `NoMemory` the others are as they were, and this one is gone.
    pub fn push(&mut self, item: T) -> Result<(), NoMemory>
        ensures ok { OnOk result (self.new ≡ self.old ++ item ∷ []) }
        ensures err { OnErr result (self.new ≡ self.old) }
    {
        self.indexes.push(None)?;
        if self.items.push(item).is_err() {
            let _ = self.indexes.pop();
            return Err(NoMemory);
        }
        Ok(())
    }
}
