//! What both threads share.
ghost use Rattle.std.specs.Prelude.{◌≡◌, Some as SomeOf, IfOk, OnOk, OnErr};
ghost use Rattle.std.specs.BTreeMap.{Updates};
ghost use Rattle.std.specs.Option.{IfSome, option_copied};
ghost use Rattle.core_semantics.specs.declared.object.Start.TheVariants.{Only};
ghost use Rattle.core_semantics.specs.Cells.{none_stored, put_in, admitted};
ghost use Rattle.core_semantics.specs.CellOrder.{cell_cmp, cells_of, heap_of};
ghost use Rattle.core_semantics.specs.Runs.{is_in};
ghost use Rattle.core_semantics.specs.View.{store_of};

use crate::{Object, Start, StartPath, Value};
use racer_base::{FieldId, Items, Memory};
use std::alloc::Global;
use std::collections::{BTreeMap, BTreeSet};

/// A field of an object.
#[derive(PartialEq, Eq, PartialOrd, Ord, Drop)]
struct Cell {
    field: u32,
    object: Object,
}

/// What was stored in the fields of objects.
#[derive(Drop)]
pub(crate) struct Cells {
    stored: BTreeMap<Cell, Value>,
}

/// Which start paths with a field are objects.
#[derive(Drop)]
pub(crate) struct Heap {
    /// The objects of these paths; none where all are.
    only: Option<BTreeSet<Object>>,
}

/// Puts a copy of a value in a copy of a cell.
fn put_copy(
    alloc: Global,
    stored: &mut BTreeMap<Cell, Value>,
    cell: &Cell,
    value: &Value,
) -> Result<(), Memory>
    ensures { OnOk result (Updates cell_cmp stored.old stored.new cell.now (SomeOf value.now)) }
{
    let copy = Cell {
        field: cell.field,
        object: cell.object.copied(alloc)?,
    };
    stored.insert(copy, value.copied(alloc)?)?;
    Ok(())
}

impl Cells {
    pub(crate) fn new(alloc: Global) -> Cells
        ensures { cells_of result ≡ none_stored }
    {
        Cells {
            stored: BTreeMap::new(alloc),
        }
    }

    /// What was stored last in a field of an object.
    pub(crate) fn get(
        &self,
        alloc: Global,
        object: &Object,
        field: FieldId,
    ) -> Result<Option<&Value>, Memory>
        ensures { IfOk result (λ found. option_copied found ≡ cells_of self.now object.now field) }
    {
        let cell = Cell {
            field: field.0,
            object: object.copied(alloc)?,
        };
        Ok(self.stored.get(&cell))
    }

    /// Stores a value in a field of an object.
    pub(crate) fn put(
        &mut self,
        alloc: Global,
        object: &Object,
        field: FieldId,
        value: Value,
    ) -> Result<(), Memory>
        ensures ok { OnOk result (cells_of self.new ≡ put_in (cells_of self.old) object.now field value) }
        ensures err { OnErr result (cells_of self.new ≡ cells_of self.old) }
    {
        let cell = Cell {
            field: field.0,
            object: object.copied(alloc)?,
        };
        self.stored.insert(cell, value)?;
        Ok(())
    }
}

impl Cells {
    /// Cells in which the same is stored.
    pub(crate) fn copied(&self, alloc: Global) -> Result<Cells, Memory>
        ensures { IfOk result (λ copy. cells_of copy ≡ cells_of self.now) }
    {
        let mut stored = BTreeMap::new(alloc);
        for (cell, value) in self.stored.iter() {
            put_copy(alloc, &mut stored, cell, value)?;
        }
        Ok(Cells { stored })
    }
}

impl Heap {
    /// The heap of these start paths.
    pub(crate) fn of(alloc: Global, start: Start) -> Result<Heap, Memory>
        ensures { IfOk result (λ heap. heap_of heap ≡ is_in start) }
    {
        match start {
            Start::All => Ok(Heap { only: None }),
            Start::Only(paths) => Heap::only(alloc, paths),
        }
    }

    /// The heap of these start paths alone.
    fn only(alloc: Global, paths: Items<StartPath>) -> Result<Heap, Memory>
        ensures { IfOk result (λ heap. heap_of heap ≡ is_in (Only paths)) }
    {
        let mut objects = BTreeSet::new(alloc);
        for path in paths.into_vec() {
            objects.insert(Object::Start(path))?;
        }
        Ok(Heap {
            only: Some(objects),
        })
    }

    /// The object of a start path, or null where it is none.
    pub(crate) fn admitted(&self, path: StartPath) -> Value
        ensures { result ≡ admitted (heap_of self.now) path }
    {
        let object = Object::Start(path);
        match &self.only {
            None => Value::Object(object),
            Some(objects) if objects.contains(&object) => Value::Object(object),
            Some(_) => Value::Null,
        }
    }
}

impl Heap {
    /// The heap in which all start paths are objects, where this is it.
    pub(crate) fn copied(&self) -> Option<Heap>
        ensures { IfSome result (λ heap. heap_of heap ≡ heap_of self.now) }
    {
        match &self.only {
            None => Some(Heap { only: None }),
            Some(_) => None,
        }
    }
}

/// What both threads share.
#[derive(Drop)]
pub(crate) struct Store {
    pub heap: Heap,
    pub cells: Cells,
    /// The number of the next object that is made.
    pub fresh: u32,
}

/// Lets a store go. It is taken apart here alone, since a drop is proved again wherever it stands.
pub(crate) fn let_store_go(_store: Store) {}

impl Store {
    /// A store that holds the same, where all start paths are objects.
    pub(crate) fn copied(&self, alloc: Global) -> Result<Option<Store>, Memory>
        ensures { IfOk result (λ copied. IfSome copied (λ copy. store_of copy ≡ store_of self.now)) }
    {
        let Some(heap) = self.heap.copied() else {
            return Ok(None);
        };
        let cells = self.cells.copied(alloc)?;
        Ok(Some(Store {
            heap,
            cells,
            fresh: self.fresh,
        }))
    }
}
