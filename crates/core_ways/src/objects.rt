//! Start paths, each once, in the order in which they came.
ghost use Rattle.std.specs.Prelude.{◌≡◌, [], ◌∷◌, ◌++◌, true, OnOk, OnErr, is_ok, if◌then◌else◌};
ghost use Rattle.std.specs.BTreeSet.{Updates};
ghost use Rattle.core_semantics.specs.declared.object.Object.TheVariants.{Start as StartOf};
ghost use Rattle.core_semantics.specs.declared.object.Value.TheVariants.{Object as Ref};
ghost use Rattle.core_semantics.specs.Order.{object_cmp};
ghost use Rattle.core_ways.specs.Marks.{paths_in};
ghost use Rattle.core_semantics.specs.declared.object.StartPath.{StartPath};
ghost use Rattle.core_ways.specs.Gathered.{gathered, is_among, path_added, paths_of};

use core_semantics::{Object, StartPath, Value};
use racer_base::Memory;
use std::alloc::Global;
use std::collections::BTreeSet;
use std::marker::Model;

/// Start paths, each once. An ordered set beside the list finds them.
#[derive(Drop)]
pub struct Objects {
    alloc: Global,
    paths: Vec<StartPath>,
    index: BTreeSet<Object>,
}

impl Model for Objects {
    ghost use Rattle.std.specs.Prelude.{List};
    ghost use Rattle.core_semantics.specs.declared.object.StartPath.{StartPath};

    ghost Value = { List StartPath };

    ghost use Rattle.core_ways.specs.Gathered.{HasObjectsOf};

    ghost view = { λ objects. objects.paths.items };

    ghost invariant = { λ objects. HasObjectsOf objects.index.keys objects.paths.items };
}

/// Puts a path at the end, and its object among the objects. Where memory is refused, both are as before.
fn put(
    paths: &mut Vec<StartPath>,
    index: &mut BTreeSet<Object>,
    path: StartPath,
    object: Object,
) -> Result<(), Memory>
    ensures paths { paths.new.items ≡ (if is_ok result then paths.old.items ++ path ∷ [] else paths.old.items) }
    ensures added { OnOk result (Updates object_cmp index.old index.new object true) }
    ensures same { OnErr result (index.new.keys ≡ index.old.keys) }
{
    paths.reserve(1)?;
    index.insert(object)?;
    let Ok(()) = paths.push(path) else {
        unreachable!()
    };
    Ok(())
}

impl Objects {
    /// No paths.
    pub fn new(alloc: Global) -> Objects
        ensures { result ≡ [] }
    {
        Objects {
            alloc,
            paths: Vec::new(alloc),
            index: BTreeSet::new(alloc),
        }
    }

    /// Whether a path is there, by its object.
    fn has(&self, object: &Object) -> bool
        ensures { (p : StartPath) → object.now ≡ StartOf p → result ≡ is_among self.now p }
    {
        self.index.contains(object)
    }

    /// Adds a path, unless it is there.
    fn add(&mut self, path: StartPath) -> Result<(), Memory>
        ensures { OnOk result (self.new ≡ path_added self.old path) }
    {
        let Ok(copy) = path.copied(self.alloc) else {
            return Err(Memory);
        };
        let object = Object::Start(path);
        let there = self.has(&object);
        if there {
            return Ok(());
        }
        let Ok(()) = put(&mut self.paths, &mut self.index, copy, object) else {
            return Err(Memory);
        };
        Ok(())
    }

    /// Adds a copy of a path, unless it is there.
    fn add_copy(&mut self, path: &StartPath) -> Result<(), Memory>
        ensures { OnOk result (self.new ≡ path_added self.old path.now) }
    {
        let Ok(copy) = path.copied(self.alloc) else {
            return Err(Memory);
        };
        self.add(copy)
    }

    /// Adds paths in order, each unless it is there.
    fn add_each(&mut self, paths: &[StartPath]) -> Result<(), Memory>
        ensures { OnOk result (self.new ≡ gathered self.old paths.now) }
    {
        for path in paths {
            let Ok(()) = self.add_copy(path) else {
                return Err(Memory);
            };
        }
        Ok(())
    }

    /// Adds others in order, each unless it is there.
    pub fn add_all(&mut self, others: &Objects) -> Result<(), Memory>
        ensures { OnOk result (self.new ≡ gathered self.old others.now) }
    {
        self.add_each(others.paths.as_slice())
    }

    /// Adds a path that has a field.
    fn add_long(&mut self, path: StartPath) -> Result<(), Memory>
        ensures { OnOk result (self.new ≡ gathered self.old (paths_in (Ref (StartOf path)))) }
    {
        if path.fields.is_empty() {
            return Ok(());
        }
        self.add(path)
    }

    /// Adds the path of an object, where it is one with a field.
    fn add_object(&mut self, object: Object) -> Result<(), Memory>
        ensures { OnOk result (self.new ≡ gathered self.old (paths_in (Ref object))) }
    {
        match object {
            Object::Start(path) => self.add_long(path),
            Object::Fresh(_) => Ok(()),
        }
    }

    /// Adds the path of the object that a value is, where it is one with a field.
    fn add_value(&mut self, value: Value) -> Result<(), Memory>
        ensures { OnOk result (self.new ≡ gathered self.old (paths_in value)) }
    {
        match value {
            Value::Object(object) => self.add_object(object),
            Value::Plain => Ok(()),
            Value::Opaque => Ok(()),
            Value::Null => Ok(()),
        }
    }

    /// The same where there is a value.
    pub fn add_read(&mut self, value: Option<Value>) -> Result<(), Memory>
        ensures { OnOk result (self.new ≡ gathered self.old (paths_of value)) }
    {
        match value {
            Some(value) => self.add_value(value),
            None => Ok(()),
        }
    }

    /// The paths, in order.
    pub fn into_vec(self) -> Vec<StartPath>
        ensures { result.items ≡ self }
    {
        self.paths
    }
}
