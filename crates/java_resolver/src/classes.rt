//! Classes by their names.
ghost use Rattle.std.specs.Prelude.{◌≡◌, ◌++◌, map, IfOk, IfErr, OnOk, None};
ghost use Rattle.java_resolver.specs.Declarations.{class_names, class_info, trees_of};
ghost use Rattle.java_resolver.specs.TypeKinds.{class_named};
ghost use Rattle.java_resolver.specs.Refusals.{duplicate_class};
ghost use Rattle.java_resolver.specs.Indexes.{FindsFirsts, class_at, trees_behind};
ghost use Rattle.java_resolver.specs.Faults.{IsFault};

use crate::fault::ResolveFault;
use crate::infos::ClassInfo;
use crate::words::is_checked;
use java_tree::{ClassTree, Unit};
use keyed_numbers::{Key, Named, add_number, no_numbers, number_at};
use racer_base::{ClassId, Memory};
use std::alloc::Global;
use std::marker::Model;

/// The one key of all classes.
const CLASSES: Key = (0, 0);

/// The classes of a folder, in source order.
#[derive(Drop)]
pub struct Classes {
    list: Vec<ClassInfo>,
    numbers: Named,
}

impl Model for Classes {
    ghost use Rattle.std.specs.Prelude.{List};
    ghost use Rattle.java_resolver.specs.declared.infos.ClassInfo.{ClassInfo};
    ghost use Rattle.java_resolver.specs.Indexes.{FindsFirsts, class_at};

    ghost Value = { List ClassInfo };

    ghost view = { λ classes. classes.list.items };

    ghost invariant = { λ classes. FindsFirsts class_at classes.numbers classes.list.items };
}

/// The numbers of classes by their names, unless two have the same.
fn class_numbers(alloc: Global, classes: &[ClassInfo]) -> Result<Named, ResolveFault>
    ensures found { IfOk result (λ numbers. FindsFirsts class_at numbers classes.now) }
    ensures ok { IfOk result (λ _. duplicate_class classes.now ≡ None) }
    ensures err { IfErr result (IsFault (duplicate_class classes.now)) }
{
    let mut numbers = no_numbers(alloc);
    for (index, class) in classes.iter().enumerate() {
        let name = class.name.as_str();
        if let Some(first) = number_at(&numbers, name, CLASSES) {
            let first_place = classes[first as usize].place;
            return Err(ResolveFault::DuplicateClass(class.place, first_place));
        }
        add_number(alloc, &mut numbers, name, CLASSES, index)?;
    }
    Ok(numbers)
}

impl Classes {
    pub fn as_slice(&self) -> &[ClassInfo]
        ensures { result.now ≡ self.now }
    {
        self.list.as_slice()
    }

    /// The class of a name.
    pub fn named(&self, name: &str) -> Option<ClassId>
        ensures { result ≡ class_named (class_names self.now) name.now }
    {
        let number = number_at(&self.numbers, name, CLASSES)?;
        Some(ClassId(number))
    }
}

/// Adds the classes of a unit.
fn push_trees<'a>(trees: &mut Vec<&'a ClassTree>, classes: &'a [ClassTree]) -> Result<(), Memory>
    ensures { OnOk result (trees_behind trees.new.items ≡ trees_behind trees.old.items ++ classes.now) }
{
    for class in classes {
        trees.push(class)?;
    }
    Ok(())
}

/// The classes of all units, in source order.
pub fn class_trees<'a>(alloc: Global, units: &'a [Unit]) -> Result<Vec<&'a ClassTree>, Memory>
    ensures { IfOk result (λ trees. trees_behind trees.items ≡ trees_of units.now) }
{
    let mut trees = Vec::new(alloc);
    for unit in units {
        push_trees(&mut trees, unit.classes.as_slice())?;
    }
    Ok(trees)
}

/// What is known of a class.
fn class_info(alloc: Global, tree: &ClassTree) -> Result<ClassInfo, Memory>
    ensures { IfOk result (λ info. info ≡ class_info tree.now) }
{
    Ok(ClassInfo {
        name: tree.name.clone()?,
        place: tree.place,
        checked: is_checked(tree),
    })
}

/// What is known of these classes.
fn class_infos(alloc: Global, trees: &[&ClassTree]) -> Result<Vec<ClassInfo>, Memory>
    ensures { IfOk result (λ classes. classes.items ≡ map class_info (trees_behind trees.now)) }
{
    let mut classes = Vec::new(alloc);
    for tree in trees {
        classes.push(class_info(alloc, tree)?)?;
    }
    Ok(classes)
}

/// The classes that these trees declare, unless two have the same name.
pub fn classes_of(alloc: Global, trees: &[&ClassTree]) -> Result<Classes, ResolveFault>
    ensures list { IfOk result (λ classes. classes ≡ map class_info (trees_behind trees.now)) }
    ensures ok { IfOk result (λ _. duplicate_class (map class_info (trees_behind trees.now)) ≡ None) }
    ensures err { IfErr result (IsFault (duplicate_class (map class_info (trees_behind trees.now)))) }
{
    let list = class_infos(alloc, trees)?;
    let numbers = class_numbers(alloc, list.as_slice())?;
    Ok(Classes { list, numbers })
}
