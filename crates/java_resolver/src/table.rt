//! The table of names.
ghost use Rattle.std.specs.Prelude.{◌≡◌, IfOk, IfErr, None};
ghost use Rattle.java_resolver.specs.Declarations.{classes_of, fields_of, methods_of};
ghost use Rattle.java_resolver.specs.Refusals.{refusal};
ghost use Rattle.java_resolver.specs.Faults.{IsFault};
ghost use Rattle.java_resolver.specs.Table as table;

use crate::classes::{Classes, class_trees, classes_of};
use crate::fault::ResolveFault;
use crate::fields::{Fields, fields_of};
use crate::hidden::Hidden;
use crate::infos::{ClassInfo, FieldInfo, MethodInfo};
use crate::kinds::{class_seen, kind_of, variable_kind};
use crate::methods::{Methods, methods_of};
use crate::scope::VariableKind;
use java_tree::{TypeTree, Unit};
use racer_base::{ClassId, FieldId, Kind, MethodId};
use std::alloc::Global;

/// The classes, fields and methods of a folder, each found by its name.
#[derive(Drop)]
pub struct Table {
    classes: Classes,
    fields: Fields,
    methods: Methods,
}

impl Table {
    ghost use Rattle.std.specs.Prelude.{◌≡◌, option_copied};
    ghost use Rattle.java_tree.specs.View.{ty_of};
    ghost use Rattle.java_resolver.specs.Declarations.{class_names};
    ghost use Rattle.java_resolver.specs.Hidden.{hidden_by};
    ghost use Rattle.java_resolver.specs.TypeKinds.{class_seen, kind_of, variable_kind};
    ghost use Rattle.java_resolver.specs.Meanings.{exactly_found, found, field_named};
    ghost use Rattle.java_resolver.specs.Table.{classes, fields, methods};

    /// The classes, in source order.
    pub fn classes(&self) -> &[ClassInfo]
        ensures { result.now ≡ classes self.now }
    {
        self.classes.as_slice()
    }

    /// The fields of all classes, in source order.
    pub fn fields(&self) -> &[FieldInfo]
        ensures { result.now ≡ fields self.now }
    {
        self.fields.as_slice()
    }

    /// The methods of all classes, in source order, with a constructor `<new>` for each class that declares none.
    pub fn methods(&self) -> &[MethodInfo]
        ensures { result.now ≡ methods self.now }
    {
        self.methods.as_slice()
    }

    /// The class of a name, where some names mean none.
    pub fn class_named(&self, hidden: Option<&Hidden>, name: &str) -> Option<ClassId>
        ensures { result ≡ class_seen (hidden_by (option_copied hidden.entry)) (class_names (classes self.now))
            name.now }
    {
        class_seen(hidden, &self.classes, name)
    }

    /// The field of a class by its name; where a static one is asked for, a static one.
    pub fn field_named(&self, c: ClassId, in_static: bool, name: &str) -> Option<FieldId>
        ensures { result ≡ field_named (fields self.now) c in_static name.now }
    {
        self.fields.named(c, in_static, name)
    }

    /// The kind of a type, where some names mean no class.
    pub fn type_kind(&self, hidden: Option<&Hidden>, tree: &TypeTree) -> Kind
        ensures { result ≡ kind_of (hidden_by (option_copied hidden.entry)) (class_names (classes self.now))
            (ty_of tree.now) }
    {
        kind_of(hidden, &self.classes, tree)
    }

    /// What is known of a variable of this type, with so many `[ ]` behind its name, where some names mean no class.
    pub fn variable_kind(
        &self,
        hidden: Option<&Hidden>,
        tree: &TypeTree,
        further: u32,
    ) -> VariableKind
        ensures { result ≡ variable_kind (hidden_by (option_copied hidden.entry)) (class_names (classes self.now))
            (ty_of tree.now) further }
    {
        variable_kind(hidden, &self.classes, tree, further)
    }

    /// The method or constructor of a class by its name, `<new>` for a constructor, and its number of parameters.
    pub fn find_exactly(&self, c: ClassId, name: &str, count: u32) -> Option<MethodId>
        ensures { result ≡ exactly_found (methods self.now) c name.now count }
    {
        self.methods.exactly_named(c, name, count)
    }

    /// The method or constructor of a class that a call of its name, `<new>` for a constructor, with so many arguments
    /// means: one of so many parameters, else one whose last parameter takes any number (JLS 15.12.2).
    pub fn find(&self, c: ClassId, name: &str, count: u32) -> Option<MethodId>
        ensures { result ≡ found (methods self.now) c name.now count }
    {
        self.methods.named(c, name, count)
    }
}

/// The table of these units, which are those of the files of a folder, in order.
pub fn resolve(alloc: Global, units: &[Unit]) -> Result<Table, ResolveFault>
    ensures classes { IfOk result (λ t. table.classes t ≡ classes_of units.now) }
    ensures fields { IfOk result (λ t. table.fields t ≡ fields_of units.now) }
    ensures methods { IfOk result (λ t. table.methods t ≡ methods_of units.now) }
    ensures ok { IfOk result (λ _. refusal units.now ≡ None) }
    ensures err { IfErr result (IsFault (refusal units.now)) }
{
    let gathered = class_trees(alloc, units)?;
    let trees = gathered.as_slice();
    let classes = classes_of(alloc, trees)?;
    let fields = fields_of(alloc, &classes, trees)?;
    let methods = methods_of(alloc, &classes, trees)?;
    Ok(Table {
        classes,
        fields,
        methods,
    })
}
