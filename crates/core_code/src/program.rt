//! A program, whose type keeps what holds of its parts.
ghost use Rattle.std.specs.Prelude.{IsTrue};
ghost use Rattle.core_code.specs.Core.{core_of};
ghost use Rattle.core_code.specs.Facts.{are_numbers_in_range, are_sites_in_order, are_entries_analysed};
ghost use Rattle.core_code.specs.Facts.{are_stacks_enough, are_parameters_few};
ghost use Rattle.core_code.specs.CallFacts.{do_end_by_return, are_calls_right, has_ranks};
ghost use Rattle.core_code.specs.KindCheck.{are_kinded};
ghost use Rattle.core_code.specs.Names.{are_names_right, do_classes_differ, do_fields_differ, do_methods_differ};

use crate::{ClassCore, FieldCore, MethodCore, Parts};
use racer_base::{ClassId, FieldId, Names, Place, Text};

/// A program.
#[derive(Drop)]
pub struct Program {
    parts: Parts,
    pub ghost numbers_in_range: { IsTrue (are_numbers_in_range (core_of parts)) },
    pub ghost sites_in_order: { IsTrue (are_sites_in_order (core_of parts)) },
    pub ghost entries_analysed: { IsTrue (are_entries_analysed (core_of parts)) },
    pub ghost stacks_enough: { IsTrue (are_stacks_enough (core_of parts)) },
    pub ghost ends_by_return: { IsTrue (do_end_by_return (core_of parts)) },
    pub ghost calls_right: { IsTrue (are_calls_right (core_of parts)) },
    pub ghost ranks_there: { IsTrue (has_ranks (core_of parts)) },
    pub ghost kinded: { IsTrue (are_kinded (core_of parts)) },
    pub ghost names_right: { IsTrue (are_names_right (core_of parts)) },
    pub ghost classes_differ: { IsTrue (do_classes_differ (core_of parts)) },
    pub ghost fields_differ: { IsTrue (do_fields_differ (core_of parts)) },
    pub ghost methods_differ: { IsTrue (do_methods_differ (core_of parts)) },
    pub ghost parameters_few: { IsTrue (are_parameters_few (core_of parts)) },
}

impl Program {
    ghost use Rattle.std.specs.Prelude.{◌≡◌, map, IsTrue};
    ghost use Rattle.core_code.specs.Core.{core_of, method_of};
    ghost use Rattle.core_code.specs.Program.{core, files, skipped, classes, fields, methods};
    ghost use Rattle.core_code.specs.Facts.{are_numbers_in_range, are_sites_in_order, are_entries_analysed};
    ghost use Rattle.core_code.specs.Facts.{are_stacks_enough, are_parameters_few};
    ghost use Rattle.core_code.specs.CallFacts.{do_end_by_return, are_calls_right, has_ranks};
    ghost use Rattle.core_code.specs.KindCheck.{are_kinded};
    ghost use Rattle.core_code.specs.Names.{are_names_right, do_classes_differ, do_fields_differ, do_methods_differ};

    /// Makes a program of its parts, without taking memory.
    pub fn of(parts: Parts) -> Program
        requires numbers_in_range { IsTrue (are_numbers_in_range (core_of parts)) }
        requires sites_in_order { IsTrue (are_sites_in_order (core_of parts)) }
        requires entries_analysed { IsTrue (are_entries_analysed (core_of parts)) }
        requires stacks_enough { IsTrue (are_stacks_enough (core_of parts)) }
        requires ends_by_return { IsTrue (do_end_by_return (core_of parts)) }
        requires calls_right { IsTrue (are_calls_right (core_of parts)) }
        requires ranks_there { IsTrue (has_ranks (core_of parts)) }
        requires kinded { IsTrue (are_kinded (core_of parts)) }
        requires names_right { IsTrue (are_names_right (core_of parts)) }
        requires classes_differ { IsTrue (do_classes_differ (core_of parts)) }
        requires fields_differ { IsTrue (do_fields_differ (core_of parts)) }
        requires methods_differ { IsTrue (do_methods_differ (core_of parts)) }
        requires parameters_few { IsTrue (are_parameters_few (core_of parts)) }
        ensures { core result ≡ core_of parts }
    {
        Program { parts }
    }

    /// The names of the source files, in byte order.
    pub fn files(&self) -> &[Text]
        ensures { result.now ≡ files self.now }
    {
        self.parts.files.as_slice()
    }

    /// The places of types and members that are not read, in source order.
    pub fn skipped(&self) -> &[Place]
        ensures { result.now ≡ skipped self.now }
    {
        self.parts.skipped.as_slice()
    }

    /// The classes, in source order.
    pub fn classes(&self) -> &[ClassCore]
        ensures { result.now ≡ classes self.now }
    {
        self.parts.classes.as_slice()
    }

    /// The fields of all classes, in source order.
    pub fn fields(&self) -> &[FieldCore]
        ensures { result.now ≡ fields self.now }
    {
        self.parts.fields.as_slice()
    }

    /// The methods of all classes, in source order.
    pub fn methods(&self) -> &[MethodCore]
        ensures { map method_of result.now ≡ methods self.now }
    {
        self.parts.methods.as_slice()
    }
}

impl Names for Program {
    ghost use Rattle.std.specs.Prelude.{map};
    ghost use Rattle.core_code.specs.Program.{class_names, field_names};

    ghost class_names = { class_names };

    ghost field_names = { field_names };

    fn class_name(&self, c: ClassId) -> &str {
        self.parts.classes.as_slice()[c.0 as usize].name.as_str()
    }

    fn field_name(&self, f: FieldId) -> &str {
        self.parts.fields.as_slice()[f.0 as usize].name.as_str()
    }
}
