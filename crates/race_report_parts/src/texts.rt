//! The texts of places, methods, paths, records and values, put behind a text.
ghost use Rattle.std.specs.Prelude.{◌≡◌, ◌++◌, [], codes, if◌then◌else◌};
ghost use Rattle.std.specs.Fmt.{decimal};
ghost use Rattle.core_code.specs.Core.{method_of};
ghost use Rattle.core_code.specs.Program.{core};
ghost use Rattle.access_paths.specs.Text as paths;
ghost use Rattle.race_report_parts.specs.Texts as said;
ghost use Rattle.race_report_parts.specs.Told as told;
ghost use Rattle.race_report_parts.specs.Written.{Puts};

use crate::written::{Written, push_count, push_number, push_space, push_text};
use access_domain::Access;
use access_paths::{Path, Root};
use core_code::{MethodCore, Program, Reason};
use owner_domain::Value;
use racer_base::{ClassId, FieldId, Place, Text, Touch};

/// The name of this number, empty where there is none.
fn name_at(names: &[Text], number: u32) -> &str
    ensures { result.now ≡ paths.name_at names.now number }
{
    match names.get(number as usize) {
        None => "",
        Some(name) => name.as_str(),
    }
}

/// The name of a class, empty where there is none of this number.
pub fn class_name(program: &Program, class: ClassId) -> &str
    ensures { result.now ≡ paths.name_at (said.class_names (core program.now)) class.0 }
{
    match program.classes().get(class.0 as usize) {
        None => "",
        Some(class) => class.name.as_str(),
    }
}

fn field_name(program: &Program, field: FieldId) -> &str
    ensures { result.now ≡ paths.name_at (said.field_names (core program.now)) field.0 }
{
    match program.fields().get(field.0 as usize) {
        None => "",
        Some(field) => field.name.as_str(),
    }
}

/// Puts a colon behind a text.
fn push_colon(text: &mut Written)
    ensures { Puts (codes ":") text.old text.new }
{
    push_text(text, ":")
}

/// Puts a point behind a text.
fn push_point(text: &mut Written)
    ensures { Puts (codes ".") text.old text.new }
{
    push_text(text, ".")
}

/// Puts `LINE:COLUMN` behind a text.
pub fn push_line(text: &mut Written, place: Place)
    ensures { Puts (said.line_text place) text.old text.new }
{
    push_number(text, place.line);
    push_colon(text);
    push_number(text, place.column)
}

/// Puts `FILE:LINE:COLUMN` behind a text.
pub fn push_place(text: &mut Written, program: &Program, place: Place)
    ensures { Puts (said.place_text (core program.now) place) text.old text.new }
{
    push_text(text, name_at(program.files(), place.file.0));
    push_colon(text);
    push_line(text, place)
}

/// Puts `CLASS.NAME/PARAMETERS` behind a text.
pub fn push_method(text: &mut Written, program: &Program, method: &MethodCore)
    ensures { Puts (said.method_text (core program.now) (method_of method.now)) text.old text.new }
{
    push_text(text, class_name(program, method.class));
    push_point(text);
    push_text(text, method.name.as_str());
    push_text(text, "/");
    push_count(text, method.parameters.len())
}

/// Puts `#` and a number behind a text.
pub(crate) fn push_formal(text: &mut Written, number: u32)
    ensures { Puts (codes "#" ++ decimal number) text.old text.new }
{
    push_text(text, "#");
    push_number(text, number)
}

/// Puts `some` and the name of a class behind a text.
fn push_some(text: &mut Written, class: &str)
    ensures { Puts (codes "some " ++ class.now) text.old text.new }
{
    push_text(text, "some ");
    push_text(text, class)
}

/// Puts `this`, a class's name, `#i` or `some C` behind a text.
fn push_root(text: &mut Written, program: &Program, root: Root)
    ensures { Puts (paths.root_text (said.class_names (core program.now)) root) text.old text.new }
{
    match root {
        Root::This => push_text(text, "this"),
        Root::Class(class) => push_text(text, class_name(program, class)),
        Root::Formal(number) => push_formal(text, number),
        Root::Some(class) => push_some(text, class_name(program, class)),
    }
}

/// Puts `.f` for each of these fields behind a text.
pub(crate) fn push_fields(text: &mut Written, program: &Program, fields: &[FieldId])
    ensures { Puts (paths.fields_text (said.field_names (core program.now)) fields.now) text.old text.new }
{
    for field in fields {
        push_point(text);
        push_text(text, field_name(program, *field));
    }
}

/// Puts a root and `.f` for each field behind a text.
pub fn push_path(text: &mut Written, program: &Program, path: &Path)
    ensures { Puts (said.path_text (core program.now) path.now) text.old text.new }
{
    push_root(text, program, path.root);
    push_fields(text, program, path.fields.as_slice())
}

pub fn touch_text(kind: Touch) -> &'static str
    ensures { result.now ≡ said.touch_text kind }
{
    match kind {
        Touch::Read => "read",
        Touch::Write => "write",
    }
}

fn locked_text(locked: bool) -> &'static str
    ensures { result.now ≡ (if locked then codes " locked" else []) }
{
    if locked { " locked" } else { "" }
}

fn main_text(main: bool) -> &'static str
    ensures { result.now ≡ (if main then codes " main" else []) }
{
    if main { " main" } else { "" }
}

/// Puts `KIND PATH`, and then `locked` and `main` where the record is, behind a text.
pub fn push_record(text: &mut Written, program: &Program, access: &Access)
    ensures { Puts (said.record_text (core program.now) access.now) text.old text.new }
{
    push_text(text, touch_text(access.kind));
    push_space(text);
    push_path(text, program, &access.path);
    push_text(text, locked_text(access.locked));
    push_text(text, main_text(access.main))
}

/// Puts ` at LINE:COLUMN` behind a text, nothing where there is no place.
fn push_site(text: &mut Written, place: Option<Place>)
    ensures { Puts (told.site_text place) text.old text.new }
{
    match place {
        None => {}
        Some(place) => {
            push_text(text, " at ");
            push_line(text, place)
        }
    }
}

/// Puts `RECORD at LINE:COLUMN` behind a text; the place is that of the record's site.
pub fn push_access(text: &mut Written, program: &Program, access: &Access, site: Option<Place>)
    ensures { Puts (said.record_text (core program.now) access.now ++ told.site_text site) text.old text.new }
{
    push_record(text, program, access);
    push_site(text, site)
}

/// Puts what a method returns behind a text.
pub fn push_value(text: &mut Written, program: &Program, value: &Value)
    ensures { Puts (said.value_text (core program.now) value.now) text.old text.new }
{
    match value {
        Value::Owned => push_text(text, "owned"),
        Value::Unnamed => push_text(text, "unnamed"),
        Value::Named(path) => push_path(text, program, path),
    }
}

/// Why a method is not analysed.
pub(crate) fn reason_text(reason: Reason) -> &'static str
    ensures { result.now ≡ said.reason_text reason }
{
    match reason {
        Reason::Overload => "overload",
        Reason::Outside => "outside",
        Reason::Parameters => "parameters",
        Reason::Locals => "locals",
        Reason::Operations => "operations",
        Reason::Recursive => "recursive",
    }
}
