//! Values of a report's object, each put behind a text with what stands before it: a name, a comma or nothing.
ghost use Rattle.std.specs.Prelude.{◌≡◌, ◌++◌, IfOk, false, map, string_bytes};
ghost use Rattle.serde_json.specs.Data.{boolean, string};
ghost use Rattle.serde_json.specs.Written.{comma_if, compact_text};
ghost use Rattle.core_code.specs.Core.{method_of};
ghost use Rattle.core_code.specs.Program.{core};
ghost use Rattle.race_report_parts.specs.Sites.{AreSites};
ghost use Rattle.race_report_parts.specs.Texts as parts;
ghost use Rattle.race_report_parts.specs.Told as told;
ghost use Rattle.race_report_parts.specs.Written.{Puts};
ghost use Rattle.race_report_parts.specs.Pieces as pieces;

use crate::texts::class_name;
use crate::{
    Site, Written, place_at, push_access, push_method, push_path, push_place, push_text, push_value,
};
use access_domain::Access;
use access_paths::Path;
use core_code::{MethodCore, Program};
use owner_domain::Value as Returned;
use racer_base::{ClassId, Memory, Place};
use serde_json::Value;
use std::alloc::Global;

/// A comma, where a value stands before.
pub(crate) fn comma(later: bool) -> &'static str
    ensures { result.now ≡ comma_if later }
{
    if later { "," } else { "" }
}

/// A comma, where a value stands before.
pub(crate) fn push_comma(text: &mut Written, later: bool)
    ensures { Puts (comma_if later) text.old text.new }
{
    push_text(text, comma(later))
}

fn flag_text(flag: bool) -> &'static str
    ensures { result.now ≡ compact_text (boolean flag) }
{
    if flag { "true" } else { "false" }
}

/// `true` or `false`
pub(crate) fn push_flag(text: &mut Written, before: &str, flag: bool)
    ensures { Puts (before.now ++ compact_text (boolean flag)) text.old text.new }
{
    push_text(text, before);
    push_text(text, flag_text(flag))
}

/// A text between quotes.
fn quoted(alloc: Global, text: &str) -> Result<String, Memory>
    ensures { IfOk result (λ quoted. string_bytes quoted ≡ compact_text (string text.now)) }
{
    Ok(Value::try_from_str(alloc, text)?.to_string(alloc)?)
}

/// A text.
pub(crate) fn push_string(text: &mut Written, before: &str, piece: &str)
    ensures { Puts (before.now ++ compact_text (string piece.now)) text.old text.new }
{
    push_text(text, before);
    match quoted(text.alloc, piece) {
        Ok(quoted) => push_text(text, quoted.as_str()),
        Err(_) => text.is_cut = true,
    }
}

/// A text that was written.
pub(crate) fn push_written(text: &mut Written, before: &str, inner: &Written)
    ensures inner { text.new.is_cut ≡ false → inner.now.is_cut ≡ false }
    ensures puts { Puts (before.now ++ compact_text (string (string_bytes inner.now.so_far))) text.old text.new }
{
    if inner.is_cut {
        text.is_cut = true;
        return;
    }
    push_string(text, before, inner.so_far.as_str())
}

/// `FILE:LINE:COLUMN`
pub(crate) fn push_place_string(text: &mut Written, before: &str, program: &Program, place: Place)
    ensures { Puts (before.now ++ compact_text (string (parts.place_text (core program.now) place)))
        text.old text.new }
{
    let mut inner = Written::new(text.alloc);
    push_place(&mut inner, program, place);
    push_written(text, before, &inner)
}

/// `CLASS.NAME/PARAMETERS`
pub(crate) fn push_method_string(
    text: &mut Written,
    before: &str,
    program: &Program,
    method: &MethodCore,
)
    ensures { Puts (before.now ++ pieces.method_string (core program.now) (method_of method.now))
        text.old text.new }
{
    let mut inner = Written::new(text.alloc);
    push_method(&mut inner, program, method);
    push_written(text, before, &inner)
}

/// The name of a class.
pub(crate) fn push_class_string(text: &mut Written, before: &str, program: &Program, class: ClassId)
    ensures { Puts (before.now ++ pieces.class_string (core program.now) class) text.old text.new }
{
    push_string(text, before, class_name(program, class))
}

pub(crate) fn push_path_string(text: &mut Written, before: &str, program: &Program, path: &Path)
    ensures { Puts (before.now ++ compact_text (string (parts.path_text (core program.now) path.now)))
        text.old text.new }
{
    let mut inner = Written::new(text.alloc);
    push_path(&mut inner, program, path);
    push_written(text, before, &inner)
}

/// What a method returns.
pub(crate) fn push_result_string(
    text: &mut Written,
    before: &str,
    program: &Program,
    returned: &Returned,
)
    ensures { Puts (before.now ++ compact_text (string (parts.value_text (core program.now) returned.now)))
        text.old text.new }
{
    let mut inner = Written::new(text.alloc);
    push_value(&mut inner, program, returned);
    push_written(text, before, &inner)
}

/// `RECORD at LINE:COLUMN`
fn push_access_string(
    text: &mut Written,
    before: &str,
    program: &Program,
    sites: &[Vec<Site>],
    number: usize,
    access: &Access,
)
    requires { AreSites (core program.now) sites.now }
    ensures { Puts (before.now
        ++ compact_text (string (told.access_text (core program.now) (record { 0 = number }) access.now)))
        text.old text.new }
{
    let mut inner = Written::new(text.alloc);
    let place = place_at(program, sites, number, access.site);
    push_access(&mut inner, program, access, place);
    push_written(text, before, &inner)
}

/// An array of places.
pub(crate) fn push_place_strings(
    text: &mut Written,
    before: &str,
    program: &Program,
    places: &[Place],
)
    ensures { Puts (before.now ++ pieces.places_strings (core program.now) places.now) text.old text.new }
{
    push_text(text, before);
    push_text(text, "[");
    let mut later = false;
    for place in places {
        push_place_string(text, comma(later), program, *place);
        later = true;
    }
    push_text(text, "]")
}

/// An array of the records of a method.
pub(crate) fn push_access_strings(
    text: &mut Written,
    before: &str,
    program: &Program,
    sites: &[Vec<Site>],
    number: usize,
    accesses: &[Access],
)
    requires { AreSites (core program.now) sites.now }
    ensures { Puts (before.now ++ pieces.records_strings (core program.now) number accesses.now)
        text.old text.new }
{
    push_text(text, before);
    push_text(text, "[");
    let mut later = false;
    for access in accesses {
        push_access_string(text, comma(later), program, sites, number, access);
        later = true;
    }
    push_text(text, "]")
}

/// An array of texts.
pub(crate) fn push_strings(text: &mut Written, before: &str, strings: &[String])
    ensures { Puts (before.now ++ pieces.strings (map string_bytes strings.now)) text.old text.new }
{
    push_text(text, before);
    push_text(text, "[");
    let mut later = false;
    for string in strings {
        push_string(text, comma(later), string.as_str());
        later = true;
    }
    push_text(text, "]")
}
