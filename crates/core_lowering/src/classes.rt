//! Classes and names of files.
ghost use Rattle.std.specs.Prelude.{◌≡◌, IfOk, map};
ghost use Rattle.std.specs.String.{string_bytes};
ghost use Rattle.core_lowering_rules.specs.Programs.{class_core};

use core_code::ClassCore;
use java_resolver::ClassInfo;
use racer_base::{Items, Memory, Text};
use std::alloc::Global;

/// The names of files.
pub(crate) fn file_names(alloc: Global, files: &[String]) -> Result<Items<Text>, Memory>
    ensures { IfOk result (λ names. names ≡ map (λ file. string_bytes file) files.now) }
{
    let mut names = Items::new(alloc);
    for file in files {
        names.push(Text::from_str(alloc, file.as_str())?)?;
    }
    Ok(names)
}

fn class(alloc: Global, info: &ClassInfo) -> Result<ClassCore, Memory>
    ensures { IfOk result (λ class. class ≡ class_core info.now) }
{
    Ok(ClassCore {
        name: Text::from_str(alloc, info.name.as_str())?,
        place: info.place,
        checked: info.checked,
    })
}

/// The classes, without what stands in them.
pub(crate) fn classes(alloc: Global, infos: &[ClassInfo]) -> Result<Items<ClassCore>, Memory>
    ensures { IfOk result (λ classes. classes ≡ map class_core infos.now) }
{
    let mut classes = Items::new(alloc);
    for info in infos {
        classes.push(class(alloc, info)?)?;
    }
    Ok(classes)
}
