//! The texts of wobbly paths.
ghost use Rattle.std.specs.Prelude.{◌≡◌, IfOk, IfSome, Some, map, option_map, string_bytes};
ghost use Rattle.core_code.specs.Program.{core};
ghost use Rattle.access_domain.specs.Findings.{summary_from};
ghost use Rattle.race_report_parts.specs.Texts as said;
ghost use Rattle.race_report_parts.specs.Told as told;

use crate::texts::push_path;
use crate::written::Written;
use access_domain::Summary;
use access_paths::Path;
use core_code::Program;
use racer_base::Memory;
use std::alloc::Global;

/// The text of a path.
fn path_text(alloc: Global, program: &Program, path: &Path) -> Result<String, Memory>
    ensures { IfOk result (λ text. string_bytes text ≡ said.path_text (core program.now) path.now) }
{
    let mut text = Written::new(alloc);
    push_path(&mut text, program, path);
    text.finished()
}

/// The texts of paths, in order.
fn path_texts(alloc: Global, program: &Program, paths: &[Path]) -> Result<Vec<String>, Memory>
    ensures { IfOk result (λ texts. map string_bytes texts.items ≡ map (said.path_text (core program.now)) paths.now) }
{
    let mut texts = Vec::new(alloc);
    for path in paths {
        texts.push(path_text(alloc, program, path)?)?;
    }
    Ok(texts)
}

/// The texts of the wobbly paths of the summary of a method, in byte order.
pub fn wobbly_texts(
    alloc: Global,
    program: &Program,
    number: usize,
    summary: &Summary,
) -> Result<Vec<String>, Memory>
    requires { option_map summary_from (told.found_of (core program.now) (record { 0 = number })) ≡ Some summary.now }
    ensures { IfOk result (λ texts. IfSome (told.found_of (core program.now) (record { 0 = number })) (λ found.
        map string_bytes texts.items ≡ told.wobbly_texts (core program.now) found)) }
{
    let paths = summary.wobbly.paths(alloc)?;
    let mut texts = path_texts(alloc, program, paths.as_slice())?;
    texts.sort()?;
    Ok(texts)
}
