//! The folder.
ghost use Rattle.std.specs.Prelude.{◌≡◌, ◌≤◌, codes, IfOk, Some, map, string_bytes};
ghost use Rattle.std.specs.FinMap.{from_entries};
ghost use Rattle.racer_memory.specs.MemoryFolder.{IsSteady, told_of};
ghost use Rattle.folder_maker.specs.Folders as made;

use crate::classes::{class_text, file_name};
use racer_base::Memory;
use racer_memory::MemoryFolder;
use std::alloc::Global;

/// The names and the bytes of the files.
fn made_files(alloc: Global, number: u32) -> Result<Vec<(String, Vec<u8>)>, Memory>
    requires { number ≤ 800 }
    ensures { IfOk result (λ files. map (λ file. (string_bytes file.0, file.1.items)) files.items
        ≡ made.made_files number) }
{
    let mut files = Vec::new(alloc);
    for k in 0..number {
        let name = file_name(alloc, k)?;
        let text = class_text(alloc, number, k)?;
        files.push((name, text.into_bytes()))?;
    }
    Ok(files)
}

/// The folder of this number of classes, whose name is `made`. No call on it fails. The files of 800 classes have some
/// 240 kB together.
#[tactic(auto, using(crate::proofs::Names::made_names_differ))]
pub fn made(alloc: Global, number: u32) -> Result<MemoryFolder, Memory>
    requires { number ≤ 800 }
    ensures told { IfOk result (λ folder. told_of folder
        ≡ Some (record { name = codes "made"; files = from_entries (made.made_files number) })) }
    ensures steady { IfOk result IsSteady }
{
    let name = String::from_str(alloc, "made")?;
    let files = made_files(alloc, number)?;
    Ok(MemoryFolder::new(name, files, Vec::new(alloc)))
}
