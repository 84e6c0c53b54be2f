//! A folder of the file system.
ghost use Rattle.std.specs.Prelude.{◌≡◌, ◌≤◌, IfOk, vec_len};

use racer_base::{Folder, FolderFault, MAX_FOLDER_ENTRIES, MAX_FOLDER_NESTING};
use std::alloc::Global;
use std::fs::{DirEntry, File, FileType, ReadDir};
use std::io::Read;
use std::rt::Files;
use std::{fs, mem};

/// A folder of the file system.
///
/// Its files are the regular files in it and in its subfolders, named relative to it with `/`; symbolic links are
/// left out, and so is what lies behind them. A name that is no UTF-8 is a fault, also that of a link: the runtime is
/// asked by texts alone, so what has such a name cannot be known. More than `MAX_FOLDER_ENTRIES` entries together are
/// a fault, and so are subfolders nested more than `MAX_FOLDER_NESTING` deep. It tells nothing of its files, since
/// others may change them at any time.
#[derive(Drop)]
pub struct DirFolder<R: Files + AllocGlobal + Clone + Drop> {
    rt: R,
    entered: Option<String>,
    faults: u64,
}

impl<R: Files + AllocGlobal + Clone + Drop> DirFolder<R> {
    ghost use Rattle.racer_base.specs.Causes.{IsCause};
    ghost use Rattle.racer_disk.specs.DirFolder.{faults_of};

    /// No folder is entered yet, and to ask for names or bytes before that is a fault.
    pub fn new(rt: R) -> DirFolder<R>
        ensures { faults_of result ≡ 0 }
    {
        DirFolder {
            rt,
            entered: None,
            faults: 0,
        }
    }

    /// Counts a fault, unless memory was refused.
    fn counted(&mut self, fault: FolderFault) -> FolderFault
        ensures { IsCause result self.old.faults self.new.faults }
    {
        if let FolderFault::Failed = fault {
            self.faults = self.faults.saturating_add(1);
        }
        fault
    }

    /// The name of a folder, which is opened to see that it is there.
    fn opened(&self, alloc: Global, name: &str) -> Result<String, FolderFault> {
        fs::read_dir(&self.rt, name).map(mem::drop)?;
        Ok(String::from_str(alloc, name)?)
    }

    /// The names of its files.
    fn listed(&self, alloc: Global) -> Result<Vec<String>, FolderFault> {
        let mut listing = Listing {
            names: Vec::new(alloc),
            folders: Vec::new(alloc),
            entries: 0,
        };
        self.list_all(alloc, &mut listing)?;
        Ok(listing.names)
    }

    /// Lists what stands in it and in its subfolders, each of which is an entry.
    fn list_all(&self, alloc: Global, listing: &mut Listing) -> Result<(), FolderFault> {
        self.list(alloc, "", listing)?;
        for _ in 0..MAX_FOLDER_ENTRIES {
            let Some(folder) = listing.folders.pop() else {
                break;
            };
            self.list(alloc, folder.as_str(), listing)?;
        }
        Ok(())
    }

    /// Lists what stands in a folder itself, whose name ends with `/` unless it is this one.
    fn list(&self, alloc: Global, folder: &str, listing: &mut Listing) -> Result<(), FolderFault> {
        let path = path_of(alloc, &self.entered, folder)?;
        listing.put_all(alloc, folder, &mut fs::read_dir(&self.rt, path.as_str())?)
    }

    /// The first bytes of one of its files.
    fn front_of_file(&self, alloc: Global, name: &str, most: usize) -> Result<Vec<u8>, FolderFault>
        ensures { IfOk result (λ bytes. vec_len bytes ≤ most) }
    {
        if !leads_down(name) {
            return Err(FolderFault::Failed);
        }
        let path = path_of(alloc, &self.entered, name)?;
        let top = path.len().saturating_sub(name.len());
        self.front(alloc, path.as_str(), top, most)
    }

    /// The first bytes of the file of a path, the first bytes of which lead to this folder.
    fn front(
        &self,
        alloc: Global,
        path: &str,
        top: usize,
        most: usize,
    ) -> Result<Vec<u8>, FolderFault>
        ensures { IfOk result (λ bytes. vec_len bytes ≤ most) }
    {
        if !self.is_file(path, top)? {
            return Err(FolderFault::Failed);
        }
        first_bytes(alloc, File::open(&self.rt, path)?, most)
    }

    /// Whether a path is that of a file, and each folder that it leads through behind its first bytes, which lead to
    /// this folder, a subfolder; none is a link.
    fn is_file(&self, path: &str, top: usize) -> Result<bool, FolderFault> {
        if !self.kind(path)?.is_file() {
            return Ok(false);
        }
        let mut rest = path;
        while let Some((folder, _)) = rest.rsplit_once('/') {
            if folder.len() < top {
                break;
            }
            if !self.kind(folder)?.is_dir() {
                return Ok(false);
            }
            rest = folder;
        }
        Ok(true)
    }

    /// What has this path, and a link as what it is itself.
    fn kind(&self, path: &str) -> Result<FileType, FolderFault> {
        match fs::symlink_metadata(&self.rt, path) {
            Ok(metadata) => Ok(metadata.file_type()),
            Err(error) => Err(error.into()),
        }
    }
}

/// The path of what has this relative name in the folder that is entered.
fn path_of(alloc: Global, entered: &Option<String>, name: &str) -> Result<String, FolderFault> {
    let Some(folder) = entered else {
        return Err(FolderFault::Failed);
    };
    Ok(format!(in alloc; "{folder}/{name}")?)
}

/// The first bytes of an open file.
fn first_bytes<F: Read + Drop>(alloc: Global, file: F, most: usize) -> Result<Vec<u8>, FolderFault>
    ensures { IfOk result (λ bytes. vec_len bytes ≤ most) }
{
    let mut bytes = Vec::new(alloc);
    file.take(most as u64).read_to_end(&mut bytes)?;
    bytes.truncate(most);
    Ok(bytes)
}

/// Whether each word of a relative name leads down.
fn leads_down(name: &str) -> bool {
    name.split('/').all(|word| !matches!(word, "" | "." | ".."))
}

/// What was found of a folder so far.
#[derive(Drop)]
struct Listing {
    /// The names of its files.
    names: Vec<String>,
    /// The subfolders that are not listed yet, with a `/` behind each name.
    folders: Vec<String>,
    /// How many files, folders and other entries were met.
    entries: u32,
}

impl Listing {
    /// Puts the entries of a folder, each where it belongs.
    fn put_all<R: Files + AllocGlobal + Clone + Drop>(
        &mut self,
        alloc: Global,
        folder: &str,
        entries: &mut ReadDir<R>,
    ) -> Result<(), FolderFault> {
        for entry in entries {
            self.put(alloc, folder, &entry?)?;
        }
        Ok(())
    }

    /// Puts an entry of a folder, unless there are too many: a file among the names, a subfolder among these with a
    /// `/` behind it, and a link nowhere.
    fn put<R: Files + AllocGlobal + Clone + Drop>(
        &mut self,
        alloc: Global,
        folder: &str,
        entry: &DirEntry<R>,
    ) -> Result<(), FolderFault> {
        if self.entries >= MAX_FOLDER_ENTRIES {
            return Err(FolderFault::Failed);
        }
        self.entries += 1;
        let kind = entry.file_type()?;
        if kind.is_file() {
            put_name(alloc, &mut self.names, folder, entry.file_name(), "")
        } else if kind.is_dir() {
            self.put_folder(alloc, folder, entry.file_name())
        } else {
            Ok(())
        }
    }

    /// Puts a subfolder, unless it is nested too deep.
    fn put_folder(&mut self, alloc: Global, folder: &str, name: &str) -> Result<(), FolderFault> {
        if folder.split('/').count() > MAX_FOLDER_NESTING as usize {
            return Err(FolderFault::Failed);
        }
        put_name(alloc, &mut self.folders, folder, name, "/")
    }
}

/// Puts the relative name of what stands in a folder.
fn put_name(
    alloc: Global,
    names: &mut Vec<String>,
    folder: &str,
    name: &str,
    end: &str,
) -> Result<(), FolderFault> {
    let name = format!(in alloc; "{folder}{name}{end}")?;
    Ok(names.push(name)?)
}

impl<R: Files + AllocGlobal + Clone + Drop> Folder for DirFolder<R> {
    ghost use Rattle.std.specs.Prelude.{None};
    ghost use Rattle.racer_disk.specs.DirFolder.{faults_of};

    ghost faults = { faults_of };

    ghost told = { λ _. None };

    ghost steady = { λ _. ⊥ };

    fn enter(&mut self, alloc: Global, name: &str) -> Result<(), FolderFault> {
        match self.opened(alloc, name) {
            Ok(folder) => {
                self.entered = Some(folder);
                Ok(())
            }
            Err(fault) => Err(self.counted(fault)),
        }
    }

    fn names(&mut self, alloc: Global) -> Result<Vec<String>, FolderFault> {
        match self.listed(alloc) {
            Ok(names) => Ok(names),
            Err(fault) => Err(self.counted(fault)),
        }
    }

    fn read(&mut self, alloc: Global, name: &str, most: usize) -> Result<Vec<u8>, FolderFault> {
        match self.front_of_file(alloc, name, most) {
            Ok(bytes) => Ok(bytes),
            Err(fault) => Err(self.counted(fault)),
        }
    }
}
