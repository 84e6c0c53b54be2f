//! A folder in memory.
ghost use Rattle.std.specs.Prelude.{◌≡◌, ℕ, ◌≤◌, IsTrue, ◌↔◌, map, string_bytes, take, true, Some, IfOk, IfErr};
ghost use Rattle.std.specs.Prelude.{IfSome, OnOk, MatchResult, option_map, vec_len, if◌then◌else◌, Ok, Err};
ghost use Rattle.std.specs.List.{IsDistinct};
ghost use Rattle.std.specs.FinMap as finite;
ghost use Rattle.std.proofs.lemmas.Map.Keys.{IsDistinct-prop};
ghost use Rattle.racer_base.specs.Outside.{same_name, AreNames, IsRise};
ghost use Rattle.racer_base.specs.Causes.{IsCause};
ghost use Rattle.racer_memory.specs.FileList.{names_of, files_of};
ghost use Rattle.racer_memory.specs.Failing.{has_failed, risen};

use crate::failing::Failing;
use racer_base::{Folder, FolderFault};
use std::alloc::{AllocError, Global};

/// The bytes of the first of these files that has this name.
fn find<'a>(files: &'a [(String, Vec<u8>)], name: &str) -> Option<&'a Vec<u8>>
    ensures { option_map (λ bytes. bytes.now.items) result ≡ finite.get (files_of files.now) name.now }
{
    for file in files {
        if name == file.0.as_str() {
            return Some(&file.1);
        }
    }
    None
}

/// A folder in memory, with a name and files of different names.
///
/// The calls of `enter`, `names` and `read` whose numbers, counted together from 0, stand in `failing` fail.
/// Beside these `enter` of another name and `read` of a name that is not there fail, and no other call.
#[derive(Drop)]
pub struct MemoryFolder {
    name: String,
    files: Vec<(String, Vec<u8>)>,
    failing: Failing,
    faults: u64,
    ghost each_once: { IsDistinct same_name (names_of files.items) } by { IsDistinct-prop same_name _ },
}

impl MemoryFolder {
    ghost use Rattle.racer_memory.specs.MemoryFolder.{told_of, meaning_of, faults_of, call_of, failing_of};

    /// The names of the files differ, which `names_differ` tests.
    pub fn new(name: String, files: Vec<(String, Vec<u8>)>, failing: Vec<u32>) -> MemoryFolder
        requires { IsDistinct same_name (names_of files.items) }
        ensures told { told_of result ≡ Some (record { name = string_bytes name; files = files_of files.items }) }
        ensures faults { faults_of result ≡ 0 }
        ensures call { call_of result ≡ 0 }
        ensures failing { failing_of result ≡ failing.items }
    {
        MemoryFolder {
            name,
            files,
            failing: Failing::new(failing),
            faults: 0,
        }
    }

    /// Whether no two of these files have one name.
    pub fn names_differ(files: &[(String, Vec<u8>)]) -> bool
        ensures { IsTrue result ↔ IsDistinct same_name (names_of files.now) }
    {
        for (i, file) in files.iter().enumerate() {
            if find(&files[..i], file.0.as_str()).is_some() {
                return false;
            }
        }
        true
    }

    /// The names of its files.
    fn all_names(&self, alloc: Global) -> Result<Vec<String>, AllocError>
        ensures { IfOk result (λ names. map string_bytes names.items ≡ names_of self.now.files.items) }
    {
        let mut names = Vec::new(alloc);
        for file in &self.files {
            names.push(file.0.clone()?)?;
        }
        Ok(names)
    }

    /// Whether this is its name.
    fn has_name(&self, name: &str) -> bool
        ensures same { result ≡ same_name name.now (string_bytes self.now.name) }
        ensures exact { IsTrue result ↔ (name.now ≡ string_bytes self.now.name) }
    {
        name == self.name.as_str()
    }
}

impl Folder for MemoryFolder {
    ghost use Rattle.racer_memory.specs.MemoryFolder.{told_of, meaning_of, faults_of, call_of, failing_of, IsSteady};
    ghost use Rattle.racer_memory.specs.MemoryFolder.{fails_next, fails_to_enter, fails_to_read, IsOneCall};

    ghost faults = { faults_of };

    ghost told = { told_of };

    ghost steady = { IsSteady };

    fn enter(&mut self, _alloc: Global, name: &str) -> Result<(), FolderFault>
        // What each folder keeps.
        ensures count { MatchResult result
            (λ _. faults_of self.new ≡ faults_of self.old)
            (λ fault. IsCause fault (faults_of self.old) (faults_of self.new)) }
        ensures told { told_of self.new ≡ told_of self.old }
        ensures entered { OnOk result (IfSome (told_of self.old) (λ t. name.now ≡ t.name)) }
        ensures steady { IsSteady self.old → IfSome (told_of self.old)
            (λ t. name.now ≡ t.name → IfErr result (λ fault. fault ≡ FolderFault.Memory)) }
        ensures stays { IsSteady self.old → IsSteady self.new }

        // It fails exactly so, and takes no memory.
        ensures failed { result
            ≡ (if fails_to_enter self.old name.now then Err FolderFault.Failed else Ok tt) }
        ensures call { IsOneCall self.old self.new (has_failed result) }
    {
        if self.failing.fails() || !self.has_name(name) {
            self.faults = self.faults.saturating_add(1);
            return Err(FolderFault::Failed);
        }
        Ok(())
    }

    fn names(&mut self, alloc: Global) -> Result<Vec<String>, FolderFault>
        // What each folder keeps.
        ensures count { MatchResult result
            (λ _. faults_of self.new ≡ faults_of self.old)
            (λ fault. IsCause fault (faults_of self.old) (faults_of self.new)) }
        ensures told { told_of self.new ≡ told_of self.old }
        ensures names { IfOk result (λ names. IfSome (told_of self.old)
            (λ t. AreNames t.files (map string_bytes names.items))) }
        ensures steady { IsSteady self.old → IfErr result (λ fault. fault ≡ FolderFault.Memory) }
        ensures stays { IsSteady self.old → IsSteady self.new }

        // It fails exactly so.
        ensures failed { has_failed result ≡ fails_next self.old }
        ensures call { IsOneCall self.old self.new (has_failed result) }
    {
        if self.failing.fails() {
            self.faults = self.faults.saturating_add(1);
            return Err(FolderFault::Failed);
        }
        Ok(self.all_names(alloc)?)
    }

    fn read(&mut self, alloc: Global, name: &str, most: usize) -> Result<Vec<u8>, FolderFault>
        // What each folder keeps.
        ensures count { MatchResult result
            (λ _. faults_of self.new ≡ faults_of self.old)
            (λ fault. IsCause fault (faults_of self.old) (faults_of self.new)) }
        ensures told { told_of self.new ≡ told_of self.old }
        ensures most { IfOk result (λ bytes. vec_len bytes ≤ most) }
        ensures bytes { IfOk result (λ bytes. IfSome (told_of self.old)
            (λ t. option_map (take most) (finite.get t.files name.now) ≡ Some bytes.items)) }
        ensures steady { IsSteady self.old → IfSome (told_of self.old)
            (λ t. IfSome (finite.get t.files name.now)
            (λ _. IfErr result (λ fault. fault ≡ FolderFault.Memory))) }
        ensures stays { IsSteady self.old → IsSteady self.new }

        // It fails exactly so.
        ensures failed { has_failed result ≡ fails_to_read self.old name.now }
        ensures call { IsOneCall self.old self.new (has_failed result) }
    {
        let fails = self.failing.fails();
        match find(self.files.as_slice(), name) {
            Some(bytes) if !fails => Ok(bytes[..most.min(bytes.len())].to_vec(alloc)?),
            _ => {
                self.faults = self.faults.saturating_add(1);
                Err(FolderFault::Failed)
            }
        }
    }
}
