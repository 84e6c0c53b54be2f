//! The outside of the analyser, as traits: a folder of files, a sink for text, and a gate.
ghost use Rattle.std.specs.Prelude.{◌≡◌, ℕ, ◌+◌, ◌<◌, ◌≤◌, List, Option, Some, IfOk, IfErr, OnErr, OnOk, IsOkAnd};
ghost use Rattle.std.specs.Prelude.{MatchResult, take, length, map, string_bytes, IfSome, option_map, vec_len};
ghost use Rattle.std.specs.FinMap as finite;
ghost use Rattle.racer_base.specs.Outside.{Told, AreNames, IsRise, taken_and};
ghost use Rattle.racer_base.specs.Causes.{IsCause};

use crate::{Memory, Moment};
use std::alloc::{AllocError, AllocFailed, Global};
use std::io;
use std::io::ErrorKind;

/// Why a call on a folder gives no answer.
#[derive(Clone, Copy, PartialEq, Eq)]
pub enum FolderFault {
    /// The folder failed, and its count of faults rose.
    Failed,
    /// Memory was refused.
    Memory,
}

impl From<Memory> for FolderFault {
    ghost use Rattle.std.specs.Prelude.{◌≡◌};
    ghost use Rattle.racer_base.specs.declared.outside.FolderFault.TheVariants as fault;

    ghost from_gives = { λ _ given. given ≡ fault.Memory };

    fn from(_error: Memory) -> FolderFault {
        FolderFault::Memory
    }
}

impl From<AllocError> for FolderFault {
    ghost use Rattle.std.specs.Prelude.{◌≡◌};
    ghost use Rattle.racer_base.specs.declared.outside.FolderFault.TheVariants.{Memory};

    ghost from_gives = { λ _ fault. fault ≡ Memory };

    fn from(_error: AllocError) -> FolderFault {
        FolderFault::Memory
    }
}

impl<T: Drop> From<AllocFailed<T>> for FolderFault {
    ghost use Rattle.std.specs.Prelude.{◌≡◌};
    ghost use Rattle.racer_base.specs.declared.outside.FolderFault.TheVariants.{Memory};

    ghost from_gives = { λ _ fault. fault ≡ Memory };

    fn from(_error: AllocFailed<T>) -> FolderFault {
        FolderFault::Memory
    }
}

impl From<io::Error> for FolderFault {
    fn from(error: io::Error) -> FolderFault {
        match error.kind() {
            ErrorKind::OutOfMemory => FolderFault::Memory,
            _ => FolderFault::Failed,
        }
    }
}

/// A write failed, and the sink's count of faults rose.
#[derive(Clone, Copy, PartialEq, Eq)]
pub struct Failed;

/// A folder of files.
///
/// `Failed` comes only where its count of faults rose in the call, or stands at its last value. Where it
/// tells its meaning, `enter` succeeds for its name alone, `names` gives the names of its files, each
/// once, and `read` the first `most` bytes of one of them. No call changes the meaning.
pub trait Folder {
    /// How many faults there were.
    ghost faults: { Self → ℕ };

    /// Its name and its files, where it tells them.
    ghost told: { Self → Option Told };

    /// No call on its own name and files fails any more.
    ghost steady: { Self → Type 0 };

    /// Makes this folder the one that is read.
    fn enter(&mut self, alloc: Global, name: &str) -> Result<(), FolderFault>
        ensures count { MatchResult result
            (λ _. faults self.new ≡ faults self.old)
            (λ fault. IsCause fault (faults self.old) (faults self.new)) }
        ensures told { told self.new ≡ told self.old }
        ensures entered { OnOk result (IfSome (told self.old) (λ t. name.now ≡ t.name)) }
        ensures steady { steady self.old → IfSome (told self.old)
            (λ t. name.now ≡ t.name → IfErr result (λ fault. fault ≡ FolderFault.Memory)) }
        ensures stays { steady self.old → steady self.new };

    /// The names of its files, in some order.
    fn names(&mut self, alloc: Global) -> Result<Vec<String>, FolderFault>
        ensures count { MatchResult result
            (λ _. faults self.new ≡ faults self.old)
            (λ fault. IsCause fault (faults self.old) (faults self.new)) }
        ensures told { told self.new ≡ told self.old }
        ensures names { IfOk result (λ names. IfSome (told self.old)
            (λ t. AreNames t.files (map string_bytes names.items))) }
        ensures steady { steady self.old → IfErr result (λ fault. fault ≡ FolderFault.Memory) }
        ensures stays { steady self.old → steady self.new };

    /// The first bytes of a file, at most `most` of them.
    fn read(&mut self, alloc: Global, name: &str, most: usize) -> Result<Vec<u8>, FolderFault>
        ensures count { MatchResult result
            (λ _. faults self.new ≡ faults self.old)
            (λ fault. IsCause fault (faults self.old) (faults self.new)) }
        ensures told { told self.new ≡ told self.old }
        ensures most { IfOk result (λ bytes. vec_len bytes ≤ most) }
        ensures bytes { IfOk result (λ bytes. IfSome (told self.old)
            (λ t. option_map (take most) (finite.get t.files name.now) ≡ Some bytes.items)) }
        ensures steady { steady self.old → IfSome (told self.old)
            (λ t. IfSome (finite.get t.files name.now)
            (λ _. IfErr result (λ fault. fault ≡ FolderFault.Memory))) }
        ensures stays { steady self.old → steady self.new };
}

/// What text is written to.
///
/// `Ok(n)` says that it took the first n bytes of the piece, at least one where there is one. `Failed`
/// takes nothing, and comes only where its count of faults rose in the call, or stands at its last value.
pub trait Sink {
    /// How many faults there were.
    ghost faults: { Self → ℕ };

    /// The bytes that it took, where it tells them.
    ghost taken: { Self → Option (List ℕ) };

    /// How many bytes it takes for certain. While this is not 0, no write fails.
    ghost room: { Self → ℕ };

    fn write(&mut self, piece: &[u8]) -> Result<usize, Failed>
        ensures count { MatchResult result
            (λ _. faults self.new ≡ faults self.old)
            (λ _. IsRise (faults self.old) (faults self.new)) }
        ensures most { IfOk result (λ n. n ≤ length piece.now) }
        ensures some { IfOk result (λ n. 0 < length piece.now → 0 < n) }
        ensures taken { IfOk result (λ n. taken self.new ≡ taken_and (taken self.old) (take n piece.now)) }
        ensures kept { OnErr result (taken self.new ≡ taken self.old) }
        ensures room { 0 < room self.old → IsOkAnd result (λ n. room self.new + n ≡ room self.old) };
}

/// What a worker passes right after each take and right before each publication.
///
/// It tells nothing and changes nothing; it may hold the worker up.
pub trait Gate {
    fn at(&self, worker: u32, moment: Moment);
}

/// A gate that holds nobody up.
#[derive(Clone, Copy)]
pub struct OpenGate;

impl Gate for OpenGate {
    fn at(&self, _worker: u32, _moment: Moment) {}
}
