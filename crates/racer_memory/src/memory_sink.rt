//! A sink in memory.
ghost use Rattle.std.specs.Prelude.{◌≡◌, ℕ, ◌+◌, ◌≤◌, ◌<◌, [], length, take, vec_capacity, is_err, IfOk, IsOkAnd};
ghost use Rattle.std.specs.Prelude.{OnErr, MatchResult, if◌then◌else◌, Some};
ghost use Rattle.racer_base.specs.Outside.{IsRise, taken_and};

use crate::failing::Failing;
use racer_base::{Failed, Memory, Sink};
use std::alloc::Global;

/// A sink in memory, which takes `capacity` bytes in all and at most `most` of them in one call.
///
/// The writes whose numbers, counted from 0, stand in `failing` fail. Beside these a write of a piece that
/// is not empty fails when all of the capacity is taken, and no other.
#[derive(Drop)]
pub struct MemorySink {
    taken: Vec<u8>,
    capacity: usize,
    most: usize,
    failing: Failing,
    faults: u64,
    ghost some: { 0 < most },
    ghost within: { length taken.items ≤ capacity },
    ghost reserved: { capacity ≤ vec_capacity taken },
}

impl MemorySink {
    ghost use Rattle.racer_memory.specs.MemorySink.{taken_of, capacity_of, most_of, faults_of, call_of, failing_of};

    /// Takes the memory for the whole capacity at once.
    pub fn new(
        alloc: Global,
        capacity: usize,
        most: usize,
        failing: Vec<u32>,
    ) -> Result<MemorySink, Memory>
        requires { 0 < most }
        ensures taken { IfOk result (λ sink. taken_of sink ≡ []) }
        ensures capacity { IfOk result (λ sink. capacity_of sink ≡ capacity) }
        ensures most { IfOk result (λ sink. most_of sink ≡ most) }
        ensures faults { IfOk result (λ sink. faults_of sink ≡ 0) }
        ensures call { IfOk result (λ sink. call_of sink ≡ 0) }
        ensures failing { IfOk result (λ sink. failing_of sink ≡ failing.items) }
    {
        Ok(MemorySink {
            taken: Vec::with_capacity(alloc, capacity)?,
            capacity,
            most,
            failing: Failing::new(failing),
            faults: 0,
        })
    }

    /// The bytes that it took.
    pub fn taken(&self) -> &[u8]
        ensures { result.now ≡ taken_of self.now }
    {
        self.taken.as_slice()
    }
}

impl Sink for MemorySink {
    ghost use Rattle.std.specs.Prelude.{Some};
    ghost use Rattle.racer_memory.specs.MemorySink.{taken_of, room_of, faults_of, fails_to_write, share_of, IsOneCall};

    ghost faults = { faults_of };

    ghost taken = { λ sink. Some (taken_of sink) };

    ghost room = { room_of };

    fn write(&mut self, piece: &[u8]) -> Result<usize, Failed>
        // What each sink keeps.
        ensures count { MatchResult result
            (λ _. faults_of self.new ≡ faults_of self.old)
            (λ _. IsRise (faults_of self.old) (faults_of self.new)) }
        ensures most { IfOk result (λ n. n ≤ length piece.now) }
        ensures some { IfOk result (λ n. 0 < length piece.now → 0 < n) }
        ensures taken { IfOk result (λ n. Some (taken_of self.new)
            ≡ taken_and (Some (taken_of self.old)) (take n piece.now)) }
        ensures kept { OnErr result (Some (taken_of self.new) ≡ Some (taken_of self.old)) }
        ensures room { 0 < room_of self.old
            → IsOkAnd result (λ n. room_of self.new + n ≡ room_of self.old) }

        // It fails exactly so, and else takes as much as it may.
        ensures failed { is_err result ≡ fails_to_write self.old (length piece.now) }
        ensures share { IfOk result (λ n. n ≡ share_of self.old (length piece.now)) }
        ensures call { IsOneCall self.old self.new (is_err result) }
    {
        let left = self.capacity - self.taken.len();
        let share = piece.len().min(self.most.min(left));
        if self.failing.fails() || (left == 0 && !piece.is_empty()) {
            self.faults = self.faults.saturating_add(1);
            return Err(Failed);
        }
        self.taken.extend_from_slice(&piece[..share]).unwrap();
        Ok(share)
    }
}
