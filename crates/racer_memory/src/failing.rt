//! Calls that are to fail.
ghost use Rattle.std.specs.Prelude.{◌≡◌, true, false};
ghost use Rattle.racer_memory.specs.Failing.{is_failing, is_quiet, risen};

/// Which calls are to fail, by their numbers from 0, and the number of the next one.
#[derive(Drop)]
pub(crate) struct Failing {
    calls: Vec<u32>,
    next: u64,
}

impl Failing {
    /// These calls are to fail, and the first one is to come.
    pub(crate) fn new(calls: Vec<u32>) -> Failing
        ensures calls { result.calls ≡ calls }
        ensures next { result.next ≡ 0 }
    {
        Failing { calls, next: 0 }
    }

    /// Makes the next call, and says whether it is to fail.
    pub(crate) fn fails(&mut self) -> bool
        ensures fails { result ≡ is_failing self.old.calls.items self.old.next }
        ensures calls { self.new.calls.items ≡ self.old.calls.items }
        ensures next { self.new.next ≡ risen self.old.next }
        // Where nothing fails any more, this call does not, and it stays so.
        ensures passes { is_quiet self.old.calls.items self.old.next ≡ true → result ≡ false }
        ensures quiet { is_quiet self.old.calls.items self.old.next ≡ true
            → is_quiet self.new.calls.items self.new.next ≡ true }
    {
        let call = self.next;
        self.next = call.saturating_add(1);
        is_among(&self.calls, call)
    }
}

/// Whether the call of this number is to fail.
fn is_among(calls: &[u32], call: u64) -> bool
    ensures { result ≡ is_failing calls.now call }
{
    for number in calls {
        if u64::from(*number) == call {
            return true;
        }
    }
    false
}
