//! Standard output.
ghost use Rattle.std.specs.Prelude.{◌≡◌};

use crate::{Failed, Sink};

/// Standard output, which tells nothing of what it took.
///
/// Each write is one `write_some` of the runtime. For the host that is one `write` of the system, with no buffer
/// between, so what was taken has left the process when the call returns.
#[derive(Drop)]
pub struct StdSink<'a, P: Print> {
    rt: &'a P,
    faults: u64,
}

impl<'a, P: Print> StdSink<'a, P> {
    ghost use Rattle.racer_base.specs.StdSink.{faults_of};

    pub fn new(rt: &'a P) -> StdSink<'a, P>
        ensures { faults_of result ≡ 0 }
    {
        StdSink { rt, faults: 0 }
    }
}

impl<'a, P: Print> Sink for StdSink<'a, P> {
    ghost use Rattle.std.specs.Prelude.{None};
    ghost use Rattle.racer_base.specs.StdSink.{faults_of};

    ghost faults = { faults_of };

    ghost taken = { λ _. None };

    ghost room = { λ _. 0 };

    fn write(&mut self, piece: &[u8]) -> Result<usize, Failed> {
        match self.rt.write_some(piece) {
            Ok(n) if n > 0 || piece.is_empty() => Ok(n),
            _ => {
                self.faults = self.faults.saturating_add(1);
                Err(Failed)
            }
        }
    }
}
