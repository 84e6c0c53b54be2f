//! Gates that keep what the workers of a run told them.
use racer_base::{Gate, MethodId, Moment};
use std::alloc::Global;
use std::fmt::Write;
use std::sync::atomic::{AtomicU64, Ordering};
use std::test::Fail;

/// For how many workers moments are kept, and how many of each.
const WORKERS: u32 = 8;

const MOMENTS: u64 = 64;

/// The moments of one worker: how many there were, and the first of them in order, each as twice the number of its
/// method and one more where the method was finished.
#[derive(Drop)]
struct Log {
    count: AtomicU64,
    moments: Vec<AtomicU64>,
}

impl Log {
    fn new(alloc: Global) -> Result<Log, Fail> {
        let mut moments = Vec::new(alloc);
        for _ in 0..MOMENTS {
            moments.push(AtomicU64::new(0))?;
        }
        Ok(Log {
            count: AtomicU64::new(0),
            moments,
        })
    }

    /// Keeps a moment, and tells how many there were before.
    fn keep(&self, moment: Moment) -> u64 {
        let number = match moment {
            Moment::Taken(MethodId(m)) => 2 * m as u64,
            Moment::Finished(MethodId(m)) => 2 * m as u64 + 1,
        };
        let before = self.count.load(Ordering::SeqCst);
        if let Some(place) = self.moments.as_slice().get(before as usize) {
            place.store(number, Ordering::SeqCst);
            self.count.store(before.saturating_add(1), Ordering::SeqCst);
        }
        before
    }

    /// The moments as lines of a history, where the methods have these names.
    fn lines(&self, alloc: Global, worker: u32, names: &[&str]) -> Result<String, Fail> {
        let mut lines = String::new(alloc);
        let count = self.count.load(Ordering::SeqCst) as usize;
        for moment in self.moments.as_slice().iter().take(count) {
            let number = moment.load(Ordering::SeqCst);
            let verb = if number % 2 == 0 { "take" } else { "publish" };
            let name = names
                .get((number / 2) as usize)
                .unwrap_or(&"no such method");
            write!(lines, "{verb} {worker} {name}\n")?;
        }
        Ok(lines)
    }
}

/// Holds nobody, and keeps each worker's moments.
#[derive(Drop)]
pub(crate) struct Watching {
    logs: Vec<Log>,
}

impl Watching {
    pub(crate) fn new(alloc: Global) -> Result<Watching, Fail> {
        let mut logs = Vec::new(alloc);
        for _ in 0..WORKERS {
            logs.push(Log::new(alloc)?)?;
        }
        Ok(Watching { logs })
    }

    /// Keeps a moment, and tells how many there were before of this worker.
    fn keep(&self, worker: u32, moment: Moment) -> u64 {
        match self.logs.as_slice().get(worker as usize) {
            Some(log) => log.keep(moment),
            None => 0,
        }
    }

    /// The moments of a worker as lines of a history, where the methods have these names.
    pub(crate) fn lines(&self, alloc: Global, worker: u32, names: &[&str]) -> Result<String, Fail> {
        match self.logs.as_slice().get(worker as usize) {
            Some(log) => log.lines(alloc, worker, names),
            None => Ok(String::new(alloc)),
        }
    }
}

impl Gate for Watching {
    fn at(&self, worker: u32, moment: Moment) {
        self.keep(worker, moment);
    }
}

/// Holds each of two workers at its first take until the other was at one, and keeps their moments.
#[derive(Drop)]
pub(crate) struct Meeting {
    pub watching: Watching,
    first: AtomicU64,
    second: AtomicU64,
    missed: AtomicU64,
}

impl Meeting {
    pub(crate) fn new(alloc: Global) -> Result<Meeting, Fail> {
        Ok(Meeting {
            watching: Watching::new(alloc)?,
            first: AtomicU64::new(0),
            second: AtomicU64::new(0),
            missed: AtomicU64::new(0),
        })
    }

    /// Whether each worker saw the other at a take, before its turns were over.
    pub(crate) fn met(&self) -> bool {
        self.first.load(Ordering::SeqCst) == 1
            && self.second.load(Ordering::SeqCst) == 1
            && self.missed.load(Ordering::SeqCst) == 0
    }
}

impl Gate for Meeting {
    fn at(&self, worker: u32, moment: Moment) {
        if self.watching.keep(worker, moment) > 0 {
            return;
        }
        let (mine, other) = if worker == 0 {
            (&self.first, &self.second)
        } else {
            (&self.second, &self.first)
        };
        mine.store(1, Ordering::SeqCst);
        for _ in 0..1_000_000_000u64 {
            if other.load(Ordering::SeqCst) == 1 {
                return;
            }
        }
        self.missed.store(1, Ordering::SeqCst);
    }
}
