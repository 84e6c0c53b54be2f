//! Threads.
use crate::frame::Frame;
use crate::monitors::Monitors;

/// A thread that has not ended.
#[derive(Drop)]
pub(crate) struct Running<'a> {
    /// The innermost frame.
    pub frame: Frame<'a>,
    /// The other frames, the innermost last.
    pub callers: Vec<Frame<'a>>,
}

/// A thread.
#[derive(Drop)]
pub(crate) struct Thread<'a> {
    /// None where it has ended.
    pub running: Option<Running<'a>>,
    /// The monitors that it holds, one for each time.
    pub locks: Monitors,
}

/// Lets a thread go. It is taken apart here alone, since a drop is proved again wherever it stands.
pub(crate) fn let_thread_go(_thread: Thread) {}
