//! Moves of methods among the lists of the value behind the lock.
ghost use Rattle.std.specs.Prelude.{◌≡◌, ◌+◌, ◌^◌, ◌<◌, length};
ghost use Rattle.row_links.specs.Lists.{moved, spliced, node_count};
ghost use Rattle.summary_store.specs.Lists.{numbered, front_held, next_front, next_taken, IsRoused};

use racer_base::MethodId;
use row_links::Rows;

const IDLE: u32 = 0;

const READY: u32 = 1;

const DONE: u32 = 2;

pub(crate) const NOT_ANALYSED: u32 = 3;

/// The first list of what a worker holds. Behind the last of them are those of what is parked on a method.
pub(crate) const HELD: u32 = 4;

/// The list of what is parked on a method.
fn waiting_for(workers: u32, m: MethodId) -> u32
    requires { 4 + workers + m.0 < 2 ^ 32 }
    ensures { result ≡ 4 + workers + m.0 }
{
    HELD + workers + m.0
}

/// The method that a worker holds.
pub(crate) fn held(lists: &Rows, worker: u32) -> Option<MethodId>
    requires list { 4 + worker < length lists.now }
    requires few { length lists.now < 2 ^ 32 }
    ensures { result ≡ front_held worker lists.now }
{
    let m = lists.front(HELD + worker)?;
    Some(MethodId(m))
}

/// Takes the front of the ready list for a worker; or where it is empty, the first idle method.
pub(crate) fn next_method(lists: &mut Rows, worker: u32) -> Option<MethodId>
    requires list { 4 + worker < length lists.old }
    requires few { length lists.old < 2 ^ 32 }
    ensures next { result ≡ numbered (next_front lists.old) }
    ensures lists { lists.new ≡ next_taken worker lists.old }
{
    if let Some(m) = lists.take_front(READY, HELD + worker) {
        return Some(MethodId(m));
    }
    let m = lists.take_front(IDLE, HELD + worker)?;
    Some(MethodId(m))
}

/// Moves an idle method to the end of the ready ones.
pub(crate) fn rouse(lists: &mut Rows, c: MethodId)
    requires node { c.0 < node_count lists.old }
    requires list { 1 < length lists.old }
    ensures { IsRoused c.0 lists.old lists.new }
{
    if lists.list_of(c.0) == IDLE {
        lists.move_to(c.0, READY);
    }
}

/// Parks a method on a callee.
pub(crate) fn put_aside(lists: &mut Rows, workers: u32, m: MethodId, callee: MethodId)
    requires node { m.0 < node_count lists.old }
    requires list { 4 + workers + callee.0 < length lists.old }
    requires few { length lists.old < 2 ^ 32 }
    ensures { lists.new ≡ moved m.0 (4 + workers + callee.0) lists.old }
{
    lists.move_to(m.0, waiting_for(workers, callee));
}

/// Moves a method to those that are done, and the methods that are parked on it to the end of the ready ones, in order.
pub(crate) fn wake(lists: &mut Rows, workers: u32, m: MethodId)
    requires node { m.0 < node_count lists.old }
    requires list { 4 + workers + m.0 < length lists.old }
    requires few { length lists.old < 2 ^ 32 }
    ensures { lists.new ≡ spliced (4 + workers + m.0) 1 (moved m.0 2 lists.old) }
{
    lists.move_to(m.0, DONE);
    lists.splice(waiting_for(workers, m), READY);
}
