//! The monitors that a thread holds.
ghost use Rattle.std.specs.Prelude.{◌≡◌, [], ◌∷◌, drop, length, OnOk, OnErr};
ghost use Rattle.std.specs.List.{list_any};
ghost use Rattle.core_semantics.specs.Monitors.{HasPopped, HasPushed, IsAsBefore, monitors_of};
ghost use Rattle.core_semantics.specs.Objects.{same_monitor};

use crate::Holder;
use racer_base::Memory;
use std::alloc::Global;
use std::collections::BTreeSet;
use std::marker::Model;

/// A monitor that is held.
#[derive(Drop)]
pub(crate) struct HeldMonitor {
    pub monitor: Holder,
    /// Whether its thread did not hold it before.
    pub is_first: bool,
}

/// Monitors, one for each time that they are held, which contracts see as their list with the last one first. An
/// ordered set beside the list finds them.
#[derive(Drop)]
pub(crate) struct Monitors {
    alloc: Global,
    /// The last one stands last.
    held: Vec<HeldMonitor>,
    index: BTreeSet<Holder>,
}

impl Model for Monitors {
    ghost use Rattle.std.specs.Prelude.{List};
    ghost use Rattle.core_semantics.specs.declared.answer.Holder.{Holder};
    ghost use Rattle.core_semantics.specs.Monitors.{HasMonitorsOf, monitors_of};

    ghost Value = { List Holder };

    ghost view = { λ monitors. monitors_of monitors.held.items };

    ghost invariant = { λ monitors. HasMonitorsOf monitors.index monitors.held.items };
}

/// Puts a monitor at the end, and its copy among the others. Where memory is refused, both are as before.
fn put(
    held: &mut Vec<HeldMonitor>,
    index: &mut BTreeSet<Holder>,
    monitor: Holder,
    copy: Holder,
) -> Result<(), Memory>
    ensures ok { OnOk result (HasPushed held.old.items index.old held.new.items index.new monitor copy) }
    ensures err { OnErr result (IsAsBefore held.old.items index.old held.new.items index.new) }
{
    held.reserve(1)?;
    let is_first = index.insert(copy)?;
    let Ok(()) = held.push(HeldMonitor { monitor, is_first }) else {
        unreachable!()
    };
    Ok(())
}

/// Takes the last monitor, where there is one.
fn take(held: &mut Vec<HeldMonitor>, index: &mut BTreeSet<Holder>)
    ensures { HasPopped held.old.items index.old held.new.items index.new }
{
    if let Some(last) = held.pop() {
        let HeldMonitor { monitor, is_first } = last;
        if is_first {
            index.remove(&monitor);
        }
    }
}

impl Monitors {
    pub(crate) fn new(alloc: Global) -> Monitors
        ensures { result ≡ [] }
    {
        Monitors {
            alloc,
            held: Vec::new(alloc),
            index: BTreeSet::new(alloc),
        }
    }

    pub(crate) fn len(&self) -> usize
        ensures { result ≡ length self.now }
    {
        self.held.len()
    }

    /// Whether a monitor is among these.
    pub(crate) fn has(&self, monitor: &Holder) -> bool
        ensures { result ≡ list_any (λ held. same_monitor held monitor.now) self.now }
    {
        self.index.contains(monitor)
    }

    /// Puts a monitor in front.
    pub(crate) fn push(&mut self, monitor: Holder) -> Result<(), Memory>
        ensures ok { OnOk result (self.new ≡ monitor ∷ self.old) }
        ensures err { OnErr result (self.new ≡ self.old) }
    {
        let Ok(copy) = monitor.copied(self.alloc) else {
            return Err(Memory);
        };
        let Ok(()) = put(&mut self.held, &mut self.index, monitor, copy) else {
            return Err(Memory);
        };
        Ok(())
    }

    /// Takes the first one, where there is one.
    pub(crate) fn pop(&mut self)
        ensures { self.new ≡ drop 1 self.old }
    {
        take(&mut self.held, &mut self.index);
    }
}
