//! The methods that calls lead to from the entries of a class.
ghost use Rattle.std.specs.Prelude.{◌≡◌, IfOk, OnOk, map, length};
ghost use Rattle.std.specs.List.{list_any};
ghost use Rattle.core_code.specs.Core.{method_of};
ghost use Rattle.core_code.specs.CalleeRows.{rows_in, AreRowsOf};
ghost use Rattle.core_code.specs.Program.{core, methods};
ghost use Rattle.typed_core.specs.Reaching.{entry_of, AreComeTo, AreEntries, AreFlags, ComesTo, ComesToAll, IsFollowed};
ghost use Rattle.typed_core.specs.Typings as wanted;

use core_code::{CallRows, MethodCore, Program};
use racer_base::{ClassId, Memory, MethodId};
use std::alloc::Global;

/// Methods that are come to, by a flag each; those whose calls are still to be followed.
#[derive(Drop)]
struct Reach {
    flags: Vec<bool>,
    todo: Vec<MethodId>,
}

impl Reach {
    /// Comes to a method.
    fn come_to(&mut self, m: MethodId) -> Result<(), Memory>
        ensures { OnOk result (ComesTo m self.old self.new) }
    {
        let number = m.0 as usize;
        if number >= self.flags.len() {
            return Ok(());
        }
        if self.flags[number] {
            return Ok(());
        }
        self.flags[number] = true;
        let Ok(()) = self.todo.push(m) else {
            return Err(Memory);
        };
        Ok(())
    }

    /// Comes to each of these methods.
    fn come_to_all(&mut self, methods: &[MethodId]) -> Result<(), Memory>
        ensures { OnOk result (ComesToAll methods.now self.old self.new) }
    {
        for m in methods {
            self.come_to(*m)?;
        }
        Ok(())
    }

    /// Comes to the method of this number, where it is an entry of a class.
    fn come_to_entry(
        &mut self,
        class: ClassId,
        number: usize,
        method: &MethodCore,
    ) -> Result<(), Memory>
        ensures { OnOk result (ComesToAll (entry_of class number (method_of method.now)) self.old self.new) }
    {
        if !is_entry_of(class, method) {
            return Ok(());
        }
        let Ok(number) = u32::try_from(number) else {
            return Err(Memory);
        };
        self.come_to(MethodId(number))
    }

    /// Follows the calls of all methods that are come to: at most so many.
    fn follow(&mut self, rows: &CallRows, count: usize) -> Result<(), Memory>
        requires rows { length (rows_in rows.now) ≡ length self.old.flags.items }
        requires come { AreComeTo self.old }
        ensures { OnOk result (IsFollowed (rows_in rows.now) count self.old self.new) }
    {
        for followed in 0..count {
            match self.todo.pop() {
                Some(m) => self.come_to_all(rows.row(m))?,
                None => return Ok(()),
            }
        }
        Ok(())
    }
}

/// Whether a method is an entry of this class.
fn is_entry_of(class: ClassId, method: &MethodCore) -> bool
    ensures { result ≡ wanted.is_entry_of class (method_of method.now) }
{
    method.entry && method.class == class
}

/// Whether a class has an entry.
pub(crate) fn has_entry(class: ClassId, methods: &[MethodCore]) -> bool
    ensures { result ≡ list_any (wanted.is_entry_of class) (map method_of methods.now) }
{
    for method in methods {
        if is_entry_of(class, method) {
            return true;
        }
    }
    false
}

/// The entries of a class, as methods that are come to.
fn entries(alloc: Global, class: ClassId, methods: &[MethodCore]) -> Result<Reach, Memory>
    ensures { IfOk result (AreEntries class (map method_of methods.now)) }
{
    let flags = vec![in alloc; false; methods.len()]?;
    let mut reach = Reach {
        flags,
        todo: Vec::new(alloc),
    };
    for number in 0..methods.len() {
        reach.come_to_entry(class, number, &methods[number])?;
    }
    Ok(reach)
}

/// For each method whether calls lead to it from an entry of a class.
pub(crate) fn reached_from(
    alloc: Global,
    class: ClassId,
    program: &Program,
    rows: &CallRows,
) -> Result<Vec<bool>, Memory>
    requires { AreRowsOf (core program.now) rows.now }
    ensures flags { IfOk result (λ flags. AreFlags (wanted.from_entries (core program.now) class) flags.items) }
    ensures size { IfOk result (λ flags. length flags.items ≡ length (methods program.now)) }
{
    let methods = program.methods();
    let mut reach = entries(alloc, class, methods)?;
    reach.follow(rows, methods.len())?;
    let Reach { flags, .. } = reach;
    Ok(flags)
}
