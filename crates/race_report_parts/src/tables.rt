//! The operations of methods by their sites.
ghost use Rattle.std.specs.Prelude.{◌≡◌, ◌++◌, IfOk, OnOk, option_map};
ghost use Rattle.core_code.specs.Program.{core};
ghost use Rattle.core_code.specs.Tree.{Operation, tree_of};
ghost use Rattle.race_report_parts.specs.Places.{callee_of, operation_at};
ghost use Rattle.race_report_parts.specs.Sites.{site_of, sites_of, AreSites};

use core_code::{Code, Op, Program};
use racer_base::{Memory, MethodId, Place, SiteId};
use std::alloc::Global;

/// An operation: its place, and the method that it calls.
#[derive(Clone, Copy)]
pub struct Site {
    pub place: Place,
    pub callee: Option<MethodId>,
}

/// The method that an operation calls, where it is one that is analysed.
fn callee_of(op: Op) -> Option<MethodId>
    ensures { result ≡ callee_of op }
{
    match op {
        Op::Call(method, _) => Some(method),
        _ => None,
    }
}

/// Puts the operations of code behind those that there are, in reading order.
fn push_sites(code: &Code, sites: &mut Vec<Site>) -> Result<(), Memory>
    ensures { OnOk result (sites.new.items ≡ sites.old.items ++ sites_of (tree_of code.now)) }
{
    match code {
        Code::Op(_, place, op) => sites.push(Site {
            place: *place,
            callee: callee_of(*op),
        })?,
        Code::Seq(parts) => {
            for part in parts.as_slice() {
                push_sites(part, sites)?;
            }
        }
        Code::Choice(left, right) => {
            push_sites(left, sites)?;
            push_sites(right, sites)?;
        }
        Code::Loop(body) => push_sites(body, sites)?,
        Code::Sync(_, _, body) => push_sites(body, sites)?,
    }
    Ok(())
}

/// For each method its operations.
pub fn sites(alloc: Global, program: &Program) -> Result<Vec<Vec<Site>>, Memory>
    ensures { IfOk result (λ tables. AreSites (core program.now) tables.items) }
{
    let mut tables = Vec::new(alloc);
    for method in program.methods() {
        let mut table = Vec::new(alloc);
        push_sites(&method.code, &mut table)?;
        tables.push(table)?;
    }
    Ok(tables)
}

/// The operation that has this site, of the method of this number, where there is one.
fn numbered_site(
    program: &Program,
    sites: &[Vec<Site>],
    number: usize,
    site: SiteId,
) -> Option<Site>
    requires { AreSites (core program.now) sites.now }
    ensures { result ≡ option_map site_of (operation_at (core program.now) (record { 0 = number }) site) }
{
    let table = sites.get(number)?;
    table.get(site.0 as usize).copied()
}

/// The operation of a method that has this site, where there is one.
pub(crate) fn site_at(
    program: &Program,
    sites: &[Vec<Site>],
    method: MethodId,
    site: SiteId,
) -> Option<Site>
    requires { AreSites (core program.now) sites.now }
    ensures { result ≡ option_map site_of (operation_at (core program.now) method site) }
{
    numbered_site(program, sites, method.0 as usize, site)
}

/// The place of the operation that has this site, of the method of this number.
pub fn place_at(
    program: &Program,
    sites: &[Vec<Site>],
    number: usize,
    site: SiteId,
) -> Option<Place>
    requires { AreSites (core program.now) sites.now }
    ensures { result ≡ option_map (λ (o : Operation). o.place)
        (operation_at (core program.now) (record { 0 = number }) site) }
{
    match numbered_site(program, sites, number, site) {
        None => None,
        Some(site) => Some(site.place),
    }
}
