//! The path to a site: at each sequence and choice, from the outside, whether the site stands in the first part.
ghost use Rattle.std.specs.Prelude.{◌≡◌, ◌++◌, map, IfOk, OnOk};
ghost use Rattle.core_code.specs.Tree.{tree_of, in_sequence};
ghost use Rattle.core_ways.specs.Paths.{op_there, path_where};

use core_code::{Code, Op};
use racer_base::{Memory, SiteId};

/// Puts the path to a site at the end, where the code has it; the operation there.
#[cycle(finding)]
pub(crate) fn find(path: &mut Vec<bool>, site: SiteId, code: &Code) -> Result<Option<Op>, Memory>
    ensures there { IfOk result (λ there. there ≡ op_there (tree_of code.now) site) }
    ensures path { OnOk result (path.new.items ≡ path.old.items ++ path_where site (tree_of code.now)) }
{
    match code {
        Code::Op(at, _, op) => {
            if *at == site {
                return Ok(Some(*op));
            }
            Ok(None)
        }
        Code::Seq(codes) => find_among(path, site, codes.as_slice()),
        Code::Choice(left, right) => {
            let before = path.len();
            let Ok(()) = path.push(true) else {
                return Err(Memory);
            };
            let Ok(found) = find(path, site, left) else {
                return Err(Memory);
            };
            if found.is_some() {
                return Ok(found);
            }
            path.truncate(before);
            let Ok(()) = path.push(false) else {
                return Err(Memory);
            };
            let Ok(found) = find(path, site, right) else {
                return Err(Memory);
            };
            if found.is_none() {
                path.truncate(before);
            }
            Ok(found)
        }
        Code::Loop(body) => find(path, site, body),
        Code::Sync(_, _, body) => find(path, site, body),
    }
}

/// The same of pieces of code in sequence.
#[cycle(finding)]
fn find_among(path: &mut Vec<bool>, site: SiteId, codes: &[Code]) -> Result<Option<Op>, Memory>
    ensures there { IfOk result (λ there. there ≡ op_there (in_sequence (map tree_of codes.now)) site) }
    ensures path { OnOk result (
        path.new.items ≡ path.old.items ++ path_where site (in_sequence (map tree_of codes.now))) }
{
    let before = path.len();
    for code in codes {
        let here = path.len();
        let Ok(()) = path.push(true) else {
            return Err(Memory);
        };
        let Ok(found) = find(path, site, code) else {
            return Err(Memory);
        };
        if found.is_some() {
            return Ok(found);
        }
        path.truncate(here);
        let Ok(()) = path.push(false) else {
            return Err(Memory);
        };
    }
    path.truncate(before);
    Ok(None)
}
