//! What is kept of a method that no tree spells.
ghost use Rattle.std.specs.Prelude.{◌≡◌, IfOk};
ghost use Rattle.java_parser_grammar.specs.Heads.{name_kept, parameters_among, IsOutside};
ghost use Rattle.java_parser_grammar.specs.Pieces.{items_of, inside};

use super::results::head_result;
use crate::counts::{has_static, parameters};
use crate::items::inside;
use java_lexer::Token;
use java_parser_methods::has_synchronized;
use java_tree::{HeadResult, OutsideHead};
use racer_base::{Memory, Text};
use std::alloc::Global;

fn name_kept(alloc: Global, said: &HeadResult, name: &Token) -> Result<Text, Memory>
    ensures { IfOk result (λ kept. kept ≡ name_kept said.now name.now.text) }
{
    match said {
        HeadResult::Constructor => Text::from_str(alloc, "<new>"),
        _ => Text::from_str(alloc, name.text.as_str()),
    }
}

/// The number of parameters between these parentheses.
fn parameters_in(parentheses: &[Token]) -> Result<u32, Memory>
    ensures { IfOk result (λ count. count ≡ parameters_among (items_of (inside parentheses.now))) }
{
    let inner = inside(parentheses);
    if inner.len() >= u32::MAX as usize {
        return Err(Memory);
    }
    Ok(parameters(inner))
}

/// What is kept of a method of this class.
pub fn outside(
    alloc: Global,
    class: &str,
    front: &[Token],
    name: &Token,
    parentheses: &[Token],
    member: &[Token],
) -> Result<OutsideHead, Memory>
    ensures { IfOk result (λ head. IsOutside class.now front.now name.now parentheses.now member.now head) }
{
    let count = parameters_in(parentheses)?;
    let result = head_result(alloc, class, front, name)?;
    let text = name_kept(alloc, &result, name)?;
    Ok(OutsideHead {
        name: text,
        place: name.place,
        is_static: has_static(front),
        has_synchronized: has_synchronized(member),
        result,
        parameters: count,
    })
}
