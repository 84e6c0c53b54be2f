//! The types of a file, and the members of a class.
ghost use Rattle.std.specs.Prelude.{◌≡◌, Some, None, map, IfOk, IfErr, MatchOption};
ghost use Rattle.java_parser_grammar.specs.Pieces.{items_of};
ghost use Rattle.java_parser_grammar.specs.Members.{members_of};
ghost use Rattle.java_parser.specs.DeclaredTypes.{AreTypes, IsNoUnit};

use super::bodies::{is_lone, next_member};
use super::declarations::{Seen, first_declaration};
use java_lexer::Token;
use java_tree::ParseFault;
use racer_base::{Memory, Place};
use std::alloc::Global;

/// The tokens of each type of a file that ends here.
pub fn types<'a>(
    alloc: Global,
    tokens: &'a [Token],
    end: Place,
) -> Result<Vec<&'a [Token]>, ParseFault>
    ensures ok { IfOk result (λ types. AreTypes (items_of tokens.now) (map (λ t. t.now) types.items)) }
    ensures fault { IfErr result (λ fault. IsNoUnit end fault (items_of tokens.now)) }
{
    let mut types = Vec::new(alloc);
    let mut seen = Seen::Whole(true, true);
    let mut rest = tokens;
    while rest.len() > 0 {
        let next = match first_declaration(seen, rest, end) {
            Ok(next) => next,
            Err(place) => return Err(ParseFault::NotAUnit(place)),
        };
        let (declared, after) = rest.split_at(next.size);
        if next.braces {
            types.push(declared)?;
        }
        seen = next.seen;
        rest = after;
    }
    Ok(types)
}

/// The tokens of each member of a class with this body.
pub fn members<'a>(alloc: Global, body: &'a [Token]) -> Result<Vec<&'a [Token]>, Memory>
    ensures { IfOk result (λ members. map (λ m. m.now) members.items ≡ members_of body.now) }
{
    let mut members = Vec::new(alloc);
    let mut rest = body;
    while let Some((member, after)) = next_member(rest) {
        if !is_lone(member) {
            members.push(member)?;
        }
        rest = after;
    }
    Ok(members)
}
