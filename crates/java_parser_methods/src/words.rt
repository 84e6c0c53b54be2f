//! Words that are looked for among all tokens of a method.
ghost use Rattle.std.specs.Prelude.{◌≡◌};
ghost use Rattle.java_parser_grammar.specs.Heads.{has_synchronized};

use java_lexer::Token;
use java_parser_types::look::is_keyword;

/// Whether `synchronized` stands among the tokens.
pub fn has_synchronized(tokens: &[Token]) -> bool
    ensures { result ≡ has_synchronized tokens.now }
{
    let mut rest = tokens;
    while let Some((token, after)) = rest.split_first() {
        if is_keyword(token, "synchronized") {
            return true;
        }
        rest = after;
    }
    false
}
