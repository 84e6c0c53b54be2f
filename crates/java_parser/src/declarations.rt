//! The declarations of a file (JLS 7.3).
ghost use Rattle.std.specs.Prelude.{◌≡◌, ◌<◌, ◌≤◌, true, length, option_map, IfOk};
ghost use Rattle.java_parser_grammar.specs.Tokens.{first_place};
ghost use Rattle.java_parser_grammar.specs.Pieces.{items_of};
ghost use Rattle.java_parser_grammar.specs.DeclarationWalk.{modified, seen_with, is_whole, Whole, AtSign};
ghost use Rattle.java_parser_grammar.specs.DeclarationWalk.{AnnotationName};
ghost use Rattle.java_parser.specs.FirstDeclaration.{seen_of, first_declared, IsFirst};

use super::items::next_item;
use super::tests_of_tokens::{begins_name, begins_sign, begins_word, worded_among};
use java_lexer::Token;
use java_parser_methods::modifiers::TYPE_MODIFIERS;
use racer_base::Place;

/// The words behind which the name of a type stands (JLS 8.1, 8.9, 9.1).
pub const TYPE_WORDS: [&[u8]; 3] = [b"class", b"interface", b"enum"];

/// What was seen last.
#[derive(Clone, Copy)]
pub enum Seen {
    /// All of a declaration, or nothing; whether a package and imports may follow.
    Whole(bool, bool),
    /// Annotations and words of a type; whether a package may follow.
    Modifiers(bool),
    AtSign(bool),
    AnnotationName(bool),
    AnnotationPoint(bool),
    /// The word of a type, and its name or what stands behind it.
    TypeWord,
    TypeName,
    /// `package`, `import` or what stands behind it.
    Directive,
}

/// What is seen with one more item behind annotations and words.
fn modified(early: bool, item: &[Token]) -> Option<Seen>
    ensures { option_map seen_of result ≡ modified early item.now }
{
    if worded_among(item, &TYPE_MODIFIERS) {
        Some(Seen::Modifiers(false))
    } else if worded_among(item, &TYPE_WORDS) {
        Some(Seen::TypeWord)
    } else if begins_sign(item, "@") {
        Some(Seen::AtSign(early))
    } else if early && begins_word(item, "package") {
        Some(Seen::Directive)
    } else {
        None
    }
}

fn begun(early: bool, imports: bool, item: &[Token]) -> Option<Seen>
    ensures { option_map seen_of result ≡ seen_with (Whole early imports) item.now }
{
    if begins_sign(item, ";") {
        Some(Seen::Whole(early, imports))
    } else if imports && begins_word(item, "import") {
        Some(Seen::Directive)
    } else {
        modified(early, item)
    }
}

fn annotated(early: bool, item: &[Token]) -> Option<Seen>
    ensures { option_map seen_of result ≡ seen_with (AnnotationName early) item.now }
{
    if begins_sign(item, ".") {
        Some(Seen::AnnotationPoint(early))
    } else if begins_sign(item, "(") {
        Some(Seen::Modifiers(early))
    } else {
        modified(early, item)
    }
}

/// What is seen with one more item behind an `@`.
fn marked(early: bool, item: &[Token]) -> Option<Seen>
    ensures { option_map seen_of result ≡ seen_with (AtSign early) item.now }
{
    if begins_name(item) {
        Some(Seen::AnnotationName(early))
    } else if begins_word(item, "interface") {
        Some(Seen::TypeWord)
    } else {
        None
    }
}

/// What is seen with one more item, where it fits.
fn seen_with(seen: Seen, item: &[Token]) -> Option<Seen>
    ensures { option_map seen_of result ≡ seen_with (seen_of seen) item.now }
{
    match seen {
        Seen::Whole(early, imports) => begun(early, imports, item),
        Seen::Modifiers(early) => modified(early, item),
        Seen::AtSign(early) => marked(early, item),
        Seen::AnnotationName(early) => annotated(early, item),
        Seen::AnnotationPoint(early) => {
            if begins_name(item) {
                Some(Seen::AnnotationName(early))
            } else {
                None
            }
        }
        Seen::TypeWord => {
            if begins_name(item) {
                Some(Seen::TypeName)
            } else {
                None
            }
        }
        Seen::TypeName => {
            if begins_sign(item, "{") {
                Some(Seen::Whole(false, false))
            } else {
                Some(Seen::TypeName)
            }
        }
        Seen::Directive => {
            if begins_sign(item, ";") {
                Some(Seen::Whole(false, true))
            } else {
                Some(Seen::Directive)
            }
        }
    }
}

fn first_place(tokens: &[Token], end: Place) -> Place
    ensures { result ≡ first_place end tokens.now }
{
    match tokens {
        [token, ..] => token.place,
        [] => end,
    }
}

/// A declaration: how many tokens it has, whether braces are its end, and what was seen there.
#[derive(Clone, Copy)]
pub struct Declaration {
    pub size: usize,
    pub braces: bool,
    pub seen: Seen,
}

fn is_whole(seen: Seen) -> bool
    ensures { result ≡ is_whole (seen_of seen) }
{
    matches!(seen, Seen::Whole(_, _))
}

/// The first declaration, or the place of what does not fit.
pub(crate) fn first_declaration(
    seen: Seen,
    tokens: &[Token],
    end: Place,
) -> Result<Declaration, Place>
    ensures first { IsFirst tokens.now end result (first_declared (seen_of seen) (items_of tokens.now)) }
    ensures whole { IfOk result (λ declared. is_whole (seen_of declared.seen) ≡ true) }
    ensures some { IfOk result (λ declared. 0 < declared.size) }
    ensures within { IfOk result (λ declared. declared.size ≤ length tokens.now) }
{
    let mut seen = seen;
    let mut size = 0;
    let mut rest = tokens;
    while let Some((item, after)) = next_item(rest) {
        let Some(more) = seen_with(seen, item) else {
            return Err(first_place(rest, end));
        };
        seen = more;
        size += item.len();
        rest = after;
        if is_whole(more) {
            let braces = begins_sign(item, "{");
            return Ok(Declaration { size, braces, seen });
        }
    }
    Err(end)
}
