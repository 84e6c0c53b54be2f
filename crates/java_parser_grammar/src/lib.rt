//! The grammar of Java on lists of tokens: what reading trees from left to right gives, and what a file's units and
//! members are.
//!
//! What is said outside brackets takes a count of open ones, since a file whose brackets do not match is refused
//! before. What a file is, is said over its declarations, and the token that does not fit by what files begin with.
//! Lone `;` stand before, between and behind declarations. All words that Java has for modifiers may stand before a
//! type among the members. The name of a method is the token directly before its parentheses, annotations left out;
//! one whose name is the class's and that has no result is a constructor, whatever its modifiers. Commas between
//! parameters are counted with `<` and `>` as brackets. A field's division is stated as pieces, so that places of
//! names are pinned.
#![tactic(auto)]

pub mod grammar_laws;
pub mod laws;
