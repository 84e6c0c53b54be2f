//! The tokens of a profile of Java SE 8 (JLS 3).
//!
//! A piece is judged by all of its bytes, and the division takes the longest at each place, so `lex` answers with an
//! equation. A file is divided as its bytes stand, before any Unicode escape is translated; where that could give a
//! literal or a name another meaning the file is refused, and not misread. A literal that is not closed before its
//! line ends is unclosed also where it has a wrong escape. Letters past ASCII, text blocks and control-Z are bad
//! characters; numbers are taken more loosely than by JLS 3.10, since they are never evaluated.
#![tactic(auto)]

mod comments;
mod escapes;
mod fault;
mod java;
pub mod laws;
mod literals;
mod numbers;
mod piece;
mod scan;
mod signs;
mod spot;
mod token;
mod words;

pub use fault::LexFault;
pub use java::lex;
pub use token::{Lexed, Token, TokenKind};
