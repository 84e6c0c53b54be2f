//! What the next tokens begin, what may stand where, and what stands in brackets: what is known of tokens before a
//! tree of Java is read.
#![tactic(auto)]

pub mod brackets;
pub mod lambdas;
pub mod leads;
pub mod levels;
pub mod lookahead;
