//! Why sources are refused.
use racer_base::{FileId, Place};

/// Why sources are refused, a variant for each line.
#[derive(Clone, Copy)]
pub enum Refusal {
    /// How many there are.
    TooManyFiles(usize),
    TooLong(FileId),
    /// How many there are up to and with the file that passes the limit.
    TooManyBytes(usize),
    /// The offset of the first byte that is not part of valid UTF-8.
    NotUtf8(FileId, usize),
    BadCharacter(Place),
    Unclosed(Place),
    BadLiteral(Place),
    Unbalanced(Place),
    TooDeep(Place),
    NotAUnit(Place),
    /// The first class whose name an earlier one has, and that one.
    DuplicateClass(Place, Place),
    /// The first field whose name an earlier one of its class has, and that one.
    DuplicateField(Place, Place),
    /// How many there are.
    TooManyClasses(u32),
    /// How many there are.
    TooManyMethods(u32),
    /// How many different pairs of a method and one that it calls there are.
    TooManyCalls(u32),
}
