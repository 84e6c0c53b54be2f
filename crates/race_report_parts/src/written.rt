//! A text that is written piece by piece.
ghost use Rattle.std.specs.Prelude.{◌≡◌, [], IfOk, codes, false, string_bytes};
ghost use Rattle.std.specs.Fmt.{decimal};
ghost use Rattle.race_report_parts.specs.Written.{Puts};

use racer_base::Memory;
use std::alloc::Global;

/// The text so far, and whether a piece was left out for want of memory.
///
/// Whoever puts a piece need not look: behind one that was left out no other is put, and the caller of all of
/// them asks once, by `finished`.
#[derive(Drop)]
pub struct Written {
    pub alloc: Global,
    pub so_far: String,
    pub is_cut: bool,
}

impl Written {
    /// Nothing so far.
    pub fn new(alloc: Global) -> Written
        ensures { string_bytes result.so_far ≡ [] }
    {
        Written::behind(alloc, String::new(alloc))
    }

    /// This text so far, which is not copied.
    pub fn behind(alloc: Global, so_far: String) -> Written
        ensures text { string_bytes result.so_far ≡ string_bytes so_far }
        ensures is_whole { result.is_cut ≡ false }
    {
        Written {
            alloc,
            so_far,
            is_cut: false,
        }
    }

    /// The whole text, where no piece was left out.
    pub fn finished(self) -> Result<String, Memory>
        ensures is_whole { IfOk result (λ text. self.is_cut ≡ false) }
        ensures text { IfOk result (λ text. string_bytes text ≡ string_bytes self.so_far) }
    {
        if self.is_cut {
            return Err(Memory);
        }
        Ok(self.so_far)
    }
}

/// Puts a piece behind a text, unless one before it was left out.
pub fn push_text(text: &mut Written, piece: &str)
    ensures { Puts piece.now text.old text.new }
{
    if !text.is_cut {
        match text.so_far.push_str(piece) {
            Ok(()) => {}
            Err(_) => text.is_cut = true,
        }
    }
}

/// Puts the digits of a number behind a text, unless a piece before them was left out.
pub fn push_number(text: &mut Written, number: u32)
    ensures { Puts (decimal number) text.old text.new }
{
    if !text.is_cut {
        match write!(text.so_far, "{number}") {
            Ok(()) => {}
            Err(_) => text.is_cut = true,
        }
    }
}

/// Puts the digits of a count behind a text, unless a piece before them was left out.
pub fn push_count(text: &mut Written, count: usize)
    ensures { Puts (decimal count) text.old text.new }
{
    if !text.is_cut {
        match write!(text.so_far, "{count}") {
            Ok(()) => {}
            Err(_) => text.is_cut = true,
        }
    }
}

/// Puts a space behind a text.
pub fn push_space(text: &mut Written)
    ensures { Puts (codes " ") text.old text.new }
{
    push_text(text, " ")
}

/// Puts the end of a line behind a text.
pub fn push_end(text: &mut Written)
    ensures { Puts (codes "\n") text.old text.new }
{
    push_text(text, "\n")
}
