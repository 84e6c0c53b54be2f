//! Places in a text (JLS 3.4).
ghost use Rattle.std.specs.Prelude.{◌≡◌, ◌+◌, ◌≤◌, ◌<◌, ◌^◌, length};
ghost use Rattle.std.specs.List.{fold};
ghost use Rattle.java_lexer.specs.Places.{advance, begin, place_at};

use racer_base::{FileId, Place};

/// A line and a column, from 1, the column in bytes. An LF that follows a CR ends no further line.
#[derive(Clone, Copy)]
pub struct Spot {
    pub line: u32,
    pub column: u32,
    pub after_return: bool,
}

impl Spot {
    pub fn begin() -> Spot
        ensures { result ≡ begin }
    {
        Spot {
            line: 1,
            column: 1,
            after_return: false,
        }
    }

    /// The place behind this byte.
    pub fn advance(self, byte: u8) -> Spot
        requires one { 1 ≤ self.column }
        requires line { self.line + 1 < 2 ^ 32 }
        requires column { self.column + 1 < 2 ^ 32 }
        ensures gives { result ≡ advance self byte }
        ensures line { result.line ≤ self.line + 1 }
        ensures column { result.column ≤ self.column + 1 }
        ensures one { 1 ≤ result.column }
    {
        match byte {
            b'\r' => Spot {
                line: self.line + 1,
                column: 1,
                after_return: true,
            },
            b'\n' if self.after_return => Spot {
                line: self.line,
                column: 1,
                after_return: false,
            },
            b'\n' => Spot {
                line: self.line + 1,
                column: 1,
                after_return: false,
            },
            _ => Spot {
                line: self.line,
                column: self.column + 1,
                after_return: false,
            },
        }
    }

    /// The place behind these bytes.
    pub fn behind(self, bytes: &[u8]) -> Spot
        requires one { 1 ≤ self.column }
        requires line { self.line + length bytes.now < 2 ^ 32 }
        requires column { self.column + length bytes.now < 2 ^ 32 }
        ensures gives { result ≡ fold advance self bytes.now }
        ensures line { result.line ≤ self.line + length bytes.now }
        ensures column { result.column ≤ self.column + length bytes.now }
        ensures one { 1 ≤ result.column }
    {
        let mut spot = self;
        for byte in bytes {
            spot = spot.advance(*byte);
        }
        spot
    }

    pub fn place(self, file: FileId) -> Place
        ensures { result ≡ place_at file self }
    {
        Place {
            file,
            line: self.line,
            column: self.column,
        }
    }
}
