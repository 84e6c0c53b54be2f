//! A text for public fields.
ghost use Rattle.std.specs.Prelude.{◌≡◌, IfOk, string_bytes};

use crate::Memory;
use arrayvec::ArrayString;
use std::alloc::{AllocError, Global};
use std::marker::Model;

/// How many bytes may lie in a text itself.
const MOST_INSIDE: usize = 16;

/// Where the bytes of a text lie. Most tokens are short, so that they take no memory of their own.
#[derive(Drop)]
enum Inner {
    Short(ArrayString<MOST_INSIDE>),
    Long(String),
}

/// A text, which contracts see as the list of its bytes and nothing more.
#[derive(Drop)]
pub struct Text {
    inner: Inner,
}

impl Model for Text {
    ghost use Rattle.std.specs.Prelude.{List, ℕ};
    ghost use Rattle.racer_base.specs.Texts.{bytes_of};

    ghost Value = { List ℕ };

    ghost view = { λ text. bytes_of text.inner };
}

impl Text {
    pub fn from_str(alloc: Global, text: &str) -> Result<Text, Memory>
        ensures { IfOk result (λ made. made ≡ text.now) }
    {
        let inner = match ArrayString::from(text) {
            Ok(short) => Inner::Short(short),
            Err(_) => Inner::Long(String::from_str(alloc, text)?),
        };
        Ok(Text { inner })
    }

    pub fn as_str(&self) -> &str
        ensures { result.now ≡ self.now }
    {
        match &self.inner {
            Inner::Short(text) => text.as_str(),
            Inner::Long(text) => text.as_str(),
        }
    }

    /// Its bytes as a `String`. A text that was made of a `String` gives that one back, without taking memory.
    pub fn into_string(self, alloc: Global) -> Result<String, Memory>
        ensures { IfOk result (λ made. string_bytes made ≡ self) }
    {
        match self.inner {
            Inner::Long(text) => Ok(text),
            inner => Ok(String::from_str(alloc, Text { inner }.as_str())?),
        }
    }
}

impl From<String> for Text {
    ghost use Rattle.std.specs.Prelude.{◌≡◌, string_bytes};

    ghost from_gives = { λ string text. text ≡ string_bytes string };

    fn from(text: String) -> Text {
        Text {
            inner: Inner::Long(text),
        }
    }
}

impl PartialEq for Text {
    ghost use Rattle.std.proofs.Common.{rules};
    ghost use Rattle.std.specs.Cmp.Rules.{comparing};
    ghost use Rattle.std.specs.Cmp.Lexicographic.{pointwise};
    ghost use Rattle.std.specs.Prelude.{nat_eq};

    ghost eq = { pointwise nat_eq };

    ghost laws = { Prim.search (comparing, rules) };

    fn eq(&self, other: &Text) -> bool {
        self.as_str() == other.as_str()
    }
}

impl Clone for Text {
    ghost use Rattle.std.specs.Prelude.{◌≡◌};

    ghost is_clone = { λ text copy. copy ≡ text };

    fn clone(&self) -> Result<Text, AllocError> {
        let inner = match &self.inner {
            Inner::Short(text) => Inner::Short(*text),
            Inner::Long(text) => Inner::Long(text.clone()?),
        };
        Ok(Text { inner })
    }
}
