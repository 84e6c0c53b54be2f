//! The names and the texts of made classes.
ghost use Rattle.std.specs.Prelude.{◌≡◌, ◌<◌, ◌+◌, IfOk, string_bytes};
ghost use Rattle.folder_maker.specs.Folders as made;

use racer_base::Memory;
use std::alloc::Global;

/// Whether a class is the last of its group of ten, or of all.
fn is_last(number: u32, k: u32) -> bool
    requires { k < 10000 }
    ensures { result ≡ made.is_last number k }
{
    (k + 1) % 10 == 0 || k + 1 == number
}

/// The text of the last class of a group.
#[tactic(auto, using(crate::proofs::Digits::padded_four))]
fn last_text(alloc: Global, k: u32) -> Result<String, Memory>
    requires { k < 10000 }
    ensures { IfOk result (λ text. string_bytes text ≡ made.last_text (made.class_name k)) }
{
    let mut text = String::new(alloc);
    writeln!(text, "@ThreadSafe")?;
    writeln!(text, "class C{k:04} {{")?;
    writeln!(text, "  int a;")?;
    writeln!(text, "  void set() {{ this.a = 1; }}")?;
    writeln!(text, "  synchronized int get() {{ return this.a; }}")?;
    writeln!(text, "  int deep() {{ return this.a; }}")?;
    writeln!(text, "}}")?;
    Ok(text)
}

/// The text of a class before another one of its group.
#[tactic(auto, using(crate::proofs::Digits::padded_four))]
fn linked_text(alloc: Global, k: u32) -> Result<String, Memory>
    requires { k + 1 < 10000 }
    ensures { IfOk result (λ text. string_bytes text
        ≡ made.linked_text (made.class_name k) (made.class_name (k + 1))) }
{
    let next = k + 1;
    let mut text = String::new(alloc);
    writeln!(text, "@ThreadSafe")?;
    writeln!(text, "class C{k:04} {{")?;
    writeln!(text, "  int a;")?;
    writeln!(text, "  C{next:04} next;")?;
    writeln!(text, "  void set() {{ this.a = 1; }}")?;
    writeln!(text, "  synchronized int get() {{ return this.a; }}")?;
    writeln!(text, "  int deep() {{ return this.next.deep(); }}")?;
    writeln!(
        text,
        "  void link(C{next:04} n) {{ this.next = n; this.next.a = 2; }}"
    )?;
    writeln!(text, "}}")?;
    Ok(text)
}

/// The text of a class.
pub(crate) fn class_text(alloc: Global, number: u32, k: u32) -> Result<String, Memory>
    requires { k + 1 < 10000 }
    ensures { IfOk result (λ text. string_bytes text ≡ made.class_text number k) }
{
    if is_last(number, k) {
        last_text(alloc, k)
    } else {
        linked_text(alloc, k)
    }
}

/// The name of the file of a class.
#[tactic(auto, using(crate::proofs::Digits::padded_four))]
pub(crate) fn file_name(alloc: Global, k: u32) -> Result<String, Memory>
    requires { k < 10000 }
    ensures { IfOk result (λ text. string_bytes text ≡ made.file_name k) }
{
    Ok(format!(in alloc; "C{k:04}.java")?)
}
