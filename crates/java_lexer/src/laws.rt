//! Laws of the definitions that the contracts cite, by functions that do nothing.
ghost use Rattle.std.specs.Prelude.{◌≡◌, ◌≢◌, ◌↔◌, ◌≤◌, ℕ, List, [], ◌∷◌, ◌++◌, length, IsTrue, None, Some, map, codes};
ghost use Rattle.racer_base.specs.declared.ids.FileId.{FileId};
ghost use Rattle.java_lexer.specs.Divisions.{Piece, Divides, IsDivision, pieces, joined, undivided};
ghost use Rattle.java_lexer.specs.Tokens.{GoForward, texts};
ghost use Rattle.java_lexer.specs.JavaKinds.{java_kind, java_fault, java_lexis};
ghost use Rattle.java_lexer.specs.JavaTokens.{java_tokens};
ghost use Rattle.java_lexer.specs.JavaExample.{java_example, java_example_tokens};
ghost use Rattle.java_lexer.specs.Literals.{backslash, is_quoted, is_text};
ghost use Rattle.java_lexer.specs.Items.{QuotedOfItems, TextOfItems};

use crate::TokenKind;
use crate::piece::{LexicalFault, PieceKind};

/// Up to the first place where no piece stands, a text is divided in one way into the pieces of Java, and no
/// longer front of it has a division. Where no fault is named there, nothing is left.
pub fn one_java_division()
    ensures divides { (text : List ℕ)
        → IsDivision java_lexis (pieces java_lexis text) text (undivided java_lexis text) }
    ensures only { (ps : List Piece) (text rest : List ℕ) → IsDivision java_lexis ps text rest
        → (ps ≡ pieces java_lexis text) × (rest ≡ undivided java_lexis text) }
    ensures longest { (ps : List Piece) (text rest : List ℕ) → Divides java_lexis ps text rest
        → length (undivided java_lexis text) ≤ length rest }
    ensures whole { (text : List ℕ)
        → java_fault (undivided java_lexis text) ≡ None → undivided java_lexis text ≡ [] }
{}

/// The pieces, one after the other, and what is left behind them are the text.
pub fn pieces_are_the_text()
    ensures { (text : List ℕ) → joined (pieces java_lexis text) ++ undivided java_lexis text ≡ text }
{}

/// No token has a place before that of an earlier one.
pub fn tokens_go_forward()
    ensures { (file : FileId) (bytes : List ℕ) → GoForward (java_tokens file bytes) }
{}

/// What is closed on its line is a quote, items one after the other, and the quote. An item is one byte other
/// than the quote, a backslash and a line end, or a backslash and any byte that ends no line. The quote may be
/// any byte but a backslash.
pub fn quoted_items()
    ensures { (quote : ℕ) (bytes : List ℕ) → quote ≢ backslash
        → (IsTrue (is_quoted quote bytes) ↔ QuotedOfItems quote bytes) }
{}

/// A text literal is a double quote, items one after the other, and a double quote. An item is one byte other
/// than a double quote, a backslash and a line end, or a backslash and an escape.
pub fn text_items()
    ensures { (bytes : List ℕ) → IsTrue (is_text bytes) ↔ TextOfItems bytes }
{}

/// Tokens computed from the definition.
pub fn java_examples()
    ensures shifts { (file : FileId) → texts (java_tokens file (codes "x>>=y>>z"))
        ≡ codes "x" ∷ codes ">>=" ∷ codes "y" ∷ codes ">" ∷ codes ">" ∷ codes "z" ∷ [] }
    ensures exponents { (file : FileId) → texts (java_tokens file (codes "1e+5 0x1e+5 .5"))
        ≡ codes "1e+5" ∷ codes "0x1e" ∷ codes "+" ∷ codes "5" ∷ codes ".5" ∷ [] }
    ensures dots { (file : FileId) → texts (java_tokens file (codes "....")) ≡ codes "..." ∷ codes "." ∷ [] }
    ensures whole { (file : FileId) → java_tokens file java_example ≡ java_example_tokens file }
{}

/// Faults computed from the definition.
pub fn fault_examples()
    ensures short_comment { java_fault (codes "/*/") ≡ Some LexicalFault.Unclosed }
    ensures line_feed { java_fault (codes "'\\u000a'") ≡ Some LexicalFault.BadLiteral }
    ensures long_octal { java_fault (codes "'\\400'") ≡ Some LexicalFault.BadLiteral }
    ensures octal_in_text { java_kind (codes "\"\\400\"") ≡ Some (PieceKind.Token TokenKind.Text) }
    ensures three_quotes { java_fault (codes "\"\"\"") ≡ Some LexicalFault.BadLiteral }
    ensures open_escape { java_fault (codes "\"\\\"") ≡ Some LexicalFault.Unclosed }
{}
