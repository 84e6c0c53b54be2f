//! One source, read from its bytes.
ghost use Rattle.std.specs.Prelude.{◌≡◌, ℕ, ◌≤◌, ◌<◌, List, length, Ok, IfOk, IfErr};
ghost use Rattle.racer_base.specs.declared.limits.TheConstants.{MAX_FILE_BYTES, MAX_FOLDER_BYTES};
ghost use Rattle.java_lexer.specs.JavaTokens.{IsFaultOf, lexed_answer};
ghost use Rattle.java_lexer.specs.declared.token.Lexed.{Lexed};
ghost use Rattle.java_parser_grammar.specs.Units.{IsFault};
ghost use Rattle.racer_sources.specs.Sources.{IsShort, IsRead};
ghost use Rattle.racer_sources.specs.Reading.{IsFileFault};

use crate::fault::SourceFault;
use crate::refusal::Refusal;
use java_lexer::{LexFault, Lexed, lex};
use java_parser::parse_unit;
use java_tree::{ParseFault, Unit};
use racer_base::{FileId, MAX_FILE_BYTES, MAX_FOLDER_BYTES};
use std::alloc::Global;

/// Whether a file is not too long, and neither are the files up to and with it.
fn check_size(file: FileId, bytes: &[u8], sum: usize) -> Result<(), SourceFault>
    ensures short { IfOk result (λ _. IsShort sum bytes.now) }
    ensures fault { IfErr result (IsFileFault file sum bytes.now) }
{
    if bytes.len() > MAX_FILE_BYTES {
        return Err(SourceFault::Refused(Refusal::TooLong(file)));
    }
    if sum > MAX_FOLDER_BYTES {
        return Err(SourceFault::Refused(Refusal::TooManyBytes(sum)));
    }
    Ok(())
}

/// Why a file without tokens is refused.
fn lexical_fault(file: FileId, fault: LexFault) -> SourceFault
    ensures { (sum : ℕ) (bytes : List ℕ) → IsShort sum bytes → IsFaultOf (lexed_answer file bytes) fault
        → IsFileFault file sum bytes result }
{
    match fault {
        LexFault::NotUtf8(offset) => SourceFault::Refused(Refusal::NotUtf8(file, offset)),
        LexFault::BadCharacter(place) => SourceFault::Refused(Refusal::BadCharacter(place)),
        LexFault::Unclosed(place) => SourceFault::Refused(Refusal::Unclosed(place)),
        LexFault::BadLiteral(place) => SourceFault::Refused(Refusal::BadLiteral(place)),
        LexFault::Memory => SourceFault::Memory,
    }
}

/// Why a file that is no unit is refused.
fn unit_fault(fault: ParseFault) -> SourceFault
    ensures { (file : FileId) (sum : ℕ) (bytes : List ℕ) (lexed : Lexed) → IsShort sum bytes
        → lexed_answer file bytes ≡ Ok lexed → IsFault lexed.tokens lexed.end fault
        → IsFileFault file sum bytes result }
{
    match fault {
        ParseFault::Unbalanced(place) => SourceFault::Refused(Refusal::Unbalanced(place)),
        ParseFault::TooDeep(place) => SourceFault::Refused(Refusal::TooDeep(place)),
        ParseFault::NotAUnit(place) => SourceFault::Refused(Refusal::NotAUnit(place)),
        ParseFault::Memory => SourceFault::Memory,
    }
}

/// The tokens of a short file.
fn file_tokens(alloc: Global, file: FileId, sum: usize, bytes: &[u8]) -> Result<Lexed, SourceFault>
    requires { IsShort sum bytes.now }
    ensures tokens { IfOk result (λ lexed. lexed_answer file bytes.now ≡ Ok lexed) }
    ensures fault { IfErr result (IsFileFault file sum bytes.now) }
{
    match lex(alloc, file, bytes) {
        Ok(lexed) => Ok(lexed),
        Err(fault) => Err(lexical_fault(file, fault)),
    }
}

/// The unit that a file is, up to and with which there are so many bytes.
pub fn file_unit(alloc: Global, file: FileId, sum: usize, bytes: &[u8]) -> Result<Unit, SourceFault>
    ensures read { IfOk result (λ u. IsRead file sum bytes.now u) }
    ensures fault { IfErr result (IsFileFault file sum bytes.now) }
{
    check_size(file, bytes, sum)?;
    let lexed = file_tokens(alloc, file, sum, bytes)?;
    match parse_unit(alloc, &lexed) {
        Ok(unit) => Ok(unit),
        Err(fault) => Err(unit_fault(fault)),
    }
}
