//! What a file says by itself.
ghost use Rattle.std.specs.Prelude.{◌≡◌, ◌≤◌, ◌^◌, length, IsTrue, IfOk, All};
ghost use Rattle.ec_edge.specs.Causes.{Rose};
ghost use Rattle.ec_edge.specs.Pieces.{AllStay};
ghost use Rattle.ec_lex.specs.Lex.{IsFormed};
ghost use Rattle.ec_load.specs.Refusals.{in_file};
ghost use Rattle.ec_load.specs.Opening.{Says, Opens};
ghost use Rattle.ec_load.specs.Sound.{AreNamed, counted};
ghost use Rattle.ec_load.specs.Answers.{Answers, LexesTo, SpellTo, FailsByText, FailsByCause, statements_of, tokens_of};

use crate::fault::LoadFault;
use crate::refusals::{bad_byte, deep, refused, refused_file};
use ec_edge::{FileFault, Files, read_whole};
use ec_lex::lexer::tokens;
use ec_lex::token::{LexFault, Token};
use ec_lex::word::Word;
use ec_parse::fault::ParseFault;
use ec_parse::statements::statements;
use ec_syntax::statement::Statement;
use std::alloc::Global;

/// A file has at most so many bytes.
const FILE_LIMIT: u32 = 1_048_576;

fn lexed(alloc: Global, file: &Word, bytes: &[u8]) -> Result<Vec<Token>, LoadFault>
    requires { length bytes.now ≤ 2 ^ 20 }
    ensures says { Answers tokens_of (LexesTo file.now bytes.now) result }
    ensures forms { IfOk result (λ found. All IsFormed found.items) }
    ensures text { FailsByText result }
{
    match tokens(alloc, bytes) {
        Ok(found) => Ok(found),
        Err(LexFault::BadByte { line, byte }) => Err(bad_byte(alloc, file, line, byte)),
        Err(LexFault::TooLarge { line, word }) => Err(refused(5, file, line, word)),
        Err(LexFault::Memory) => Err(LoadFault::Memory),
    }
}

fn parsed(alloc: Global, file: &Word, tokens: &[Token]) -> Result<Vec<Statement>, LoadFault>
    ensures says { Answers statements_of (SpellTo file.now tokens.now) result }
    ensures text { FailsByText result }
{
    match statements(alloc, tokens) {
        Ok(found) => Ok(found),
        Err(ParseFault::Syntax { line, word }) => Err(refused(5, file, line, word)),
        Err(ParseFault::Deep { line }) => Err(deep(alloc, file, line)),
        Err(ParseFault::Memory) => Err(LoadFault::Memory),
    }
}

/// The statements that the bytes of a file spell, or its first fault.
fn said(alloc: Global, file: &Word, bytes: &[u8]) -> Result<Vec<Statement>, LoadFault>
    requires { length bytes.now ≤ 2 ^ 20 }
    ensures says { Answers statements_of (Says file.now bytes.now) result }
    ensures named { IfOk result (λ found. All AreNamed (statements_of found)) }
    ensures few { IfOk result (λ found. counted (statements_of found) ≤ 2 ^ 20) }
    ensures text { FailsByText result }
{
    match lexed(alloc, file, bytes) {
        Ok(tokens) => parsed(alloc, file, &tokens),
        Err(fault) => Err(fault),
    }
}

/// The statements of a file that is asked for at a line of another file, or its first fault.
pub(crate) fn opened<F: Files>(
    alloc: Global,
    files: &mut F,
    from: &Word,
    line: u32,
    file: &Word,
) -> Result<Vec<Statement>, LoadFault>
    ensures opens { IsTrue (F.tells files.old) →
        Answers statements_of (Opens (in_file from.now line) file.now (F.held files.old file.now)) result }
    ensures named { IfOk result (λ found. All AreNamed (statements_of found)) }
    ensures few { IfOk result (λ found. counted (statements_of found) ≤ 2 ^ 20) }
    ensures cause { FailsByCause (F.faults files.old) (F.faults files.new) (F.absences files.old) (F.absences files.new) result }
    ensures stays { AllStay (F.held files.old) (F.held files.new) }
    ensures failed_starts { F.failed_starts files.new ≡ F.failed_starts files.old }
    ensures tells { F.tells files.new ≡ F.tells files.old }
    ensures faults { F.faults files.old ≤ F.faults files.new }
    ensures absences { F.absences files.old ≤ F.absences files.new }
{
    match read_whole(alloc, files, file.text(), FILE_LIMIT) {
        Ok(whole) => {
            if whole.past {
                return Err(refused_file(3, from, line, file));
            }
            said(alloc, file, &whole.bytes)
        }
        Err(FileFault::Absent) => Err(refused_file(1, from, line, file)),
        Err(FileFault::Failed) => Err(LoadFault::Files),
        Err(FileFault::Memory) => Err(LoadFault::Memory),
    }
}
