//! Refusals, and words for them.
ghost use Rattle.std.specs.Prelude.{◌≡◌, ◌<◌, codes, IfOk};
ghost use Rattle.ec_load.specs.Refusals.{refused as refused_at, in_file, hexadecimal, hexadecimal_digit};
ghost use Rattle.ec_load.specs.Answers.{Refuses};

use crate::fault::LoadFault;
use ec_lex::word::Word;
use ec_syntax::book::Refusal;
use std::alloc::{AllocError, Global};

/// A copy of the word.
pub(crate) fn copied(word: &Word) -> Result<Word, AllocError>
    ensures { IfOk result (λ w. w ≡ word.now) }
{
    word.clone()
}

/// The refusal by a code at a line of a file, with a name.
pub(crate) fn refused(code: u8, file: &Word, line: u32, name: Word) -> LoadFault
    ensures { Refuses (refused_at code (in_file file.now line) name) result }
{
    match copied(file) {
        Ok(file) => LoadFault::Refused(Refusal {
            code,
            file,
            line,
            name,
        }),
        Err(_) => LoadFault::Memory,
    }
}

/// The same, where the name is to be copied.
pub(crate) fn refused_file(code: u8, file: &Word, line: u32, name: &Word) -> LoadFault
    ensures { Refuses (refused_at code (in_file file.now line) name.now) result }
{
    match copied(name) {
        Ok(name) => refused(code, file, line, name),
        Err(_) => LoadFault::Memory,
    }
}

fn digit(n: u8) -> u8
    requires { n < 16 }
    ensures value { result ≡ hexadecimal_digit n }
    ensures low { result < 128 }
{
    if n < 10 { b'0' + n } else { b'a' + (n - 10) }
}

/// The two hexadecimal digits of a byte.
fn digits(alloc: Global, byte: u8) -> Result<Word, AllocError>
    ensures { IfOk result (λ w. w ≡ hexadecimal byte) }
{
    Word::of(alloc, &[digit(byte / 16), digit(byte % 16)])
}

/// The refusal of a byte that begins no token.
pub(crate) fn bad_byte(alloc: Global, file: &Word, line: u32, byte: u8) -> LoadFault
    ensures { Refuses (refused_at 2 (in_file file.now line) (hexadecimal byte)) result }
{
    match digits(alloc, byte) {
        Ok(name) => refused(2, file, line, name),
        Err(_) => LoadFault::Memory,
    }
}

/// The refusal of a sentence that is nested too deeply.
pub(crate) fn deep(alloc: Global, file: &Word, line: u32) -> LoadFault
    ensures { Refuses (refused_at 15 (in_file file.now line) (codes "depth")) result }
{
    match Word::of(alloc, b"depth") {
        Ok(name) => refused(15, file, line, name),
        Err(_) => LoadFault::Memory,
    }
}
