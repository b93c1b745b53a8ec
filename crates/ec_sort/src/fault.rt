//! Why a book isn't sorted.
ghost use Rattle.std.specs.Prelude.{◌≡◌, IfOk};

use ec_lex::word::Word;
use ec_syntax::book::Refusal;
use std::alloc::AllocError;

/// Why a book has no signature and no sorted sentences.
#[derive(Debug, Drop)]
pub enum SortFault {
    /// Its first fault: an unknown sort or name (6, 9), another meaning (7), a range that lacks or is out of
    /// its limits (8), a wrong number of arguments (11), what doesn't fit (12), a number out of range (13),
    /// too great a bound (14), too many binders (15), or a statement that is left out (22).
    Refused(Refusal),
    /// There is no memory left.
    Memory,
}

/// A refusal at the line of a file, which is copied.
pub(crate) fn refusal(file: &Word, line: u32, code: u8, name: Word) -> Result<Refusal, AllocError>
    ensures { IfOk result (λ r. r ≡ record { code = code; file = file.now; line = line; name = name }) }
{
    let file = file.clone()?;
    Ok(Refusal {
        code,
        file,
        line,
        name,
    })
}
