//! Why a sentence is refused.
ghost use Rattle.std.specs.Prelude.{◌≡◌, IfOk};
ghost use Rattle.ec_walk.specs.Codes.{number_of};

use ec_lex::word::Word;
use std::alloc::{AllocError, Global};

/// What is wrong.
#[derive(Clone, Copy, Debug, PartialEq, Eq)]
pub enum Code {
    /// A variable of no sort.
    UnknownSort,
    /// A variable of a sort of whole numbers that has no range.
    NoRange,
    /// A name that isn't declared.
    UnknownName,
    /// A name with too few or too many arguments.
    ArgumentCount,
    /// A term, an operand or a side that doesn't fit, or a name of the wrong kind.
    Misfit,
    /// A whole number outside the range of its place.
    OutOfRange,
    /// Arithmetic whose bound is over 2^62.
    Arithmetic,
    /// A seventeenth variable bound at one time.
    Binders,
}

impl Code {
    /// The number of the refusal.
    pub fn number(self) -> u8
        ensures { result ≡ number_of self }
    {
        match self {
            Code::UnknownSort => 6,
            Code::NoRange => 8,
            Code::UnknownName => 9,
            Code::ArgumentCount => 11,
            Code::Misfit => 12,
            Code::OutOfRange => 13,
            Code::Arithmetic => 14,
            Code::Binders => 15,
        }
    }
}

/// What is wrong, and the word that the refusal gives.
#[derive(Debug, PartialEq, Eq, Drop)]
pub struct Fault {
    pub code: Code,
    pub name: Word,
}

/// A fault with a word of the text.
pub(crate) fn of_word(code: Code, name: &Word) -> Result<Option<Fault>, AllocError>
    ensures { IfOk result (λ f. f ≡ Some (record { code = code; name = name.now })) }
{
    let name = name.clone()?;
    Ok(Some(Fault { code, name }))
}

/// A fault with a word that stands in no text.
pub(crate) fn of_text(alloc: Global, code: Code, name: &str) -> Result<Option<Fault>, AllocError>
    ensures { IfOk result (λ f. f ≡ Some (record { code = code; name = name.now })) }
{
    let name = Word::of(alloc, name.as_bytes())?;
    Ok(Some(Fault { code, name }))
}
