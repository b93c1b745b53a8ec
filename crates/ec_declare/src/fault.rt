//! Why a declaration is refused.
ghost use Rattle.std.specs.Prelude.{◌≡◌, IfOk, Some};
ghost use Rattle.ec_declare.specs.Codes.{number_of};
ghost use Rattle.ec_declare.specs.Faults.{fault_at};

use ec_lex::word::Word;
use std::alloc::AllocError;

/// What is wrong.
#[derive(Clone, Copy, Debug, PartialEq, Eq)]
pub enum Code {
    /// A sort that isn't declared.
    UnknownSort,
    /// A name that the book declares otherwise, a sort that is its own ancestor, or a second, other range.
    OtherMeaning,
    /// A sort of whole numbers in use without a range, or a range out of its limits.
    NoRange,
    /// A name after `noninertial` that isn't declared.
    UnknownName,
    /// A sort of a kind that its place doesn't take, or a name after `noninertial` that is no fluent.
    Misfit,
    /// A statement that is left out by name.
    LeftOut,
}

impl Code {
    /// The number of the refusal.
    pub fn number(self) -> u8
        ensures { result ≡ number_of self }
    {
        match self {
            Code::UnknownSort => 6,
            Code::OtherMeaning => 7,
            Code::NoRange => 8,
            Code::UnknownName => 9,
            Code::Misfit => 12,
            Code::LeftOut => 22,
        }
    }
}

/// What is wrong, and the word that the refusal gives.
#[derive(Debug, PartialEq, Eq, Drop)]
pub struct Fault {
    pub code: Code,
    pub name: Word,
}

/// The fault at a word.
pub(crate) fn refused(code: Code, name: &Word) -> Result<Option<Fault>, AllocError>
    ensures { IfOk result (λ fault. fault ≡ Some (fault_at code name.now)) }
{
    let name = name.clone()?;
    Ok(Some(Fault { code, name }))
}
