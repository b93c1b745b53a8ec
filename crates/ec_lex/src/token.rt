//! Tokens and lexical faults.
use crate::word::Word;
use std::alloc::{AllocError, AllocFailed};

/// What a token is.
#[derive(Clone, Copy, Debug, PartialEq, Eq)]
pub enum Kind {
    /// `A` to `Z`, then letters, digits and `_`.
    Upper,
    /// `a` to `z`, then letters, digits and `_`.
    Lower,
    /// Digits, of a number of at most 1,000,000,000.
    Number,
    /// What stands behind the word `load` on its line.
    Load,
    /// What stands behind the word `option` on its line.
    Choice,
    /// A sign of one, two or three bytes.
    Sign,
}

/// A token: its word, the line that it stands on, counted from 1, and its kind. In this order a token
/// takes 32 bytes.
#[derive(Clone, Debug, PartialEq, Eq, Drop)]
pub struct Token {
    pub word: Word,
    pub line: u32,
    pub kind: Kind,
}

/// Why bytes have no tokens.
#[derive(Debug, PartialEq, Eq, Drop)]
pub enum LexFault {
    /// A byte that begins no token, or that may not stand in the text of a load or an option.
    BadByte { line: u32, byte: u8 },
    /// A number over 1,000,000,000; the word is its digits.
    TooLarge { line: u32, word: Word },
    /// There was no memory.
    Memory,
}

impl From<AllocError> for LexFault {
    ghost use Rattle.std.specs.Prelude.{◌≡◌};
    ghost use Rattle.ec_lex.specs.declared.token.LexFault.TheVariants.{Memory};

    ghost from_gives = { λ _ e. e ≡ Memory };

    fn from(_error: AllocError) -> LexFault {
        LexFault::Memory
    }
}

impl<T: Drop> From<AllocFailed<T>> for LexFault {
    ghost use Rattle.std.specs.Prelude.{◌≡◌};
    ghost use Rattle.ec_lex.specs.declared.token.LexFault.TheVariants.{Memory};

    ghost from_gives = { λ _ e. e ≡ Memory };

    fn from(_failed: AllocFailed<T>) -> LexFault {
        LexFault::Memory
    }
}
