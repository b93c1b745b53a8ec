//! Look-ups of a word by its bytes.
ghost use Rattle.std.specs.Prelude.{◌≡◌, nat_eq};
ghost use Rattle.std.proofs.Common.{ap};
ghost use Rattle.std.specs.Cmp.Lexicographic.{bytes_decides, nat_list_eq_equiv};
ghost use Rattle.std.specs.Hash as fed;
ghost use Rattle.std.specs.Str.{bytes_eq};

use ec_lex::word::Word;
use indexmap::Equivalent;

/// The bytes of a word, or of a part of one.
#[derive(Clone, Copy, PartialEq, Eq, Hash)]
pub(crate) struct Bytes<'w>(pub(crate) &'w [u8]);

impl<'w> Equivalent<Word> for Bytes<'w> {
    ghost equivalent = { λ q k. bytes_eq q.0.now k };

    ghost respects_hash = { λ q k h. ap (fed.slice fed.u8) ((bytes_decides q.0.now k).0 h) };

    ghost respects_eq = { λ q x y. nat_list_eq_equiv.congr q.0.now x y };

    fn equivalent(&self, key: &Word) -> bool {
        self.0 == key.bytes()
    }
}
