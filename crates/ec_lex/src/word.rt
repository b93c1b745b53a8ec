//! A word of a text.
ghost use Rattle.std.specs.Prelude.{◌≡◌, ◌≤◌, nat_eq, length, IfOk};
ghost use Rattle.std.proofs.Common.{rules};
ghost use Rattle.std.specs.Str.{IsUtf8};
ghost use Rattle.std.specs.Hash as fed;
ghost use Rattle.std.specs.Cmp.{partial_equiv_from_equiv};
ghost use Rattle.std.specs.Cmp.Lexicographic.{pointwise, nat_list_eq_equiv};
ghost use Rattle.std.specs.Cmp.Rules.{hashing};
ghost use Rattle.ec_lex.specs.Text.{bytes_of, IsText};

use std::alloc::{AllocError, Global};
use std::fmt;
use std::hash::{Hash, Hasher};
use std::marker::Model;

/// How many bytes lie in the word itself at most.
const ROOM: usize = 15;

/// Where the bytes of a word lie.
#[derive(Clone, Drop)]
enum Text {
    /// The first `len` of these.
    Inline { bytes: [u8; ROOM], len: u8 },
    /// In memory of their own; boxed, so that every word is small.
    Heap(Box<String>),
}

/// A word, seen as its bytes, which are UTF-8 text.
///
/// Words are compared and hashed by their bytes. A word takes 24 bytes, and one of more than 15 bytes
/// memory of its own.
#[derive(Clone, Drop)]
pub struct Word {
    text: Text,
}

impl Model for Word {
    ghost use Rattle.std.specs.Prelude.{List, ℕ};
    ghost use Rattle.ec_lex.specs.Text.{bytes_of, IsText};

    ghost Value = { List ℕ };

    ghost view = { λ w. bytes_of w.text };

    ghost invariant = { λ w. IsText w.text };
}

impl Word {
    /// The word with these bytes, which are copied.
    pub fn of(alloc: Global, bytes: &[u8]) -> Result<Word, AllocError>
        requires { IsUtf8 bytes.now }
        ensures { IfOk result (λ w. w ≡ bytes.now) }
    {
        let text = if bytes.len() <= ROOM {
            inline(bytes)
        } else {
            heap(alloc, bytes)?
        };
        Ok(Word { text })
    }

    /// The bytes of the word.
    pub fn bytes(&self) -> &[u8]
        ensures { result.now ≡ self.now }
    {
        self.text.bytes()
    }

    /// The word as text: the same bytes.
    pub fn text(&self) -> &str
        ensures { result.now ≡ self.now }
    {
        self.text.text()
    }
}

impl Text {
    fn bytes(&self) -> &[u8]
        requires { IsText self.now }
        ensures value { result.now ≡ bytes_of self.now }
        ensures text { IsUtf8 result.now }
    {
        match self {
            Text::Inline { bytes, len } => &bytes[..*len as usize],
            Text::Heap(text) => text.as_bytes(),
        }
    }

    fn text(&self) -> &str
        requires { IsText self.now }
        ensures { result.now ≡ bytes_of self.now }
    {
        match self {
            Text::Inline { bytes, len } => inline_text(&bytes[..*len as usize]),
            Text::Heap(text) => text.as_str(),
        }
    }
}

/// These bytes as text, which the word's invariant says they are.
fn inline_text(bytes: &[u8]) -> &str
    requires { IsUtf8 bytes.now }
    ensures { result.now ≡ bytes.now }
{
    let Ok(text) = std::str::from_utf8(bytes) else {
        unreachable!()
    };
    text
}

/// These bytes within the word.
fn inline(bytes: &[u8]) -> Text
    requires few { length bytes.now ≤ ROOM }
    requires text { IsUtf8 bytes.now }
    ensures bytes { bytes_of result ≡ bytes.now }
    ensures fits { IsText result }
{
    let mut inline = [0; ROOM];
    inline[..bytes.len()].copy_from_slice(bytes);
    Text::Inline {
        bytes: inline,
        len: bytes.len() as u8,
    }
}

/// These bytes in memory of their own.
fn heap(alloc: Global, bytes: &[u8]) -> Result<Text, AllocError>
    requires { IsUtf8 bytes.now }
    ensures bytes { IfOk result (λ t. bytes_of t ≡ bytes.now) }
    ensures fits { IfOk result IsText }
{
    let Ok(text) = std::str::from_utf8(bytes) else {
        unreachable!()
    };
    let text = String::from_str(alloc, text)?;
    Ok(Text::Heap(Box::new(alloc, text)?))
}

impl PartialEq for Word {
    ghost eq = { pointwise nat_eq };

    ghost laws = { partial_equiv_from_equiv nat_list_eq_equiv };

    fn eq(&self, other: &Word) -> bool {
        self.bytes() == other.bytes()
    }
}

impl Eq for Word {
    ghost laws = { nat_list_eq_equiv };
}

impl Hash for Word {
    ghost hash_input = { fed.slice fed.u8 };

    ghost respects_eq = { Prim.search (hashing, rules) };

    fn hash<H: Hasher>(&self, state: &mut H) {
        self.bytes().hash(state);
    }
}

impl fmt::Debug for Word {
    fn fmt<W: fmt::Write>(&self, f: &mut fmt::Formatter<W>) -> fmt::Result {
        fmt::Debug::fmt(&self.text(), f)
    }
}
