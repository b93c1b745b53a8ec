//! Why a root file isn't accepted.
ghost use Rattle.std.specs.Prelude.{◌≡◌, codes, IfOk};
ghost use Rattle.ec_load.specs.Refusals.{in_file, refused};
ghost use Rattle.ec_accept.specs.Steps.{Refuses};

use ec_lex::word::Word;
use ec_syntax::book::Refusal;
use std::alloc::{AllocError, Global};

/// Why there is no theory.
#[derive(Debug, Drop)]
pub enum AcceptFault {
    /// The first refusal.
    Refused(Refusal),
    /// A file failed to be read.
    Files,
    /// There was no memory for it.
    Memory,
}

/// A refusal of a whole file.
pub fn of_file(alloc: Global, code: u8, file: &str, name: &str) -> Result<Refusal, AllocError>
    ensures { IfOk result (λ refusal. refusal ≡ refused code (in_file file.now 0) name.now) }
{
    let file = Word::of(alloc, file.as_bytes())?;
    let name = Word::of(alloc, name.as_bytes())?;
    Ok(Refusal {
        code,
        file,
        line: 0,
        name,
    })
}

/// The fault of a root that is refused as a whole.
fn refuse(alloc: Global, code: u8, root: &str, name: &str) -> AcceptFault
    ensures { Refuses (refused code (in_file root.now 0) name.now) result }
{
    match of_file(alloc, code, root, name) {
        Ok(refusal) => AcceptFault::Refused(refusal),
        Err(_) => AcceptFault::Memory,
    }
}

/// The refusal of a root whose theory has too many visible atoms.
pub(crate) fn too_many(alloc: Global, root: &str) -> AcceptFault
    ensures { Refuses (refused 20 (in_file root.now 0) (codes "atoms")) result }
{
    refuse(alloc, 20, root, "atoms")
}

/// The refusal of a root whose theory is too heavy.
pub(crate) fn too_heavy(alloc: Global, root: &str) -> AcceptFault
    ensures { Refuses (refused 19 (in_file root.now 0) (codes "weight")) result }
{
    refuse(alloc, 19, root, "weight")
}
