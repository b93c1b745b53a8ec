//! A whole file, up to a limit.
ghost use Rattle.std.specs.Prelude.{◌≡◌, ◌+◌, ◌≤◌, None, nat_lt, IsTrue, IsSomeAnd, IfOk, IsErrOf, vec_len};
ghost use Rattle.ec_edge.specs.Causes.{Rose};
ghost use Rattle.ec_edge.specs.Pieces.{AllStay, IsRead};

use crate::{FileFault, Files};
use std::alloc::Global;

// How many bytes one call of `piece` asks for at most.
const PIECE: usize = 4096;

/// What was read of a file: its bytes up to one past a limit, and whether it goes past the limit.
#[derive(Debug, Drop)]
pub struct Whole {
    pub bytes: Vec<u8>,
    pub past: bool,
}

/// Joins the pieces of a file, up to one byte past the limit.
///
/// It ends at the first piece of no bytes, or at byte `limit + 1`, so it takes at most `limit + 1`
/// bytes. Its refusals are those of `piece`, or want of memory for the bytes.
pub fn read_whole<F: Files>(
    alloc: Global,
    files: &mut F,
    name: &str,
    limit: u32,
) -> Result<Whole, FileFault>
    requires { limit ≤ 268435456 }
    ensures length { IfOk result (λ whole. vec_len whole.bytes ≤ limit + 1) }
    ensures past { IfOk result (λ whole. whole.past ≡ nat_lt limit (vec_len whole.bytes)) }
    ensures bytes { IsTrue (F.tells files.old) → IfOk result (λ whole.
        IsSomeAnd (F.held files.old name.now) (λ bytes. IsRead bytes limit whole.bytes.items whole.past)) }

    ensures absent { IsErrOf result FileFault.Absent → Rose (F.absences files.old) (F.absences files.new) }
    ensures missing { IsTrue (F.tells files.old) → IsErrOf result FileFault.Absent →
        F.held files.old name.now ≡ None }
    ensures failed { IsErrOf result FileFault.Failed → Rose (F.faults files.old) (F.faults files.new) }

    ensures stays { AllStay (F.held files.old) (F.held files.new) }
    ensures failed_starts { F.failed_starts files.new ≡ F.failed_starts files.old }
    ensures tells { F.tells files.new ≡ F.tells files.old }
    ensures faults { F.faults files.old ≤ F.faults files.new }
    ensures absences { F.absences files.old ≤ F.absences files.new }
{
    let end = limit as usize + 1;
    let mut bytes = Vec::new(alloc);
    let mut buf = [0u8; PIECE];
    while bytes.len() < end {
        let want = PIECE.min(end - bytes.len());
        let n = files.piece(name, bytes.len() as u64, &mut buf[..want])?;
        if n == 0 {
            return Ok(Whole { bytes, past: false });
        }
        bytes.extend_from_slice(&buf[..n])?;
    }
    Ok(Whole { bytes, past: true })
}
