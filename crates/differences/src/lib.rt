//! What differs from the rows of a table, as text. A test asserts that nothing does.
#![tactic(auto)]

ghost use Rattle.std.specs.Prelude.{◌≡◌, ◌≢◌, ◌++◌, OnOk, codes, string_bytes};

use std::alloc::AllocError;

/// Adds a line that tells of a row, unless its answer is the one that is wanted.
pub fn push_difference(out: &mut String, row: &str, want: &str, got: &str) -> Result<(), AllocError>
    ensures same { want.now ≡ got.now → string_bytes out.new ≡ string_bytes out.old }
    ensures differing { OnOk result (want.now ≢ got.now → string_bytes out.new ≡ string_bytes out.old ++ row.now ++ codes ": " ++ got.now ++ codes ", not " ++ want.now ++ codes "\n") }
{
    if got == want {
        return Ok(());
    }
    out.push_str(row)?;
    out.push_str(": ")?;
    out.push_str(got)?;
    out.push_str(", not ")?;
    out.push_str(want)?;
    out.push_str("\n")
}
