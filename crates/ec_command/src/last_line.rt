//! The last line of a text.
ghost use Rattle.std.specs.Prelude.{◌≡◌};
ghost use Rattle.ec_command.specs.LastLine.{last_behind, last_line, lines_of};

use ec_edge::first_line;

/// The last line of a text, without its end, or the empty one. Linear in the text.
pub fn last_line(text: &[u8]) -> &[u8]
    ensures { result.now ≡ last_line text.now }
{
    let mut last: &[u8] = b"";
    let mut rest = text;
    while let Some((line, more)) = first_line(rest) {
        last = line;
        rest = more;
    }
    last
}
