// One line of a sheet: period, one space, cost and newline.
ghost use Rattle.std.specs.Prelude.{◌≡◌};
ghost use Rattle.sheets.specs.Private.{line_read, line_seen};

use crate::field::number;

// The period and the cost of the line that the bytes begin with, and what stands behind it.
#[tactic(auto, unfolding(crate::specs::Private::line_read))]
pub(crate) fn line(s: &[u8]) -> Option<(u32, u32, &[u8])>
    ensures { line_seen result ≡ line_read s.now }
{
    let (period, rest) = number(s)?;
    let [b' ', rest @ ..] = rest else {
        return None;
    };
    let (cost, rest) = number(rest)?;
    let [b'\n', rest @ ..] = rest else {
        return None;
    };
    Some((period, cost, rest))
}
