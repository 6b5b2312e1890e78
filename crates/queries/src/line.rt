// The line that answers a line.
ghost use Rattle.std.specs.Prelude.{◌≡◌, [], ◌≤◌, length};
ghost use Rattle.queries.specs.Text.{said, bad_line, answer_in, Written};
ghost use Rattle.queries.specs.Meaning.{trimmed, line_means};

use crate::answers::Fault;
use crate::ask::answer_to;
use crate::write::{LONGEST_ANSWER, put_answer};

// No line has more bytes; a longer one is answered that it is bad.
pub const LONGEST_LINE: usize = 65535;

const RETURN: u8 = b'\r';

// How many bytes a line has without a carriage return at its end.
pub fn trimmed_size(line: &[u8]) -> usize
    ensures { (result ≤ length line.now) × (result ≡ length (trimmed line.now)) }
{
    match line {
        [front @ .., RETURN] => front.len(),
        _ => line.len(),
    }
}

// The answer to a line that is too long, of which not all was kept.
// 0 and no Option where there is no room, here and of `answer`: `answer_in` is what they promise.
pub fn bad_line(out: &mut [u8]) -> usize
    ensures { Written (answer_in (said bad_line []) out.old) out.old out.new result }
{
    if out.len() < LONGEST_ANSWER {
        return 0;
    }
    put_answer(out, Err(Fault::BadLine))
}

// The line that answers this one, at the start of `out`, and how many bytes it has; none where this one is empty, and where a
// longest answer would have no room.
pub fn answer(line: &[u8], out: &mut [u8]) -> usize
    ensures { Written (answer_in (line_means line.now) out.old) out.old out.new result }
{
    if LONGEST_LINE < line.len() {
        return bad_line(out);
    }
    let n = trimmed_size(line);
    if n == 0 || out.len() < LONGEST_ANSWER {
        return 0;
    }
    put_answer(out, answer_to(&line[..n]))
}
