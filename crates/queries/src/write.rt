// The line that an answer is written as. It is put into the lent buffer in parts: `writeln!` there costs three times as much.
ghost use Rattle.std.specs.Prelude.{◌≤◌, length};
ghost use Rattle.text.specs.Text.{Put};
ghost use Rattle.queries.specs.Text.{said, longest};
ghost use Rattle.queries.specs.Private.{text_of};

use crate::answers::{Fault, Told};
use text::{put_end, put_field, put_text};

// No line of an answer has more bytes: a text of at most 216, two numbers behind a space each, and a newline.
pub const LONGEST_ANSWER: usize = 259;

const HELP: &[u8] =
    b"supply P B t | demand i t TASKS | check P B TASKS | least P TASKS | best PMAX TASKS (TASKS: period cost period cost ..) | aligned before supply, check, least or best: for tasks released at starts of a resource period";

// A text, each number behind a space, and a newline.
fn put_line(out: &mut [u8], text: &[u8], numbers: &[u64]) -> usize
    requires { (longest ≤ length out.old) × (length text.now ≤ 216) × (length numbers.now ≤ 2) }
    ensures { Put out.old 0 (said text.now numbers.now) out.new result × (result ≤ longest) }
{
    let mut at = put_text(out, 0, text);
    for &n in numbers {
        at = put_field(out, at, n);
    }
    put_end(out, at)
}

// Inlined: the answer is then taken apart where it is made, and not stored and read back.
#[inline(always)]
#[tactic(auto, unfolding(crate::specs::Text::help))]
pub(crate) fn put_answer(out: &mut [u8], answer: Result<Told, Fault>) -> usize
    requires { longest ≤ length out.old }
    ensures { Put out.old 0 (text_of answer) out.new result × (result ≤ longest) }
{
    match answer {
        Ok(Told::Help) => put_line(out, HELP, &[]),
        Ok(Told::Number(n)) => put_line(out, b"ok", &[u64::from(n)]),
        Ok(Told::Share(s)) => put_line(out, b"ok", &[u64::from(s.period), u64::from(s.budget)]),
        Err(Fault::BadLine) => put_line(out, b"bad line", &[]),
        Err(Fault::BadWord) => put_line(out, b"bad word", &[]),
        Err(Fault::BadField(k)) => put_line(out, b"bad field", &[k as u64]),
        Err(Fault::Refused(r)) => put_line(
            out,
            b"no",
            &[u64::from(r.number()), u64::from(r.detail())],
        ),
    }
}
