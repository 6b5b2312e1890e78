// Sizes shares: queries from standard input, one a line, answers to standard output. The answer to each
// line that has come is written before more input is waited for.
#![tactic(auto)]

ghost use Rattle.std.specs.Prelude.{◌+◌, ◌≤◌, ◌≡◌, ◌||◌, ltb, length, drop};
ghost use Rattle.reads.specs.Machine.{HasServed};
ghost use Rattle.queries.specs.Text.{answer_in, Written};
ghost use Rattle.queries.specs.Meaning.{until};
ghost use Rattle.sizing.specs.Program.{line_answer, run_of, newline, begun};
ghost use Rattle.sizing.specs.Laws.{runs_nil, runs_more, runs_few};
ghost use Rattle.sizing.specs.Goes.{Went};

use queries::{LONGEST_ANSWER, LONGEST_LINE};
use reads::{Machine, Served, Stand};
use std::io::{Read, Write};

// Whether the line that has begun is too long already, and is let go as it comes.
#[derive(Clone, Copy, Debug, PartialEq, Eq)]
struct Sizer {
    long: bool,
}

// What a go served: whether the line that has begun then is too long, how many bytes of its part are used, how many bytes of answers stand in front of
// its room, and whether it ended because that is full.
// (`full` stays for the proof: `Went` of specs/Goes tells by it a go that ended for want of room from one that has served all.)
#[derive(Clone, Copy, Debug, PartialEq, Eq)]
struct Go {
    long: bool,
    used: usize,
    written: usize,
    full: bool,
}

// The answer to a line that has ended.
fn told(long: bool, line: &[u8], out: &mut [u8]) -> usize
    ensures { Written (answer_in (line_answer long line.now) out.old) out.old out.new result }
{
    if long {
        return queries::bad_line(out);
    }
    queries::answer(line, out)
}

fn is_too_long(long: bool, size: usize) -> bool
    ensures { result ≡ long || ltb 65535 size }
{
    if long {
        return true;
    }
    LONGEST_LINE < size
}

// The place of the newline that ends the line that begins at `from`; the end of the part where there is none.
// One call of the library, as in sales and queries: a function for all three would be a public promise more.
fn line_end(part: &[u8], from: usize) -> usize
    requires { from ≤ length part.now }
    ensures { result ≡ from + length (until 10 (drop from part.now)) }
{
    let rest = &part[from..];
    from + rest.iter().position(|&b| b == b'\n').unwrap_or(rest.len())
}

// Answers the lines of the part that have ended, until there is no room for a longest answer.
fn answers(begun: bool, part: &[u8], out: &mut [u8]) -> Go
    ensures { Went begun part.now out.new result }
{
    let mut long = begun;
    // By places: how many bytes are used is handed on, and a full room ends it before a line is taken.
    let mut used = 0;
    let mut written = 0;
    loop {
        let end = line_end(part, used);
        if end == part.len() {
            let too_long = is_too_long(long, end - used);
            if too_long {
                return Go {
                    long: true,
                    used: end,
                    written,
                    full: false,
                };
            }
            return Go {
                long: false,
                used,
                written,
                full: false,
            };
        }
        if out.len() - written < LONGEST_ANSWER {
            return Go {
                long,
                used,
                written,
                full: true,
            };
        }
        let room = &mut out[written..];
        written += told(long, &part[used..end], room);
        long = false;
        used = end + 1;
    }
}

// The end of the input ends the last line as a newline does. An empty line is answered nothing, so that this is right where
// none waits, too.
impl Machine for Sizer {
    ghost run = { run_of };

    ghost ending = { newline };

    fn end_byte(&self) -> Option<u8> {
        Some(b'\n')
    }

    fn serve_part(&mut self, part: &[u8], offset: u64, last: bool, out: &mut [u8]) -> Served {
        let go = answers(self.long, part, out);
        self.long = go.long;
        Served {
            used: go.used,
            written: go.written,
            end: None,
        }
    }

    ghost run_nil = { runs_nil };

    ghost run_more = { runs_more };

    ghost few_wait = { runs_few };
}

// Reads and serves until there is a reason to end.
fn run<R: Read, W: Write>(from: &mut R, output: &mut W) -> (Sizer, Stand)
    ensures { HasServed run_of newline begun result.0 result.1 (R.remaining from.old) (R.remaining from.new) (W.contents output.old) (W.contents output.new) }
{
    let mut sizer = Sizer { long: false };
    let stand = reads::serve(&mut sizer, from, output, &mut []);
    (sizer, stand)
}

fn main(rt: HostRuntime) {
    let (_, stand) = run(&mut rt.stdin(), &mut rt.stdout());
    reads::tell(
        &mut rt.stderr(),
        stand.end,
        b"sizing: a read failed\n",
        b"sizing: a write failed\n",
    );
}
