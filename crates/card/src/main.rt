// The card: event records from standard input, one line each to standard output. Every line that can be given is
// written before more input is waited for.
#![tactic(auto)]

ghost use Rattle.std.specs.Prelude.{◌≡◌, None};
ghost use Rattle.reads.specs.Machine.{HasServed};
ghost use Rattle.card.specs.Program.{end_of, run_of, uncalled};
ghost use Rattle.card.specs.Laws.{runs_nil, runs_more, runs_few};

use reads::{End, Machine, Served, Stand};
use records::BadRecord;
use std::io::{Read, Write};
use turns::Core;

// The core, and how the input was refused, if it was. It has no more derives than a core has.
#[derive(Clone, Copy)]
struct Teller {
    core: Core,
    refused: Option<BadRecord>,
}

fn end_of(refused: Option<BadRecord>) -> Option<End>
    ensures { result ≡ end_of refused }
{
    refused.map(|_| End::Refused)
}

// "After 20, 21 or 22 the program stops"; "At the end of input the program asks for no further record."
impl Machine for Teller {
    ghost run = { run_of };

    ghost ending = { None };

    fn end_byte(&self) -> Option<u8> {
        None
    }

    fn serve_part(&mut self, part: &[u8], offset: u64, last: bool, out: &mut [u8]) -> Served {
        let served = lines::serve(&mut self.core, part, offset, last, out);
        self.refused = served.refused.or(self.refused);
        Served {
            used: served.used,
            written: served.written,
            end: end_of(served.refused),
        }
    }

    ghost run_nil = { runs_nil };

    ghost run_more = { runs_more };

    ghost few_wait = { runs_few };
}

// Reads and serves until there is a reason to end.
fn run<R: Read, W: Write>(from: &mut R, output: &mut W) -> (Teller, Stand)
    ensures { HasServed run_of None uncalled result.0 result.1 (R.remaining from.old) (R.remaining from.new) (W.contents output.old) (W.contents output.new) }
{
    let mut teller = Teller {
        core: Core::empty(),
        refused: None,
    };
    let mut room = io::large_buffer();
    let stand = reads::serve(&mut teller, from, output, &mut room);
    (teller, stand)
}

fn main(rt: HostRuntime) {
    let (_, stand) = run(&mut rt.stdin(), &mut rt.stdout());
    reads::tell(
        &mut rt.stderr(),
        stand.end,
        b"card: a read failed\n",
        b"card: a write failed\n",
    );
}
