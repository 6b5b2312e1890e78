// A part of the input to lines.
ghost use Rattle.std.specs.Prelude.{◌+◌, ◌≤◌, ◌≡◌, length, Some};
ghost use Rattle.records.specs.Record.{told};
ghost use Rattle.text.specs.Text.{over};
ghost use Rattle.lines.specs.Serve.{waits_for, serve_of, handed};

use crate::line::{LONGEST_LINE, put_line, put_refusal};
use records::BadRecord;
use turns::Core;

// The bytes of the records answered, the bytes of their lines, and how the input was refused, if it was: then nothing more is read.
#[derive(Clone, Copy, Debug, PartialEq, Eq)]
pub struct Served {
    pub used: usize,
    pub written: usize,
    pub refused: Option<BadRecord>,
}

// A record that is cut short waits for the rest, unless no more input will come.
fn waits(bad: BadRecord, last: bool) -> bool
    ensures { result ≡ waits_for bad last }
{
    matches!(bad, BadRecord::CutShort(_)) && !last
}

// The offset at which a record begins, `used` bytes behind that of its part; the largest number where it has more
// than 64 bits.
fn begins(offset: u64, used: usize) -> u64
    ensures { result ≡ told (offset + used) }
{
    offset.saturating_add(used as u64)
}

// Answers the records at the front of the part while there is room for a longest line. `offset` is where the part begins,
// from the start of the input; `last` says that no more input will come.
pub fn serve(core: &mut Core, input: &[u8], offset: u64, last: bool, out: &mut [u8]) -> Served
    ensures handed_back { result ≡ handed (serve_of core.old offset input.now last (Some (length out.old))) }
    ensures core_after { core.new ≡ (serve_of core.old offset input.now last (Some (length out.old))).core }
    ensures out_after { out.new ≡ over (serve_of core.old offset input.now last (Some (length out.old))).lines out.old }
    ensures used_in_bounds { (result.used ≤ length input.now) × (result.written ≤ length out.old) }
{
    let mut used = 0;
    let mut written = 0;
    // By bytes used: records differ in size, and each is told where it begins. The room is lent, and filled from the front: fixed memory.
    while used < input.len() && LONGEST_LINE <= out.len() - written {
        let read = records::read(&input[used..], begins(offset, used));
        // Document 01 names this form.
        let Ok(event) = read else {
            let bad = read.unwrap_err();
            if waits(bad, last) {
                break;
            }
            written = put_refusal(out, written, bad.number(), bad.detail());
            return Served {
                used,
                written,
                refused: Some(bad),
            };
        };
        let reply = core.step(event.time, event.change);
        written = put_line(out, written, reply);
        used += records::size(event);
    }
    Served {
        used,
        written,
        refused: None,
    }
}
