// Whose work is this? Event records from standard input, as `card` reads them; where the input ends, or reading is refused, the time, the
// idle ticks, those of removed tenants, how many tenants are on the card, and a line for each with its totals, by `status`, `first_from`
// and `look`.
#![tactic(auto)]

ghost use Rattle.std.specs.Prelude.{◌≤◌, length};

use reads::End;
use records::BadRecord;
use std::io::{self, Read, Write};
use turns::Core;
use units::Tunnel;

const BUFFER: usize = 65536;

// What became of a part: how many bytes of records were answered, and how the input was refused, if it was.
#[derive(Clone, Copy)]
struct Part {
    used: usize,
    refused: Option<BadRecord>,
}

// Serves the records of the part, in as many goes as the room for their lines asks for; nobody reads the lines.
fn serve(core: &mut Core, part: &[u8], offset: u64, last: bool) -> Part
    ensures { result.used ≤ length part.now }
{
    let mut out = [0u8; BUFFER];
    let mut used = 0;
    loop {
        let begins = offset.saturating_add(used as u64);
        let served = lines::serve(core, &part[used..], begins, last, &mut out);
        used += served.used;
        if served.refused.is_some() || served.used == 0 {
            return Part {
                used,
                refused: served.refused,
            };
        }
    }
}

// Reads and serves until there is a reason to end: how reading was refused, if it was. A proved loop has to end, and nothing says that the
// input does, so the rounds are counted.
// Not the loop of `reads`: a machine has laws to prove, and this program promises nothing of its run. One buffer, and how much of it waits: no heap.
fn run<R: Read>(from: &mut R, core: &mut Core) -> io::Result<Option<BadRecord>> {
    let mut input = [0u8; BUFFER];
    let mut offset: u64 = 0;
    let mut held = 0;
    for _round in 0..u64::MAX {
        let read = from.read(&mut input[held..])?;
        let end = held + read;
        let last = read == 0;
        let part = serve(core, &input[..end], offset, last);
        offset = offset.saturating_add(part.used as u64);
        let refused = part.refused.map(|_| End::Refused);
        if reads::ends_by(refused, last, offset).is_some() {
            return Ok(part.refused);
        }
        input.copy_within(part.used..end, 0);
        held = end - part.used;
    }
    Ok(None)
}

// A tenant's line.
fn list<W: Write>(output: &mut W, core: &Core, id: Tunnel) -> io::Result<()> {
    let v = core.look(id).vcpu;
    writeln!(
        output,
        "tenant {} held {} pending {} usable {}",
        id.number(),
        v.held.ticks(),
        v.pending.ticks(),
        v.usable.ticks()
    )
}

// The totals beside the tenants, the time first, and how many tenants follow, so that a reader sees where the rest was cut off; then all of
// them, in rising order; and what ended the reading, as `card` writes it.
fn tell<W: Write>(output: &mut W, core: &Core, refused: Option<BadRecord>) -> io::Result<()> {
    let status = core.status();
    // A newline is written with the word behind it: where a write fails, a number is the last that was written, and no newline behind it.
    write!(output, "time {}", status.time.ticks())?;
    write!(output, "\nidle {}", status.idle.ticks())?;
    write!(output, "\nremoved {}", status.removed.ticks())?;
    writeln!(output, "\ntenants {}", status.vcpus)?;
    let mut low = Tunnel::new(0);
    for _tenant in 0..status.vcpus {
        let Some(id) = core.first_from(low) else {
            break;
        };
        list(output, core, id)?;
        low = Tunnel::new(id.number().saturating_add(1));
    }
    if let Some(bad) = refused {
        writeln!(output, "no {} {}", bad.number(), bad.detail())?;
    }
    Ok(())
}

fn main(rt: HostRuntime) {
    let mut core = Core::empty();
    let Ok(refused) = run(&mut rt.stdin(), &mut core) else {
        let _ = writeln!(rt.stderr(), "usage: a read failed");
        return;
    };
    if tell(&mut rt.stdout(), &core, refused).is_err() {
        let _ = writeln!(rt.stderr(), "usage: a write failed");
    }
}
