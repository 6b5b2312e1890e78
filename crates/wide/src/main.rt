// Row 4 on the library: a record's three bytes cannot carry an identifier above 24 bits, so the calls that meet it are made here.
// It writes the line of each reply; `stdout` has the lines that documents 01 and 02 give.
#![tactic(auto)]

use lines::{LONGEST_LINE, Row};
use std::io::Write;
use turns::{Change, Core, Description, LARGEST_TUNNEL};
use units::{Amount, Moment, Tunnel};

// Three identifiers above the largest: the next one, one with the same low 24 bits, and the largest 32-bit number.
const NEXT: u32 = LARGEST_TUNNEL + 1;

const ALIKE: u32 = 33554431;

const ALL_BITS: u32 = u32::MAX;

// A call, and the line of its reply; a line that cannot be written is let go.
fn call<W: Write>(output: &mut W, core: &mut Core, now: u64, change: Change) {
    let mut out = [0u8; LONGEST_LINE];
    let reply = core.step(Moment::new(now), change).map_err(Row::from);
    let written = lines::write_line(reply, &mut out);
    let _ = reads::write_all(output, &out[..written]);
}

fn admit(id: u32, period: u32, capacity: u32, kind: u8) -> Change {
    Change::Admit(Description {
        tunnel: Tunnel::new(id),
        period: Amount::new(period),
        capacity: Amount::new(capacity),
        priority: 1,
        kind,
    })
}

// Each call refused by row 4, with the core as it stood.
fn refused<W: Write>(output: &mut W, core: &mut Core) {
    call(output, core, 0, admit(NEXT, 10, 3, 0));
    call(output, core, 0, Change::Wake(Tunnel::new(ALIKE)));
    call(output, core, 0, Change::Block(Tunnel::new(ALIKE)));
    call(output, core, 0, Change::Remove(Tunnel::new(ALL_BITS)));
    call(output, core, 0, Change::Tick);
}

// Admits that meet row 5, row 11, row 12 and row 10: these come behind row 4, and before row 6.
fn behind<W: Write>(output: &mut W, core: &mut Core, id: u32) {
    call(output, core, 0, admit(id, 1000001, 3, 0));
    call(output, core, 0, admit(id, 10, 0, 0));
    call(output, core, 0, admit(id, 10, 11, 0));
    call(output, core, 0, admit(id, 10, 3, 3));
}

// Rows 1, 2 and 3 come before row 4.
fn ordered<W: Write>(output: &mut W, core: &mut Core) {
    call(output, core, 1000000000001, Change::Wake(Tunnel::new(NEXT)));
    call(output, core, 4, Change::Wake(Tunnel::new(NEXT)));
    call(output, core, 2, Change::Tick);
    call(output, core, 1, Change::Remove(Tunnel::new(NEXT)));
    call(output, core, 3, Change::Tick);
}

fn main(rt: HostRuntime) {
    let output = &mut rt.stdout();
    let mut core = Core::empty();
    call(output, &mut core, 0, admit(LARGEST_TUNNEL, 10, 3, 0));
    call(
        output,
        &mut core,
        0,
        Change::Wake(Tunnel::new(LARGEST_TUNNEL)),
    );
    refused(output, &mut core);
    behind(output, &mut core, NEXT);
    behind(output, &mut core, LARGEST_TUNNEL);
    ordered(output, &mut core);
}
