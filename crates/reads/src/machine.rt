// One loop for every program that serves what it reads, over a machine that says how a part of the input is served.
ghost use Rattle.std.specs.Prelude.{◌≡◌, ◌+◌, ◌^◌, ◌≤◌, ◌<◌, ◌++◌, ◌⊎◌, ℕ, Bool, false, List, [], eqb, length, take, drop, Option, Some, None};
ghost use Rattle.reads.specs.declared.machine.End.TheVariants.{WriteFailed};
ghost use Rattle.reads.specs.Reads.{HasWrittenSome};
ghost use Rattle.reads.specs.Machine.{Run, further, unserved, Serving, Went, ends_by, round_at, served_part, Wrote, ended, HasServed, message_of};

use crate::{MOST_BYTES, move_rest, read_part, write_all};
use std::io::{Read, Write};

// The least room for the replies of a go.
const LEAST_ROOM: usize = 4096;

// Why a program ends.
#[derive(Clone, Copy, Debug, PartialEq, Eq)]
pub enum End {
    EndOfInput,
    Refused,
    ReadFailed,
    WriteFailed,
    ByteLimit,
}

// What a go served: how many bytes of its part are used, how many bytes of replies stand in front of its room, and, where
// nothing more is served, why.
#[derive(Clone, Copy, Debug, PartialEq, Eq)]
pub struct Served {
    pub used: usize,
    pub written: usize,
    pub end: Option<End>,
}

// How a program stands: the offset of the first byte that waits for more, how many wait, and, where it ends, why.
#[derive(Clone, Copy, Debug, PartialEq, Eq)]
pub struct Stand {
    pub offset: u64,
    pub held: usize,
    pub end: Option<End>,
}

// What serves the bytes of an input, in whatever parts they come.
pub trait Machine {
    // What serving these bytes gives, which begin at an offset from the start of the input, with room for all replies.
    ghost run: { Serving Self };

    // The byte that the end of the input is, where it is one.
    ghost ending: { Option ℕ };

    fn end_byte(&self) -> Option<u8>
        ensures { result ≡ ending };

    // Serves what it can of a part that begins at `offset`; `last` says that no more input comes. With room for 4,096 bytes
    // of replies it uses a byte wherever more can be served.
    fn serve_part(&mut self, part: &[u8], offset: u64, last: bool, out: &mut [u8]) -> Served
        ensures { 4096 ≤ length out.old → Went run self.old offset part.now last self.new out.new result };

    ghost run_nil: { (m : Self) (offset : ℕ) → run m offset [] false ≡ unserved m };

    // Serving what waits with the bytes that come goes on from what was served before.
    ghost run_more: { (m : Self) (offset : ℕ) (s more : List ℕ) (last : Bool) → (run m offset s false).end ≡ None
        → run m offset (s ++ more) last
        ≡ further (run m offset s false)
        (run (run m offset s false).machine (offset + (run m offset s false).used) (drop (run m offset s false).used s ++ more) last) };

    // No more than 65,535 bytes wait.
    ghost few_wait: { (m : Self) (offset : ℕ) (s : List ℕ) → (run m offset s false).end ≡ None
        → ((run m offset s false).used ≤ length s) × (length s ≤ (run m offset s false).used + 65535) };
}

// Why a program ends that has served what a read brought: by the machine's own reason, by the end of the input, or by the
// offset that it is at.
pub fn ends_by(end: Option<End>, last: bool, offset: u64) -> Option<End>
    ensures { result ≡ ends_by end last offset }
{
    if end.is_some() {
        return end;
    }
    if last {
        return Some(End::EndOfInput);
    }
    if offset >= MOST_BYTES {
        return Some(End::ByteLimit);
    }
    None
}

// Serves a part and writes the replies, in as many goes as the room for them asks for.
fn serve_all<M: Machine, W: Write>(
    machine: &mut M,
    output: &mut W,
    part: &[u8],
    offset: u64,
    last: bool,
    out: &mut [u8],
) -> Stand
    requires { (4096 ≤ length out.old) × (offset + length part.now < 2 ^ 64) }
    ensures held_in_bounds { result.held ≤ length part.now }
    ensures served_or_failed { (result.end ≡ Some WriteFailed) ⊎ (round_at machine.new result ≡ served_part M.run machine.old offset part.now last) }
    ensures wrote { Wrote (W.contents output.old) (W.contents output.new) result.end (M.run machine.old offset part.now last).text }
{
    // By bytes used, as the machine tells: there is nothing to iterate over.
    let mut used = 0;
    loop {
        let begins = offset + used as u64;
        let served = machine.serve_part(&part[used..], begins, last, out);
        used += served.used;
        let offset = offset + used as u64;
        let held = part.len() - used;
        if write_all(output, &out[..served.written]).is_err() {
            return Stand {
                offset,
                held,
                end: Some(End::WriteFailed),
            };
        }
        if served.end.is_some() || served.used == 0 {
            return Stand {
                offset,
                held,
                end: ends_by(served.end, last, offset),
            };
        }
    }
}

// Where the bytes to serve end, when n bytes came behind those that wait: at the end of the input the byte that it is to the
// machine is put behind them.
fn end_of<M: Machine>(machine: &M, input: &mut [u8], held: usize, n: usize) -> usize
    requires { (held < length input.old) × (held + n ≤ length input.old) }
    ensures in_bounds { result ≤ length input.new }
    ensures with_end { take result input.new ≡ ended M.ending (eqb n 0) (take (held + n) input.old) }
{
    if n == 0 {
        if let Some(byte) = machine.end_byte() {
            input[held] = byte;
            return held + 1;
        }
    }
    held + n
}

// Reads and serves until there is a reason to end, with this room for the replies of a go. The replies to what has come are
// written before more is waited for.
fn serve_in<M: Machine, R: Read, W: Write>(
    machine: &mut M,
    from: &mut R,
    output: &mut W,
    room: &mut [u8],
) -> Stand
    requires { 4096 ≤ length room.old }
    ensures { HasServed M.run M.ending machine.old machine.new result (R.remaining from.old) (R.remaining from.new) (W.contents output.old) (W.contents output.new) }
{
    // One buffer, and how much of it waits: no heap.
    let mut input = io::large_buffer();
    let mut stand = Stand {
        offset: 0,
        held: 0,
        end: None,
    };
    loop {
        let held = stand.held;
        let Some(n) = read_part(from, &mut input[held..]) else {
            return Stand {
                offset: stand.offset,
                held,
                end: Some(End::ReadFailed),
            };
        };
        let end = end_of(machine, &mut input, held, n);
        let part = &input[..end];
        stand = serve_all(machine, output, part, stand.offset, n == 0, room);
        if stand.end.is_some() {
            return stand;
        }
        move_rest(&mut input, end - stand.held, end);
    }
}

// Reads and serves until there is a reason to end, with the room lent for the replies of a go, or, where that is less than the
// least, with a room of its own.
pub fn serve<M: Machine, R: Read, W: Write>(
    machine: &mut M,
    from: &mut R,
    output: &mut W,
    room: &mut [u8],
) -> Stand
    ensures { HasServed M.run M.ending machine.old machine.new result (R.remaining from.old) (R.remaining from.new) (W.contents output.old) (W.contents output.new) }
{
    if room.len() < LEAST_ROOM {
        let mut own = io::buffer();
        return serve_in(machine, from, output, &mut own);
    }
    serve_in(machine, from, output, room)
}

// Says to standard error which of a read and a write failed, where one did. What it cannot take is not told.
pub fn tell<E: Write>(errors: &mut E, end: Option<End>, read_failed: &[u8], write_failed: &[u8])
    ensures { HasWrittenSome (E.contents errors.old) (E.contents errors.new) (message_of end read_failed.now write_failed.now) }
{
    match end {
        Some(End::ReadFailed) => {
            let _ = write_all(errors, read_failed);
        }
        Some(End::WriteFailed) => {
            let _ = write_all(errors, write_failed);
        }
        _ => {}
    }
}
