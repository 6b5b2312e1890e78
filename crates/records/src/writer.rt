// An event to its bytes.
ghost use Rattle.std.specs.Prelude.{◌≡◌, ◌+◌, ◌≤◌, ◌++◌, leb, length};
ghost use Rattle.rules.specs.Limits.{largest_tunnel};
ghost use Rattle.rules.specs.Change.{admit};
ghost use Rattle.turns.specs.Calls.{described, asked};
ghost use Rattle.records.specs.Bytes.{bytes_of};
ghost use Rattle.records.specs.Encode.{head, fields_of, size_of, has24_bits, written_size, out_after, laid};

use crate::answers::Event;
use crate::sizes;
use crate::sizes::HEADER;
use turns::{Change, Description, LARGEST_TUNNEL};
use units::{Moment, Tunnel};

// The bytes of the event's whole record.
#[tactic(auto, unfolding(crate::specs::Encode::size_of, crate::specs::Record::payload, crate::specs::Record::payload_of))]
pub fn size(event: Event) -> usize
    ensures { result ≡ size_of event }
{
    match event.change {
        Change::Admit(_) => sizes::ADMIT_RECORD,
        Change::Wake(_) | Change::Block(_) | Change::Remove(_) => sizes::NAMING_RECORD,
        Change::Tick => sizes::TICK_RECORD,
    }
}

fn has_24_bits(id: Tunnel) -> bool
    ensures { result ≡ leb id.0 largest_tunnel }
{
    id.number() <= LARGEST_TUNNEL
}

// Whether the change's numbers fit its record: an identifier can be too wide, nothing else.
fn fits(change: Change) -> bool
    ensures { result ≡ has24_bits (asked change) }
{
    match change {
        Change::Admit(d) => has_24_bits(d.tunnel),
        Change::Wake(id) | Change::Block(id) | Change::Remove(id) => has_24_bits(id),
        Change::Tick => true,
    }
}

fn put(out: &mut [u8], at: usize, bytes: &[u8])
    requires { at + length bytes.now ≤ length out.old }
    ensures { out.new ≡ laid out.old at bytes.now }
{
    out[at..at + bytes.len()].copy_from_slice(bytes);
}

fn put_head(out: &mut [u8], tag: u8, payload: u16, time: Moment)
    requires { 11 ≤ length out.old }
    ensures { out.new ≡ laid out.old 0 (head tag payload time.0) }
{
    put(out, 0, &[tag]);
    put(out, 1, &payload.to_be_bytes());
    put(out, HEADER, &time.ticks().to_be_bytes());
}

// The front of each record that names a VCPU.
fn put_naming(out: &mut [u8], tag: u8, payload: u16, time: Moment, id: Tunnel)
    requires { 14 ≤ length out.old }
    ensures { out.new ≡ laid out.old 0 (head tag payload time.0 ++ bytes_of 3 id.0) }
{
    put_head(out, tag, payload, time);
    let [_, high, middle, low] = id.number().to_be_bytes();
    put(out, 11, &[high, middle, low]);
}

fn put_admit(out: &mut [u8], time: Moment, d: Description)
    requires { 24 ≤ length out.old }
    ensures { out.new ≡ laid out.old 0 (head 1 21 time.0 ++ fields_of (admit (described d))) }
{
    put_naming(out, 1, sizes::ADMIT, time, d.tunnel);
    put(out, 14, &d.period.ticks().to_be_bytes());
    put(out, 18, &d.capacity.ticks().to_be_bytes());
    put(out, 22, &[d.priority, d.kind]);
}

// The event's record at the front of `out`, and how many bytes it has; where there is no room, or where the identifier would not
// read back, nothing is written.
// 0 and no Option: `written_size` is what it promises, and it cannot fail.
#[tactic(auto, unfolding(crate::specs::Encode::size_of, crate::specs::Record::payload, crate::specs::Record::payload_of))]
pub fn write(event: Event, out: &mut [u8]) -> usize
    ensures { (result ≡ written_size event out.old) × (out.new ≡ out_after event out.old) }
{
    let whole = size(event);
    let time = event.time;
    if !fits(event.change) || out.len() < whole {
        return 0;
    }
    match event.change {
        Change::Admit(d) => put_admit(out, time, d),
        Change::Wake(id) => put_naming(out, 2, sizes::NAMING, time, id),
        Change::Block(id) => put_naming(out, 3, sizes::NAMING, time, id),
        Change::Remove(id) => put_naming(out, 4, sizes::NAMING, time, id),
        Change::Tick => put_head(out, 5, sizes::TICK, time),
    }
    whole
}
