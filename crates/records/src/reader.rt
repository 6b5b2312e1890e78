// Bytes to an event or a refusal. A record has one layout for each tag, so every field is read at its own place.
ghost use Rattle.std.specs.Prelude.{◌≡◌, true, ◌+◌, ◌≤◌, length};
ghost use Rattle.turns.specs.Calls.{described};
ghost use Rattle.records.specs.Bytes.{number};
ghost use Rattle.records.specs.Record.{payload_of, known, payload as payloadBytes, tag as tag_of, call, reading};
ghost use Rattle.records.specs.Record.{description as saidDescription};
ghost use Rattle.records.specs.Answer.{paper_event, paper_read};

use crate::answers::{BadRecord, Event};
use crate::sizes;
use crate::sizes::HEADER;
use turns::{Change, Description};
use units::{Amount, Moment, Tunnel};

// The bytes of a tag's payload; the tag is a byte of the wire, as document 01 lists them. 6 and 7 are kept for device work.
#[tactic(auto, unfolding(crate::specs::Record::payload_of))]
fn payload(tag: u8) -> Option<u16>
    ensures { result ≡ payload_of tag }
{
    match tag {
        1 => Some(sizes::ADMIT),
        2..=4 => Some(sizes::NAMING),
        5 => Some(sizes::TICK),
        _ => None,
    }
}

fn time(bytes: &[u8]) -> Moment
    requires { 11 ≤ length bytes.now }
    ensures { result.0 ≡ number bytes.now 3 8 }
{
    Moment::new(u64::from_be_bytes([
        bytes[3], bytes[4], bytes[5], bytes[6], bytes[7], bytes[8], bytes[9], bytes[10],
    ]))
}

fn identifier(bytes: &[u8]) -> Tunnel
    requires { 14 ≤ length bytes.now }
    ensures { result.0 ≡ number bytes.now 11 3 }
{
    Tunnel::new(u32::from_be_bytes([0, bytes[11], bytes[12], bytes[13]]))
}

// Two fields, a line each: one function of a place would say 14 and 18 at its calls, and no more.
fn period(bytes: &[u8]) -> Amount
    requires { 18 ≤ length bytes.now }
    ensures { result.0 ≡ number bytes.now 14 4 }
{
    Amount::new(u32::from_be_bytes([bytes[14], bytes[15], bytes[16], bytes[17]]))
}

fn capacity(bytes: &[u8]) -> Amount
    requires { 22 ≤ length bytes.now }
    ensures { result.0 ≡ number bytes.now 18 4 }
{
    Amount::new(u32::from_be_bytes([bytes[18], bytes[19], bytes[20], bytes[21]]))
}

fn description(bytes: &[u8]) -> Description
    requires { 24 ≤ length bytes.now }
    ensures { described result ≡ saidDescription bytes.now }
{
    Description {
        tunnel: identifier(bytes),
        period: period(bytes),
        capacity: capacity(bytes),
        priority: bytes[22],
        kind: bytes[23],
    }
}

// The event of a whole record.
#[tactic(auto, unfolding(crate::specs::Record::call, crate::specs::Record::known, crate::specs::Record::payload, crate::specs::Record::payload_of))]
fn event(tag: u8, bytes: &[u8]) -> Event
    requires { (tag ≡ tag_of bytes.now) × (known tag ≡ true) × (3 + payloadBytes tag ≤ length bytes.now) }
    ensures { paper_event result ≡ call bytes.now }
{
    let change = match tag {
        1 => Change::Admit(description(bytes)),
        2 => Change::Wake(identifier(bytes)),
        3 => Change::Block(identifier(bytes)),
        4 => Change::Remove(identifier(bytes)),
        _ => Change::Tick,
    };
    Event {
        time: time(bytes),
        change,
    }
}

// The record that begins the bytes, at `offset` from the start of input; what lies behind a whole one is not looked at.
#[tactic(auto, using(crate::proofs::Offset::told_is), unfolding(crate::specs::Record::reading, crate::specs::Record::known, crate::specs::Record::payload, crate::specs::Record::payload_of))]
pub fn read(bytes: &[u8], offset: u64) -> Result<Event, BadRecord>
    ensures { paper_read result ≡ reading offset bytes.now }
{
    let [tag, high, low, rest @ ..] = bytes else {
        return Err(BadRecord::CutShort(offset));
    };
    let Some(due) = payload(*tag) else {
        return Err(BadRecord::UnknownTag(offset));
    };
    if u16::from_be_bytes([*high, *low]) != due {
        return Err(BadRecord::BadLength(offset));
    }
    if rest.len() < usize::from(due) {
        return Err(BadRecord::CutShort(offset));
    }
    Ok(event(*tag, bytes))
}
