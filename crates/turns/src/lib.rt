// The scheduler of one core: timed calls go in, the VCPU to run, its usable ticks, the timer and the ticks that came back come out.
#![tactic(auto)]

mod judge;
mod remember;
mod steps;
mod table;
mod tenants;

ghost use Rattle.std.specs.Prelude.{◌≡◌, length};
ghost use Rattle.rules.specs.Card.{empty as emptyCard};
ghost use Rattle.rules.specs.Card.{find as findRule};
ghost use Rattle.rules.specs.Card.{on_card, first_from};
ghost use Rattle.rules.specs.Remember.{time_of};
ghost use Rattle.rules.specs.Turn.{turn as turnRule};
ghost use Rattle.turns.specs.Written.{number_in, moment_in};
ghost use Rattle.turns.specs.Calls.{call_of, number_of, detail_of, paper_reply, looked, boundary_of};
ghost use Rattle.turns.specs.Calls.{paper_presence, paper_remembered};

use std::marker::Model;
use units::{Amount, LAST_MOMENT, Moment, Total, Tunnel};

// The limits of the card.
pub const LARGEST_TUNNEL: u32 = 16777215;

const LARGEST_TIME: u64 = 1000000000000;

const LARGEST_PERIOD: u32 = 1000000;

const MOST_VCPUS: usize = 32;

const MOST_PENDING: u8 = 8;

// A time above all: the due time of an unused slot, and of what is reported where nothing comes.
const NEVER: u64 = LAST_MOMENT;
// The identifier of a vacant place, above 24 bits.
const NOBODY: u32 = 4294967295;

// The whole VCPU description that an admit carries; the kind is the byte that was asked for, since an unknown one is refused.
#[derive(Clone, Copy, Debug, PartialEq, Eq)]
pub struct Description {
    pub tunnel: Tunnel,
    pub period: Amount,
    pub capacity: Amount,
    pub priority: u8,
    pub kind: u8,
}

// What a call asks for.
#[derive(Clone, Copy, Debug, PartialEq, Eq)]
pub enum Change {
    Admit(Description),
    Wake(Tunnel),
    Block(Tunnel),
    Remove(Tunnel),
    Tick,
}

// The rows of the table of reply numbers that a call may be refused by, in the order of their numbers. Row 3 tells the timer, and row 9
// the time until which the identifier is remembered.
#[derive(Clone, Copy, Debug, PartialEq, Eq)]
pub enum Refusal {
    BadTime,
    BeforeLast,
    PastTimer(Moment),
    BadTunnel,
    BadPeriod,
    OnCard,
    NotOnCard,
    Full,
    Remembered(Moment),
    BadKind,
    NoCapacity,
    CapacityAbovePeriod,
}

// What an accepted call answers: who holds the core, or nobody, and the timer if there is one; `brought` are the ticks that came back to
// all VCPUs together.
#[derive(Clone, Copy, Debug, PartialEq, Eq)]
pub struct Report {
    pub time: Moment,
    pub run: Option<Tunnel>,
    pub usable: Amount,
    pub timer: Option<Moment>,
    pub brought: Amount,
}

// A call by value: the state handed back, and the reply.
#[derive(Clone, Copy)]
pub struct Answer {
    pub core: Core,
    pub reply: Result<Report, Refusal>,
}

// What a VCPU on the card is: 0, 1 and 2 of document 02.
#[derive(Clone, Copy, Debug, PartialEq, Eq)]
pub enum Kind {
    Sporadic,
    Deferrable,
    Polling,
}

// A VCPU on the card: the first `count` slots hold the pending returns in order, the others a time above all and no ticks. The first
// slot of a deferrable or polling VCPU, which has no queue, holds its next boundary: `due[0]` is the next time that something comes.
// `pending` is the sum of the amounts, `held` the ticks held since its admission; no reply depends on them. 136 bytes, 4 of them a gap.
// Arrays of eight with a count are the form that document 01 names.
// (Clone and Copy alone, of every type of this file that has no more: nobody compares or prints them.)
#[derive(Clone, Copy)]
pub struct Vcpu {
    pub due: [Moment; 8],
    pub ended: Moment,
    pub held: Total,
    pub amount: [Amount; 8],
    pub period: Amount,
    pub capacity: Amount,
    pub usable: Amount,
    pub pending: Amount,
    pub priority: u8,
    pub runnable: bool,
    pub count: u8,
    pub kind: Kind,
}

// Whether an identifier is on the card, or left it and is remembered, until that time: three cases, which no Option has.
#[derive(Clone, Copy, Debug, PartialEq, Eq)]
pub enum Presence {
    OnCard,
    Remembered(Moment),
    Absent,
}

// Everything of one VCPU, and its next boundary, which a sporadic VCPU has not; where there is none, the record of a vacant place.
// (No Option of a record: clause `vcpu_is` promises that of a vacant place.)
#[derive(Clone, Copy)]
pub struct Look {
    pub presence: Presence,
    pub vcpu: Vcpu,
    pub boundary: Option<Moment>,
}

// The card: the time of the last accepted call, who runs, the timer, how many VCPUs are on it, how many identifiers it remembers, the ticks
// that all removed tenants held, and those that nobody held.
#[derive(Clone, Copy)]
pub struct Status {
    pub time: Moment,
    pub run: Option<Tunnel>,
    pub timer: Option<Moment>,
    pub vcpus: usize,
    pub remembered: usize,
    pub removed: Total,
    pub idle: Total,
}

// The identifiers remembered: the first `count` slots hold them in the order of their removals, each with its time; the others hold the
// identifier of nobody and a time above all. Identifiers stand apart, so that one search serves the table and these.
#[derive(Clone, Copy)]
struct Memory {
    until: [Moment; MOST_VCPUS],
    ids: [Tunnel; MOST_VCPUS],
    count: usize,
}

// What steps 1 to 3 change: the VCPUs, the most urgent first, in the first `n` places, each with its identifier beside it; who is
// remembered, and the ticks that removed tenants held. Identifiers stand apart, so that a search reads 128 bytes and not 4,352. Arrays with
// a count, since the scheduler uses no heap.
#[derive(Clone, Copy)]
struct Roster {
    places: [Vcpu; MOST_VCPUS],
    ids: [Tunnel; MOST_VCPUS],
    memory: Memory,
    removed: Total,
    n: usize,
}

// The card, and all that a host keeps of it between two calls. A contract sees it as the rules' card.
#[derive(Clone, Copy)]
pub struct Core {
    table: Roster,
    last: Moment,
    timer: Option<Moment>,
    running: Option<usize>,
    idle: Total,
}

impl Model for Core {
    ghost use Rattle.rules.specs.Card.{Card};

    ghost Value = { Card };

    ghost use Rattle.std.specs.Prelude.{◌≡◌};
    ghost use Rattle.std.proofs.Common.{sym};
    ghost use Rattle.turns.specs.Written.{card, core_of};
    ghost use Rattle.turns.specs.State.{IsCore};

    ghost view = { card };

    // Its fields are what its card is written as, so equal cards have equal bytes; and the card is one that calls make.
    ghost invariant = { IsCore };

    ghost inverse = { core_of };

    ghost inverse_ok = { λ c h. sym h.written };
}

// What the return step reports of a VCPU: the ticks that it brought, and the next time that something comes to it, or a time above all
// (an enum in its place was slower in every run: docs/landings/11).
#[derive(Clone, Copy)]
struct Told {
    ticks: Amount,
    next: Moment,
}

// What the reports come to together. A struct of its own, so that a number more to report changes `together` and not the loop over the places.
#[derive(Clone, Copy)]
struct AllTold {
    ticks: Amount,
}

// What a look at the places so far has found: the first ready one, its usable ticks, and the next time that something comes to those
// before it, or that is its own boundary, or a time above all, as in Told.
#[derive(Clone, Copy)]
struct Pick {
    at: Option<usize>,
    usable: Amount,
    soon: Moment,
}

// Each refusal has its own rows, and nothing is generic over them: a trait of `number` and `detail` would be one name more.
impl Refusal {
    // The row's number.
    pub fn number(self) -> u8
        ensures { result ≡ number_of self }
    {
        match self {
            Refusal::BadTime => 1,
            Refusal::BeforeLast => 2,
            Refusal::PastTimer(_) => 3,
            Refusal::BadTunnel => 4,
            Refusal::BadPeriod => 5,
            Refusal::OnCard => 6,
            Refusal::NotOnCard => 7,
            Refusal::Full => 8,
            Refusal::Remembered(_) => 9,
            Refusal::BadKind => 10,
            Refusal::NoCapacity => 11,
            Refusal::CapacityAbovePeriod => 12,
        }
    }

    // What the row tells beside its number; 0 for most.
    pub fn detail(self) -> u64
        ensures { result ≡ detail_of self }
    {
        match self {
            Refusal::PastTimer(time) | Refusal::Remembered(time) => time.ticks(),
            _ => 0,
        }
    }
}

impl TryFrom<u8> for Kind {
    type Error = Refusal;

    ghost use Rattle.turns.specs.Calls.{kind_gives};

    ghost try_from_gives = { kind_gives };

    fn try_from(kind: u8) -> Result<Self, Refusal> {
        match kind {
            0 => Ok(Kind::Sporadic),
            1 => Ok(Kind::Deferrable),
            2 => Ok(Kind::Polling),
            _ => Err(Refusal::BadKind),
        }
    }
}

impl Core {
    pub fn empty() -> Self
        ensures { result ≡ emptyCard }
    {
        Core {
            table: Roster {
                places: [Vcpu::vacant(); MOST_VCPUS],
                ids: [Tunnel::new(NOBODY); MOST_VCPUS],
                memory: Memory::blank(),
                removed: Total::new(0),
                n: 0,
            },
            last: Moment::new(0),
            timer: None,
            running: None,
            idle: Total::new(0),
        }
    }

    // One function for the five calls, on the state in place: no call copies it.
    pub fn step(&mut self, now: Moment, change: Change) -> Result<Report, Refusal>
        ensures reply_is { paper_reply result ≡ (turnRule self.old (call_of now change)).reply }
        ensures core_is { self.new ≡ (turnRule self.old (call_of now change)).card }
    {
        // Sought once, for the rows and for the change; the rows need no more of the identifiers.
        let at = table::named(&self.table.ids, change);
        judge::judged(self.last, self.timer, at, &self.table, now, change)?;
        self.idle = tenants::idled(self.idle, self.running, self.last, now);
        self.table.charge(self.running, self.last, now);
        self.table.memory.keep(now);
        let mut next = [Moment::new(NEVER); MOST_VCPUS];
        let total = self.table.bring(now, &mut next);
        self.table.change(&mut next, at, now, change);
        let pick = self.table.choose(&next);
        let run = self.table.holder(pick.at);
        let timer = tenants::timer_for(now, pick);
        self.last = now;
        self.timer = timer;
        self.running = pick.at;
        Ok(Report {
            time: now,
            run,
            usable: pick.usable,
            timer,
            brought: total.ticks,
        })
    }

    // Document 01's form: the state goes in with the call and is handed back with the reply.
    pub fn turn(mut self, now: Moment, change: Change) -> Answer
        ensures reply_is { paper_reply result.reply ≡ (turnRule self (call_of now change)).reply }
        ensures core_is { result.core ≡ (turnRule self (call_of now change)).card }
    {
        let reply = self.step(now, change);
        Answer { core: self, reply }
    }

    // Document 01 names the five calls; each is a line over `turn`.
    pub fn admit(self, now: Moment, description: Description) -> Answer
        ensures reply_is { paper_reply result.reply ≡ (turnRule self (call_of now (Change.Admit description))).reply }
        ensures core_is { result.core ≡ (turnRule self (call_of now (Change.Admit description))).card }
    {
        self.turn(now, Change::Admit(description))
    }

    pub fn wake(self, now: Moment, id: Tunnel) -> Answer
        ensures reply_is { paper_reply result.reply ≡ (turnRule self (call_of now (Change.Wake id))).reply }
        ensures core_is { result.core ≡ (turnRule self (call_of now (Change.Wake id))).card }
    {
        self.turn(now, Change::Wake(id))
    }

    pub fn block(self, now: Moment, id: Tunnel) -> Answer
        ensures reply_is { paper_reply result.reply ≡ (turnRule self (call_of now (Change.Block id))).reply }
        ensures core_is { result.core ≡ (turnRule self (call_of now (Change.Block id))).card }
    {
        self.turn(now, Change::Block(id))
    }

    pub fn remove(self, now: Moment, id: Tunnel) -> Answer
        ensures reply_is { paper_reply result.reply ≡ (turnRule self (call_of now (Change.Remove id))).reply }
        ensures core_is { result.core ≡ (turnRule self (call_of now (Change.Remove id))).card }
    {
        self.turn(now, Change::Remove(id))
    }

    pub fn tick(self, now: Moment) -> Answer
        ensures reply_is { paper_reply result.reply ≡ (turnRule self (call_of now Change.Tick)).reply }
        ensures core_is { result.core ≡ (turnRule self (call_of now Change.Tick)).card }
    {
        self.turn(now, Change::Tick)
    }

    // What is known of the VCPU so named, or of one that left. A vacant place has an identifier above 24 bits, which must not be found.
    pub fn look(&self, id: Tunnel) -> Look
        ensures presence_is { paper_presence result.presence ≡ on_card id.0 self.now.vcpus }
        ensures remembered_until { paper_remembered result.presence ≡ time_of id.0 self.now.remembered }
        ensures vcpu_is { result.vcpu ≡ looked (findRule id.0 self.now.vcpus) }
        ensures boundary_is { moment_in result.boundary ≡ boundary_of (findRule id.0 self.now.vcpus) }
    {
        let absent = Look {
            presence: self.table.memory.presence(id),
            vcpu: Vcpu::vacant(),
            boundary: None,
        };
        if LARGEST_TUNNEL < id.number() {
            return absent;
        }
        let Some(at) = table::find(&self.table.ids, id) else {
            return absent;
        };
        let vcpu = self.table.places[at];
        Look {
            presence: Presence::OnCard,
            vcpu,
            boundary: vcpu.boundary(),
        }
    }

    // The smallest identifier on the card that is `low` or above: so a host goes through all of them, in rising order.
    pub fn first_from(&self, low: Tunnel) -> Option<Tunnel>
        ensures { number_in result ≡ first_from low.0 self.now.vcpus }
    {
        table::least(&self.table.ids[..self.table.n], low).map(Tunnel::new)
    }

    pub fn status(&self) -> Status
        ensures time_and_holder { (result.time.0 ≡ self.now.last) × (number_in result.run ≡ self.now.running) }
        ensures timer_and_vcpus { (moment_in result.timer ≡ self.now.timer) × (result.vcpus ≡ length self.now.vcpus) }
        ensures remembered_count { result.remembered ≡ length self.now.remembered }
        ensures removed_and_idle { (result.removed.0 ≡ self.now.removed) × (result.idle.0 ≡ self.now.idle) }
    {
        Status {
            time: self.last,
            run: self.table.holder(self.running),
            timer: self.timer,
            vcpus: self.table.n,
            remembered: self.table.memory.count,
            removed: self.table.removed,
            idle: self.idle,
        }
    }
}
