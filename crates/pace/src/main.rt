// Times the calls: it makes them from a deterministic generator, and writes sums over the replies and how many were refused. Each kind of
// number has a sum of its own: moments, identifiers, amounts, and the numbers and the details of refusals.
// Standard input: four digits for how many VCPUs, one for the mix, ten for how many calls. The mixes: 0 mixed, 1 busy, 2 mixed with a third
// of the VCPUs of each kind, 3 leaving and coming back, of all kinds too, 4 to 6 short uses and a gap in turn, so that 2, 4 or 8 fall due
// at once, 7 to 9 the call behind the first such gap, again and again on the same card.
#![tactic(auto)]

ghost use Rattle.std.specs.Prelude.{◌≤◌, ◌<◌};

use std::io::{Read, Write};
use std::marker::Model;
use turns::{Change, Core, Description, LARGEST_TUNNEL, Refusal, Report};
use units::{Amount, Moment, Tunnel};

// No identifier is so large; it stands for idle too.
const TOO_LARGE: u32 = LARGEST_TUNNEL + 1;

const NOBODY: u64 = TOO_LARGE as u64;

// The period in the runs with gaps, and the gap.
const GAP: u32 = 1000;

// How many VCPUs were asked for: 1 to 9,999.
#[derive(Clone, Copy)]
struct Size(u64);

impl Model for Size {
    ghost use Rattle.std.specs.Prelude.{ℕ, ◌≤◌};

    ghost Value = { ℕ };

    ghost view = { λ s. s.0 };

    ghost invariant = { λ s. (1 ≤ s.0) × (s.0 ≤ 9999) };

    ghost inverse = { λ n. record { 0 = n } };
}

// How many returns fall due at once behind a gap.
#[derive(Clone, Copy, Debug, PartialEq, Eq)]
enum Due {
    Two,
    Four,
    Eight,
}

#[derive(Clone, Copy, Debug, PartialEq, Eq)]
enum Mix {
    Mixed,
    Busy,
    Thirds,
    Leaving,
    Gaps(Due),
    BehindGap(Due),
}

impl From<u64> for Mix {
    fn from(digit: u64) -> Self {
        match digit {
            0 => Mix::Mixed,
            1 => Mix::Busy,
            2 => Mix::Thirds,
            3 => Mix::Leaving,
            4 => Mix::Gaps(Due::Two),
            5 => Mix::Gaps(Due::Four),
            6 => Mix::Gaps(Due::Eight),
            7 => Mix::BehindGap(Due::Two),
            8 => Mix::BehindGap(Due::Four),
            _ => Mix::BehindGap(Due::Eight),
        }
    }
}

// (As in `records` but for a name: pace stands on turns and units alone.)
#[derive(Clone, Copy, Debug, PartialEq, Eq)]
struct Event {
    now: Moment,
    change: Change,
}

// What the generator remembers: the time of the last accepted call and the timer; the sums, of times and timers, of the identifiers that
// ran, of amounts, usable and brought, of refusals' numbers, of their details; and how many calls were refused.
// (No Option: no timer is a moment above all here, which is what is summed, and `next` asks for the earlier of two.)
#[derive(Clone, Copy, Debug, PartialEq, Eq)]
struct Seen {
    last: Moment,
    timer: Moment,
    times: u64,
    tunnels: u64,
    amounts: u64,
    numbers: u64,
    details: u64,
    refused: u64,
}

fn id_of(k: u64) -> Tunnel {
    Tunnel::new(((k % 1000000 + 1) * 791900 % NOBODY) as u32)
}

// All are sporadic, but for the mixes of the three kinds.
fn kind_in(mix: Mix, d: u64) -> u8 {
    match mix {
        Mix::Thirds | Mix::Leaving => (d / 7 % 3) as u8,
        _ => 0,
    }
}

fn described(k: u64, d: u64, kind: u8, capacity: Amount) -> Description {
    Description {
        tunnel: id_of(k),
        period: Amount::new((50 + d % 1000) as u32),
        capacity,
        priority: (d % 7) as u8,
        kind,
    }
}

fn terms(k: u64, d: u64, kind: u8) -> Description {
    described(k, d, kind, Amount::new((1 + d % 20) as u32))
}

fn bad_terms(k: u64, d: u64, kind: u8) -> Description {
    described(k, d, kind, Amount::new(0))
}

// So much after the last accepted call, but not past the timer.
fn next(last: Moment, step: Amount, timer: Moment) -> Moment {
    last.plus(step).min(timer)
}

// (A line each, here and below: one with a factor would say 1 and 8 at its calls, and no more.)
fn short(d: u64) -> Amount {
    Amount::new((d / 32 % 16) as u32)
}

fn long(d: u64) -> Amount {
    Amount::new((d / 32 % 16 * 8) as u32)
}

fn earlier(t: Moment) -> Moment {
    Moment::new(t.ticks().saturating_sub(1))
}

// (The last time, the timer and the number drawn stand apart, here and below: each takes another part of them.)
fn busy(size: Size, d: u64, last: Moment, timer: Moment) -> Event {
    let n = size.0;
    let sel = d % 32;
    let now = next(last, short(d), timer);
    let who = id_of(d / 512 % n);
    if sel < 20 {
        return Event {
            now,
            change: Change::Tick,
        };
    }
    if sel < 26 {
        return Event {
            now,
            change: Change::Wake(who),
        };
    }
    if sel < 31 {
        return Event {
            now,
            change: Change::Block(who),
        };
    }
    let nobody = id_of(n + n);
    Event {
        now,
        change: Change::Wake(nobody),
    }
}

// A change that row 4, 11, 7, 8 or 6 refuses. Only a card of 32 is full.
fn wrong_change(sel: u64, size: Size, who: u64, d: u64, kind: u8) -> Change {
    let n = size.0;
    if sel < 32 {
        let too_large = Tunnel::new(TOO_LARGE);
        return Change::Wake(too_large);
    }
    if sel < 33 {
        let bad = bad_terms(who, d, kind);
        return Change::Admit(bad);
    }
    if sel < 34 {
        let nobody = id_of(n);
        return Change::Wake(nobody);
    }
    if sel < 35 && 32 <= n {
        let new = terms(n, d, kind);
        return Change::Admit(new);
    }
    let again = terms(who, d, kind);
    Change::Admit(again)
}

// A call that some row refuses; the late one is accepted where the timer is later still.
fn wrong(sel: u64, size: Size, d: u64, kind: u8, last: Moment, now: Moment) -> Event {
    let n = size.0;
    let who = d / 512 % n;
    if sel < 29 {
        let id = id_of(who);
        return Event {
            now: last.plus(Amount::new(21)),
            change: Change::Wake(id),
        };
    }
    if sel < 30 {
        return Event {
            now: earlier(last),
            change: Change::Tick,
        };
    }
    if sel < 31 {
        return Event {
            now: Moment::new(1000000000001),
            change: Change::Tick,
        };
    }
    let change = wrong_change(sel, size, who, d, kind);
    Event { now, change }
}

// Nobody leaves: a tick, a wake, a block, or a call that is refused.
fn mixed(size: Size, d: u64, kind: u8, last: Moment, timer: Moment) -> Event {
    let n = size.0;
    let sel = d % 36;
    let now = next(last, short(d), timer);
    let id = id_of(d / 512 % n);
    if sel < 10 {
        return Event {
            now,
            change: Change::Tick,
        };
    }
    if sel < 20 {
        return Event {
            now,
            change: Change::Wake(id),
        };
    }
    if sel < 28 {
        return Event {
            now,
            change: Change::Block(id),
        };
    }
    wrong(sel, size, d, kind, last, now)
}

// A tick, a wake or a block.
fn quiet(sel: u64, id: Tunnel) -> Change {
    if sel < 12 {
        return Change::Tick;
    }
    if sel < 24 {
        return Change::Wake(id);
    }
    Change::Block(id)
}

// A quarter more tenants than VCPUs were asked for, in a round: once in 8 calls one leaves, and the next call admits the one that left
// longest ago. The others are of those that are on the card where all of that was accepted. The steps are longer than in the other runs,
// so that times come.
fn leaving(k: u64, size: Size, d: u64, kind: u8, last: Moment, timer: Moment) -> Event {
    let n = size.0;
    let now = next(last, long(d), timer);
    let tenants = n + n / 4 + 1;
    let turn = k / 8;
    if k % 8 == 0 {
        let gone = id_of(turn % tenants);
        return Event {
            now,
            change: Change::Remove(gone),
        };
    }
    if k % 8 == 1 {
        let back = terms((turn + n) % tenants, d, kind);
        return Event {
            now,
            change: Change::Admit(back),
        };
    }
    // Less than 10,000 already: said for the sum.
    let place = d / 512 % n % 10000;
    let who = id_of((turn + 1 + place) % tenants);
    let change = quiet(d % 32, who);
    Event { now, change }
}

// The later its admission, the more urgent; 8 uses of a tick each leave it some.
fn patient(k: u64) -> Description {
    let tunnel = id_of(k);
    let period = Amount::new(GAP);
    Description {
        tunnel,
        period,
        capacity: Amount::new(20),
        priority: (255 - k % 256) as u8,
        kind: 0,
    }
}

// In so many calls each VCPU is used twice, as it wakes and as the more urgent one blocks; one that is alone has to wake twice for that.
fn used_twice(size: Size) -> u64
    ensures { (1 ≤ result) × (result ≤ 19998) }
{
    let n = size.0;
    if n == 1 {
        return 4;
    }
    n + n
}

// How many calls there are from one gap to the next.
fn cycle(due: Due, size: Size) -> u64
    ensures { (1 ≤ result) × (result ≤ 100000) }
{
    match due {
        Due::Two => used_twice(size),
        Due::Four => 2 * used_twice(size),
        Due::Eight => 4 * used_twice(size),
    }
}

// Many short uses, then a gap of a period with nobody runnable, so that all that is pending falls due at one call. All block, the most
// urgent first, and wake, the least urgent first, a tick after each other: each use is a tick, and no two of a VCPU join. (The most urgent
// one is used half as often as the others.)
fn gaps(k: u64, size: Size, due: Due, last: Moment) -> Event {
    let n = size.0;
    if k < n {
        let new = patient(k);
        return Event {
            now: last,
            change: Change::Admit(new),
        };
    }
    let step = last.plus(Amount::new(1));
    let at = k % (n + n);
    if at < n {
        let tired = id_of(n - 1 - at);
        return Event {
            now: step,
            change: Change::Block(tired),
        };
    }
    let fresh = id_of(at - n);
    let rested = (k - n) % cycle(due, size) == 0;
    let now = if rested {
        last.plus(Amount::new(GAP))
    } else {
        step
    };
    Event {
        now,
        change: Change::Wake(fresh),
    }
}

// The call behind the gap: by then, at three gaps, all that was used is due. It wakes one, so that the reply tells what came back, and no
// two in a row are at the same time.
fn behind_gap(k: u64) -> Event {
    let late = Moment::new(3 * (GAP as u64) + k % 16);
    let fresh = id_of(0);
    Event {
        now: late,
        change: Change::Wake(fresh),
    }
}

fn call(k: u64, size: Size, mix: Mix, s: u64, last: Moment, timer: Moment) -> Event {
    let n = size.0;
    match mix {
        Mix::Gaps(due) => return gaps(k, size, due, last),
        Mix::BehindGap(due) => {
            if n + cycle(due, size) <= k {
                return behind_gap(k);
            }
            return gaps(k, size, due, last);
        }
        _ => {}
    }
    let d = s / 64;
    let kind = kind_in(mix, d);
    if k < n {
        let new = terms(k, d, kind);
        return Event {
            now: last,
            change: Change::Admit(new),
        };
    }
    if k < n + n {
        let id = id_of(k - n);
        return Event {
            now: last,
            change: Change::Wake(id),
        };
    }
    match mix {
        Mix::Mixed | Mix::Thirds => mixed(size, d, kind, last, timer),
        Mix::Leaving => leaving(k, size, d, kind, last, timer),
        _ => busy(size, d, last, timer),
    }
}

// A sum with one more number of its kind.
fn joined(sum: u64, number: u64) -> u64 {
    (sum % 4294967296 * 31 + number % 1099511627776) % 1000000007
}

impl Seen {
    fn done(&mut self, r: Report) {
        // Stands for no timer; no timer is so late.
        let timer = r.timer.unwrap_or(Moment::new(u64::MAX));
        let run = r.run.map_or(NOBODY, |id| u64::from(id.number()));
        let amounts = u64::from(r.usable.ticks()) * 31 + u64::from(r.brought.ticks());
        self.last = r.time;
        self.timer = timer;
        self.times = joined(joined(self.times, r.time.ticks()), timer.ticks());
        self.tunnels = joined(self.tunnels, run);
        self.amounts = joined(self.amounts, amounts);
    }

    fn no(&mut self, x: Refusal) {
        self.numbers = joined(self.numbers, u64::from(x.number()));
        self.details = joined(self.details, x.detail());
        self.refused = self.refused % 1000000000000 + 1;
    }
}

fn number(digits: &[u8]) -> u64 {
    let mut x = 0u64;
    for &digit in digits {
        x = (x % 1000000000 * 10 + u64::from(digit % 16)) % 10000000000;
    }
    x
}

fn size_of(n: u64) -> Size {
    Size(n.max(1).min(9999))
}

fn draw(s: u64) -> u64
    ensures { result < 2147483648 }
{
    (s % 2147483648 * 1103515245 + 12345) % 2147483648
}

// Some calls: the core, what was seen of all, and the last number drawn.
#[derive(Clone, Copy)]
struct Calls {
    core: Core,
    seen: Seen,
    drawn: u64,
}

fn begun() -> Calls {
    Calls {
        core: Core::empty(),
        seen: Seen {
            last: Moment::new(0),
            timer: Moment::new(u64::MAX),
            times: 0,
            tunnels: 0,
            amounts: 0,
            numbers: 0,
            details: 0,
            refused: 0,
        },
        drawn: 12345,
    }
}

impl Calls {
    // The call of this number.
    fn make(&mut self, k: u64, size: Size, mix: Mix) {
        self.drawn = draw(self.drawn);
        let event = call(k, size, mix, self.drawn, self.seen.last, self.seen.timer);
        match self.core.step(event.now, event.change) {
            Ok(report) => self.seen.done(report),
            Err(refusal) => self.seen.no(refusal),
        }
    }

    // The call of this number on the card as it stands: the card stays, and what is seen is kept.
    fn make_again(&mut self, k: u64, size: Size, mix: Mix) {
        let mut once = *self;
        once.make(k, size, mix);
        self.seen = once.seen;
    }
}

fn paced(size: Size, mix: Mix, calls: u64) -> Seen {
    let mut all = begun();
    let gap = match mix {
        Mix::BehindGap(due) => size.0 + cycle(due, size),
        _ => calls,
    };
    for k in 0..calls {
        if k < gap {
            all.make(k, size, mix);
        } else {
            all.make_again(k, size, mix);
        }
    }
    all.seen
}

fn main(rt: HostRuntime) {
    let mut input = [b'0'; 15];
    let _ = rt.stdin().read(&mut input);
    let size = size_of(number(&input[0..4]));
    let mix = Mix::from(number(&input[4..5]));
    let had = paced(size, mix, number(&input[5..15]));
    // Each write is tried, whatever became of the one before.
    let output = &mut rt.stdout();
    for sum in [
        had.times,
        had.tunnels,
        had.amounts,
        had.numbers,
        had.details,
    ] {
        let _ = write!(output, "{sum}");
        let _ = write!(output, " ");
    }
    let _ = write!(output, "{}", had.refused);
    let _ = writeln!(output);
}
