// The steps on one VCPU: charge, return, change, and what choosing and the timer ask of it.
ghost use Rattle.std.specs.Prelude.{◌≡◌, true, ℕ, ◌+◌, ◌-◌, ◌≤◌, ◌<◌};
ghost use Rattle.units.specs.Units.{moment, amount};
ghost use Rattle.rules.specs.Limits.{most_pending};
ghost use Rattle.rules.specs.Return.{returned as returnedRule};
ghost use Rattle.rules.specs.Vcpu.{admitted as admittedRule};
ghost use Rattle.turns.specs.Written.{never, written, no_tenant, kind_as};
ghost use Rattle.turns.specs.Calls.{described};
ghost use Rattle.turns.specs.Steps.{has_queue, left_of, elapsed_of, ticks_at, posted_of, charged_of, Chargeable};
ghost use Rattle.turns.specs.Steps.{due_count, ticks_in, returned_first, head_of, latest_of, until_next, refilled_of};
ghost use Rattle.turns.specs.Steps.{boundary_held, runnable_as, bare, Returnable};
ghost use Rattle.turns.specs.Steps.{brought_to, longer_by};

use crate::{Description, Kind, MOST_PENDING, NEVER, Told, Vcpu};
use units::{Amount, Moment, Total};

impl Kind {
    // Ticks of a sporadic VCPU come back by its queue, those of the others at their boundaries.
    fn has_queue(self) -> bool
        ensures { result ≡ has_queue self }
    {
        matches!(self, Kind::Sporadic)
    }

    // What is left of its ticks: a polling VCPU that is not runnable has none.
    fn left(self, runnable: bool, ticks: Amount) -> Amount
        ensures { result ≡ left_of self runnable ticks }
    {
        if matches!(self, Kind::Polling) && !runnable {
            return Amount::new(0);
        }
        ticks
    }
}

// The ticks from `last` to `now`. Here and in `until_next` alone two moments become an amount, and in `idled` of tenants a total.
fn elapsed(last: Moment, now: Moment) -> Amount
    requires last_le { last.0 ≤ now.0 }
    requires last_bound { now.0 - last.0 < 4294967296 }
    ensures { result ≡ elapsed_of last now }
{
    Amount::new((now.ticks() - last.ticks()) as u32)
}

// Written out here and below: the kinds of number are kept apart, so units offers no sum or difference of amounts.
fn more(a: Amount, b: Amount) -> Amount
    requires { a.0 + b.0 < 4294967296 }
    ensures { result ≡ amount (a.0 + b.0) }
{
    Amount::new(a.ticks() + b.ticks())
}

fn less(a: Amount, b: Amount) -> Amount
    requires { b.0 ≤ a.0 }
    ensures { result ≡ amount (a.0 - b.0) }
{
    Amount::new(a.ticks() - b.ticks())
}

// With the ticks of an amount.
fn longer(held: Total, used: Amount) -> Total
    ensures { result ≡ longer_by held used }
{
    held.plus(Total::new(u64::from(used.ticks())))
}

// The ticks from `now` to the first of the moments `boundary`, `boundary` + `period`, .. after it: a call may pass any number of them.
fn until_next(boundary: Moment, now: Moment, period: Amount) -> Amount
    requires boundary_le { boundary.0 ≤ now.0 }
    requires le_period { 1 ≤ period.0 }
    ensures { result ≡ until_next boundary now period }
{
    let whole = period.ticks();
    let past = (now.ticks() - boundary.ticks()) % u64::from(whole);
    Amount::new(whole - past as u32)
}

impl Vcpu {
    // The amount joins the last entry where the previous use ended exactly at `last`, and where all slots are taken, with its due time then.
    // (The count is bounded by a clause, here, of `latest` and of `leave`: a VCPU is public with its fields, and an invariant would ask more of who makes one.)
    #[tactic(auto, unfolding(crate::specs::Steps::posted_of))]
    fn post(&mut self, used: Amount, last: Moment)
        requires count_le_most_pending { self.old.count ≤ most_pending }
        requires by_index { (k : ℕ) → ticks_at self.old k + used.0 < 4294967296 }
        ensures { self.new ≡ posted_of self.old used last }
    {
        let due = last.plus(self.period);
        let count = self.count as usize;
        if 0 < count && self.ended == last {
            self.amount[count - 1] = more(self.amount[count - 1], used);
        } else if self.count == MOST_PENDING {
            self.amount[count - 1] = more(self.amount[count - 1], used);
            self.due[count - 1] = due;
        } else {
            self.due[count] = due;
            self.amount[count] = used;
            self.count += 1;
        }
    }

    // Of a sporadic VCPU the ticks used become a pending return, and its use ends at `now`.
    #[tactic(auto, using(crate::proofs::Posted::posted_over), unfolding(crate::specs::Steps::charged_of, crate::specs::Steps::spent_of))]
    pub(crate) fn charge(&mut self, last: Moment, now: Moment)
        requires { Chargeable self.old last now }
        ensures { self.new ≡ charged_of self.old last now }
    {
        if last == now {
            return;
        }
        let used = elapsed(last, now);
        self.usable = less(self.usable, used);
        self.held = longer(self.held, used);
        if self.kind.has_queue() {
            self.pending = more(self.pending, used);
            self.post(used, last);
            self.ended = now;
        }
    }

    // How many of the first entries are due.
    fn due_count(&self, now: Moment) -> usize
        ensures { result ≡ due_count now self.now.due }
    {
        self.due.iter().take_while(|d| **d <= now).count()
    }

    // The ticks of the first `k` slots.
    fn ticks_in(&self, k: usize) -> u32
        requires k_le_most_pending { k ≤ most_pending }
        requires a_bound { ticks_in k self.now.amount < 4294967296 }
        ensures { result ≡ ticks_in k self.now.amount }
    {
        self.amount[..k].iter().map(|a| a.ticks()).sum()
    }

    // The first `k` entries become usable, and are pending no more; the others keep their order.
    #[tactic(auto, unfolding(crate::specs::Steps::returned_first))]
    fn return_first(&mut self, k: usize)
        requires k_le_count { (k ≤ self.old.count) × (k ≤ most_pending) }
        requires amount_bound { self.old.usable.0 + ticks_in k self.old.amount < 4294967296 }
        requires owed { ticks_in k self.old.amount ≤ self.old.pending.0 }
        ensures { self.new ≡ returned_first k self.old }
    {
        let ticks = Amount::new(self.ticks_in(k));
        self.usable = more(self.usable, ticks);
        self.pending = less(self.pending, ticks);
        self.due.copy_within(k.., 0);
        self.due[8 - k..].fill(Moment::new(NEVER));
        self.amount.copy_within(k.., 0);
        self.amount[8 - k..].fill(Amount::new(0));
        self.count -= k as u8;
    }

    // The entries that are due leave the front of the queue, all at once.
    // (`Returnable` is a fact of the VCPU and of the call's time: no type of one of them holds it.)
    fn return_due(&mut self, now: Moment)
        requires returnable { Returnable self.old now }
        requires kind_value { has_queue self.old.kind ≡ true }
        ensures { self.new ≡ written (returnedRule now.0 (bare self.old)) }
    {
        self.return_first(self.due_count(now));
    }

    // Refilled to C, whatever was left, but for a polling VCPU that is not runnable; the next boundary is the first one after `now`.
    #[tactic(auto, unfolding(crate::specs::Steps::refilled_of))]
    fn refill(&mut self, now: Moment)
        requires due { head_of self.old ≤ now.0 }
        requires le_period { 1 ≤ self.old.period.0 }
        ensures { self.new ≡ refilled_of self.old now }
    {
        let rest = until_next(self.due[0], now, self.period);
        self.due[0] = now.plus(rest);
        self.usable = self.kind.left(self.runnable, self.capacity);
    }

    // Where something is due: the returns, or a refill.
    #[tactic(auto, using(crate::proofs::Refill::refills_so))]
    fn come(&mut self, now: Moment)
        requires returnable { Returnable self.old now }
        requires due { head_of self.old ≤ now.0 }
        ensures { self.new ≡ written (returnedRule now.0 (bare self.old)) }
    {
        if self.kind.has_queue() {
            self.return_due(now);
            return;
        }
        self.refill(now);
    }

    // The return step, and its report. The ticks are told by the difference, for every kind.
    pub(crate) fn bring(&mut self, now: Moment) -> Told
        requires { Returnable self.old now }
        ensures vcpu_is { self.new ≡ written (returnedRule now.0 (bare self.old)) }
        ensures told_is { result ≡ brought_to now.0 (bare self.old) }
    {
        let before = self.usable;
        if self.due[0] <= now {
            self.come(now);
        }
        Told {
            ticks: less(self.usable, before),
            next: self.due[0],
        }
    }

    // The last time that something comes to it, or a time above all: its queue stands in order.
    // The time as its slot holds it: an unused slot holds the one above all, and one test in `leave` asks for it.
    pub(crate) fn latest(&self) -> Moment
        requires { self.now.count ≤ most_pending }
        ensures { result ≡ moment (latest_of self.now) }
    {
        if self.count == 0 {
            return self.due[0];
        }
        self.due[(self.count - 1) as usize]
    }

    pub(crate) fn set_runnable(&mut self, runnable: bool)
        ensures { self.new ≡ runnable_as self.old runnable }
    {
        self.usable = self.kind.left(runnable, self.usable);
        self.runnable = runnable;
    }

    #[tactic(auto, unfolding(crate::specs::Written::written, crate::specs::Laid::laid))]
    pub(crate) fn vacant() -> Self
        ensures { result ≡ written no_tenant }
    {
        let none = Amount::new(0);
        Vcpu {
            due: [Moment::new(NEVER); 8],
            ended: Moment::new(0),
            held: Total::new(0),
            amount: [none; 8],
            period: none,
            capacity: none,
            usable: none,
            pending: none,
            priority: 0,
            runnable: false,
            count: 0,
            kind: Kind::Sporadic,
        }
    }

    // A vacant place with the newcomer's terms and first boundary, and C usable, but for a polling one.
    #[tactic(auto, unfolding(crate::specs::Written::written, crate::specs::Laid::laid))]
    pub(crate) fn admitted(d: Description, kind: Kind, now: Moment) -> Self
        requires fits { now.0 + d.period.0 ≤ never }
        requires kind_is { kind ≡ kind_as d.kind }
        ensures { result ≡ written (admittedRule now.0 (described d)) }
    {
        let mut v = Vcpu {
            period: d.period,
            capacity: d.capacity,
            usable: kind.left(false, d.capacity),
            priority: d.priority,
            kind,
            ..Vcpu::vacant()
        };
        if !kind.has_queue() {
            v.due[0] = now.plus(d.period);
        }
        v
    }

    // The next boundary, which a sporadic VCPU has not.
    pub(crate) fn boundary(&self) -> Option<Moment>
        ensures { result ≡ boundary_held self.now }
    {
        if self.kind.has_queue() {
            return None;
        }
        Some(self.due[0])
    }
}
