// Moments in time, amounts of ticks, totals of ticks and tunnel identifiers, kept apart: four types whose numbers are private.
// Each is made from any number and read out, and compared with others of its type; the only arithmetic offered is a moment plus an amount,
// and a total plus a total.
#![tactic(auto)]

ghost use Rattle.std.specs.Prelude.{◌≡◌};
ghost use Rattle.units.specs.Units.{moment, amount, tunnel, total, later, together};

// The largest number that a moment or a total holds; a sum that would pass it is held to it.
pub const LAST_MOMENT: u64 = u64::MAX;

// A moment in time, in ticks since the card came up.
#[derive(Clone, Copy, Debug, PartialEq, Eq, PartialOrd, Ord)]
pub struct Moment(u64);

// An amount of ticks.
#[derive(Clone, Copy, Debug, PartialEq, Eq, PartialOrd, Ord)]
pub struct Amount(u32);

// Ticks counted over a stay, over all removed tenants, or in idle: up to the largest time, which an amount does not hold.
#[derive(Clone, Copy, Debug, PartialEq, Eq, PartialOrd, Ord)]
pub struct Total(u64);

// A tunnel identifier; all its bits count.
#[derive(Clone, Copy, Debug, PartialEq, Eq, PartialOrd, Ord)]
pub struct Tunnel(u32);

impl Moment {
    pub fn new(ticks: u64) -> Self
        ensures { result ≡ moment ticks }
    {
        Moment(ticks)
    }

    pub fn ticks(self) -> u64
        ensures { result ≡ self.0 }
    {
        self.0
    }

    // The moment `amount` later, or the largest moment where that lies beyond it.
    pub fn plus(self, amount: Amount) -> Moment
        ensures { result ≡ later self amount }
    {
        Moment(self.0.saturating_add(u64::from(amount.0)))
    }
}

impl Amount {
    pub fn new(ticks: u32) -> Self
        ensures { result ≡ amount ticks }
    {
        Amount(ticks)
    }

    pub fn ticks(self) -> u32
        ensures { result ≡ self.0 }
    {
        self.0
    }
}

impl Total {
    pub fn new(ticks: u64) -> Self
        ensures { result ≡ total ticks }
    {
        Total(ticks)
    }

    pub fn ticks(self) -> u64
        ensures { result ≡ self.0 }
    {
        self.0
    }

    // Both together, or the largest total where they come to more.
    pub fn plus(self, other: Total) -> Total
        ensures { result ≡ together self other }
    {
        Total(self.0.saturating_add(other.0))
    }
}

impl Tunnel {
    pub fn new(number: u32) -> Self
        ensures { result ≡ tunnel number }
    {
        Tunnel(number)
    }

    pub fn number(self) -> u32
        ensures { result ≡ self.0 }
    {
        self.0
    }
}
