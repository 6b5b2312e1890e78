// What the public functions answer. specs/Paper.antt gives the paper's number and values for each case.
ghost use Rattle.std.specs.Prelude.{◌≡◌};
ghost use Rattle.shares.specs.Paper.{number_of, detail_of};

// The rows of document 01's table of reply numbers that the sizing half gives. 31 and 32 tell the first such
// task's place, from 1 (document 02).
#[derive(Clone, Copy, Debug, PartialEq, Eq)]
pub enum Refusal {
    BadCount,
    BadTask(u32),
    FallingPeriod(u32),
    BadShare,
    NoBudget,
    BadLength,
    NotAligned,
}

// Each refusal has its own rows, and nothing is generic over them: a trait of `number` and `detail` would be one name more.
impl Refusal {
    // The row's number.
    pub fn number(self) -> u32
        ensures { result ≡ number_of self }
    {
        match self {
            Refusal::BadCount => 30,
            Refusal::BadTask(_) => 31,
            Refusal::FallingPeriod(_) => 32,
            Refusal::BadShare => 33,
            Refusal::NoBudget => 34,
            Refusal::BadLength => 35,
            Refusal::NotAligned => 36,
        }
    }

    // The place for 31 and 32, else 0.
    pub fn detail(self) -> u32
        ensures { result ≡ detail_of self }
    {
        match self {
            Refusal::BadTask(place) | Refusal::FallingPeriod(place) => place,
            _ => 0,
        }
    }
}

// A resource period and the budget that is had in each of them.
#[derive(Clone, Copy, Debug, PartialEq, Eq)]
pub struct Share {
    pub period: u32,
    pub budget: u32,
}
