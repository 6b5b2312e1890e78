// What a record says, and why one is not read.
ghost use Rattle.std.specs.Prelude.{◌≡◌};
ghost use Rattle.records.specs.Answer.{bad_number, bad_detail};

use turns::Change;
use units::Moment;

// The call that a record asks for.
#[derive(Clone, Copy, Debug, PartialEq, Eq)]
pub struct Event {
    pub time: Moment,
    pub change: Change,
}

// Rows 20, 21 and 22 of the table of reply numbers, each with the offset at which the bad record begins.
#[derive(Clone, Copy, Debug, PartialEq, Eq)]
pub enum BadRecord {
    CutShort(u64),
    UnknownTag(u64),
    BadLength(u64),
}

// Each refusal has its own rows, and nothing is generic over them: a trait of `number` and `detail` would be one name more.
impl BadRecord {
    pub fn number(self) -> u8
        ensures { result ≡ bad_number self }
    {
        match self {
            BadRecord::CutShort(_) => 20,
            BadRecord::UnknownTag(_) => 21,
            BadRecord::BadLength(_) => 22,
        }
    }

    pub fn detail(self) -> u64
        ensures { result ≡ bad_detail self }
    {
        match self {
            BadRecord::CutShort(offset)
            | BadRecord::UnknownTag(offset)
            | BadRecord::BadLength(offset) => offset,
        }
    }
}
