// What a line is answered, before it is written: what it is told, or why it is told nothing.
ghost use Rattle.std.specs.Prelude.{◌≡◌};
ghost use Rattle.queries.specs.declared.answers.Fault.TheVariants.{Refused};

use shares::{Refusal, Share};

#[derive(Clone, Copy, Debug, PartialEq, Eq)]
pub(crate) enum Told {
    Help,
    Number(u32),
    Share(Share),
}

// A field has its place, from 1; the question of a line that was understood may still be refused.
#[derive(Clone, Copy, Debug, PartialEq, Eq)]
pub(crate) enum Fault {
    BadLine,
    BadWord,
    BadField(usize),
    Refused(Refusal),
}

impl From<Refusal> for Fault {
    ghost from_gives = { λ r e. e ≡ Refused r };

    fn from(r: Refusal) -> Fault {
        Fault::Refused(r)
    }
}
