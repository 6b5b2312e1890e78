// Which form of supply is asked for, and when the aligned one can be had: document 02, No. 13 and row 36.
ghost use Rattle.std.specs.Prelude.{◌≡◌, true, not, ◌&&◌, ◌≤◌, ◌↔◌, IsTrue, OnOk};
ghost use Rattle.model.specs.Form.{suits, takes};
ghost use Rattle.model.specs.Reply.{Reply};
ghost use Rattle.model.specs.Rows.{row, unaligned};
ghost use Rattle.shares.specs.Paper.{paper_form};
ghost use Rattle.shares.specs.Private.{EachDivides, gaps_of, judged};

use crate::answers::Refusal;
use crate::tasks::Tasks;

// Aligned is for tasks released at starts of a resource period, which no list can say: it is the caller's to
// know. Supply then begins a gap earlier.
#[derive(Clone, Copy, Debug, PartialEq, Eq)]
pub enum Form {
    Ordinary,
    Aligned,
}

impl Form {
    // How many gaps the first tick waits for at the least.
    pub(crate) fn gaps(self) -> u32
        ensures { result ≡ gaps_of (paper_form self) }
    {
        match self {
            Form::Ordinary => 2,
            Form::Aligned => 1,
        }
    }

    // The form can be had for these periods.
    pub(crate) fn suits(self, tasks: &Tasks) -> bool
        ensures { result ≡ suits (paper_form self) tasks.now.periods.now }
    {
        match self {
            Form::Ordinary => true,
            Form::Aligned => is_harmonic(tasks),
        }
    }

    // And p is one that it can have with them. Where each divides the next, the first tells of all.
    pub(crate) fn takes(self, p: u32, tasks: &Tasks) -> bool
        requires { (1 ≤ p) × (suits (paper_form self) tasks.now.periods.now ≡ true) }
        ensures { result ≡ takes (paper_form self) p tasks.now.periods.now }
    {
        match self {
            Form::Ordinary => true,
            Form::Aligned => tasks.periods[0] % p == 0,
        }
    }

    // Row 33 where the numbers asked do not fit, row 36 where the periods are not aligned. Its callers test
    // the numbers by two functions, and one place keeps the rows' order.
    pub(crate) fn share_row(self, fits: bool, p: u32, tasks: &Tasks) -> Result<(), Refusal>
        requires { fits ≡ true → 1 ≤ p }
        ensures rows { (rest : Reply) → judged result rest
            ≡ row (not fits) 33 0 (row (unaligned (paper_form self) p tasks.now.periods.now) 36 0 rest) }
        ensures accepted { OnOk result ((fits ≡ true)
            × ((suits (paper_form self) tasks.now.periods.now && takes (paper_form self) p tasks.now.periods.now) ≡ true)) }
    {
        if !fits {
            return Err(Refusal::BadShare);
        }
        if !self.suits(tasks) {
            return Err(Refusal::NotAligned);
        }
        if self.takes(p, tasks) {
            Ok(())
        } else {
            Err(Refusal::NotAligned)
        }
    }
}

// Each period divides the next. They rise, so that of any two one then divides the other.
fn is_harmonic(tasks: &Tasks) -> bool
    ensures { IsTrue result ↔ EachDivides tasks.now.periods.now }
{
    tasks.periods.windows(2).all(|w| w[1].is_multiple_of(w[0]))
}
