// A sheet: what was read, and how it is written back.
ghost use Rattle.std.specs.Prelude.{◌≡◌, ◌≤◌, length, get_or};
ghost use Rattle.model.specs.Rows.{check_reply, least_reply, best_reply};
ghost use Rattle.shares.specs.Paper.{paper_form, paper_verdict, paper_budget, paper_interface};
ghost use Rattle.text.specs.Text.{Put};
ghost use Rattle.sheets.specs.Sheet.{no_tasks, read_of};
ghost use Rattle.sheets.specs.Meaning.{Holds};
ghost use Rattle.sheets.specs.Paper.{text_of, paper_read, paper_writing, write_reply, written_in};
ghost use Rattle.sheets.specs.Private.{Pushed};

use crate::answers::{BadLine, NoRoom};
use crate::line::line;
use crate::put::put_line;
use shares::{Form, Refusal, Share};
use std::marker::Model;

// "at most 16 lines"
const MOST_LINES: usize = 16;

// 16 lines of two numbers of four digits, a space and a newline each.
const MOST_BYTES: usize = 160;

// The tasks that were read: the first `count` of both arrays, and zeros behind them. Reading alone makes one, and `empty`, which is what reading makes of no bytes.
// Two arrays, since the functions of `shares` take two slices (row 30 speaks of lists of other lengths); a count
// beside them, since there is no heap.
#[derive(Clone, Copy)]
pub struct Sheet {
    count: usize,
    periods: [u32; MOST_LINES],
    costs: [u32; MOST_LINES],
}

impl Model for Sheet {
    ghost use Rattle.model.specs.Asked.{Work};

    ghost Value = { Work };

    ghost use Rattle.sheets.specs.Kept.{work_of, ValidSheet, filled, whole_sheet};

    ghost view = { work_of };

    ghost invariant = { ValidSheet };

    ghost inverse = { filled };

    ghost inverse_ok = { whole_sheet };
}

impl Sheet {
    // A sheet of no lines: what stands for one that is refused, so that who does not look at the refusal is told 30.
    pub fn empty() -> Self
        ensures { result ≡ no_tasks }
    {
        Sheet {
            count: 0,
            periods: [0; MOST_LINES],
            costs: [0; MOST_LINES],
        }
    }

    // One task more; None where there are 16.
    fn push(&mut self, period: u32, cost: u32) -> Option<()>
        requires { (period ≤ 9999) × (cost ≤ 9999) }
        ensures { Pushed self.old period cost self.new result }
    {
        if self.count == MOST_LINES {
            return None;
        }
        self.periods[self.count] = period;
        self.costs[self.count] = cost;
        self.count += 1;
        Some(())
    }

    // The tasks of the old tool's sheet, which is all of `bytes`.
    pub fn read(bytes: &[u8]) -> Result<Sheet, BadLine>
        ensures { paper_read result ≡ read_of bytes.now }
    {
        let mut sheet = Sheet::empty();
        let mut rest = bytes;
        while !rest.is_empty() {
            let bad = BadLine(sheet.count() as u32 + 1);
            let (period, cost, behind) = line(rest).ok_or(bad)?;
            sheet.push(period, cost).ok_or(bad)?;
            rest = behind;
        }
        Ok(sheet)
    }

    fn periods(&self) -> &[u32]
        ensures periods_are { result.now ≡ self.now.periods }
        ensures holds { Holds self.now }
    {
        &self.periods[..self.count]
    }

    fn costs(&self) -> &[u32]
        ensures { result.now ≡ self.now.costs }
    {
        &self.costs[..self.count]
    }

    pub fn count(&self) -> usize
        ensures count_is { result ≡ length self.now.periods }
        ensures holds { Holds self.now }
    {
        self.periods().len()
    }

    // The period of the task at k, counted from 0; 0 where there is none.
    // (No Option, here and of `cost`: the promise is `get_or .. 0`.)
    pub fn period(&self, k: usize) -> u32
        ensures { result ≡ get_or self.now.periods k 0 }
    {
        self.periods().get(k).copied().unwrap_or(0)
    }

    pub fn cost(&self, k: usize) -> u32
        ensures { result ≡ get_or self.now.costs k 0 }
    {
        self.costs().get(k).copied().unwrap_or(0)
    }

    // Whether the tasks pass with (p, b) (shares::check).
    pub fn check(&self, form: Form, p: u32, b: u32) -> Result<bool, Refusal>
        ensures { paper_verdict result ≡ check_reply (paper_form form) self.now.periods self.now.costs p b }
    {
        shares::check(form, self.periods(), self.costs(), p, b)
    }

    // The smallest budget with which they pass (shares::least).
    pub fn least(&self, form: Form, p: u32) -> Result<u32, Refusal>
        ensures { paper_budget result ≡ least_reply (paper_form form) self.now.periods self.now.costs p }
    {
        shares::least(form, self.periods(), self.costs(), p)
    }

    // The best interface up to a largest period (shares::best).
    pub fn best(&self, form: Form, p_max: u32) -> Result<Share, Refusal>
        ensures { paper_interface result ≡ best_reply (paper_form form) self.now.periods self.now.costs p_max }
    {
        shares::best(form, self.periods(), self.costs(), p_max)
    }

    // The lines of the tasks at the front of `out`, one behind the other.
    fn put_lines(&self, out: &mut [u8]) -> usize
        requires { 160 ≤ length out.old }
        ensures put { Put out.old 0 (text_of self.now) out.new result }
        ensures holds { Holds self.now }
    {
        let mut at = 0;
        for (&period, &cost) in self.periods().iter().zip(self.costs()) {
            at = put_line(out, at, period, cost);
        }
        at
    }

    // The lines of the tasks at the front of `out`; where they have no room, nothing.
    pub fn write(&self, out: &mut [u8]) -> Result<usize, NoRoom>
        ensures reply_is { paper_writing result ≡ write_reply (text_of self.now) out.old }
        ensures out_after { out.new ≡ written_in (text_of self.now) out.old }
        ensures holds { Holds self.now }
    {
        let mut lines = [0; MOST_BYTES];
        let size = self.put_lines(&mut lines);
        if out.len() < size {
            return Err(NoRoom);
        }
        text::put_text(out, 0, &lines[..size]);
        Ok(size)
    }
}
