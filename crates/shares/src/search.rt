// The search for the first budget that passes. It rests on three laws: a longer length and a task more
// demand no less, and a larger budget supplies no less (proofs/SupplyCurve.antt, proofs/DemandCurve.antt).
ghost use Rattle.std.specs.Prelude.{◌≡◌, true, ◌&&◌, leb, ◌+◌, ◌-◌, ◌*◌, ◌≤◌, length, IfSome};
ghost use Rattle.model.specs.Search.{first};
ghost use Rattle.model.specs.Form.{suits};
ghost use Rattle.model.specs.Share.{passes, best_of};
ghost use Rattle.shares.specs.Paper.{paper_form};
ghost use Rattle.shares.specs.Private.{Filled, Leaps, NoneUpTo, IsOffered, longest, place_of, paper_best, cap_of};

use crate::answers::Share;
use crate::curve::waited;
use crate::form::Form;
use crate::leaps::leap;
use crate::rows::MOST_TASKS;
use crate::table::{CELLS, cell_ticks};
use crate::tasks::Tasks;

// What is searched: the form, the tasks, and the whole tables of their demands and leaps.
#[derive(Clone, Copy)]
pub(crate) struct Search<'a> {
    pub(crate) form: Form,
    pub(crate) tasks: Tasks<'a>,
    pub(crate) demands: &'a [u16; CELLS],
    pub(crate) leaps: &'a [u16; CELLS],
    ghost filled: { Filled tasks.periods.now tasks.costs.now demands.now ((longest tasks.periods.now + 1) * 16) },
    ghost leapt: { Leaps tasks.periods.now tasks.costs.now leaps.now (length tasks.periods.now * 2001) },
}

impl Search<'_> {
    // The first budget from `from` to `to` that passes. Loops over budgets, tasks and lengths, as document 01
    // names them. A length that supplies too little is left for the next that may have as many ticks to spare
    // as its demand waits; the next task goes on at the same length, and the next budget at the same task.
    // (That p is a period is a clause, here and below: `best_share` counts it up, and a type would be made at each turn.)
    fn first_budget(&self, p: u32, from: u32, to: u32) -> Option<u32>
        requires { (p ≤ 2000) × ((1 ≤ from) × (to ≤ p)) }
        ensures { result ≡ place_of (first (λ b. leb from b
            && passes (paper_form self.now.form) p self.now.tasks.periods.now self.now.tasks.costs.now b) to) }
    {
        let gaps = self.form.gaps();
        let periods = self.tasks.periods;
        let demands = self.demands;
        let leaps = self.leaps;
        let n = periods.len();
        let mut b = from;
        let mut i = 0;
        let mut t = 1;
        'budgets: loop {
            if to < b {
                break 'budgets None;
            }
            'tasks: while i < n {
                'lengths: loop {
                    let d = cell_ticks(demands[t as usize * MOST_TASKS + i]);
                    let spare = waited(gaps, p, b, d);
                    if d + spare <= t {
                        i += 1;
                        continue 'tasks;
                    }
                    let u = leap(leaps, i, d, spare);
                    if periods[i] < u {
                        b += 1;
                        t = 1;
                        continue 'budgets;
                    }
                    t = u;
                }
            }
            break 'budgets Some(b);
        }
    }

    // Whether the tasks pass with (p, b).
    pub(crate) fn passes(&self, p: u32, b: u32) -> bool
        requires { (p ≤ 2000) × ((1 ≤ b) × (b ≤ p)) }
        ensures { result ≡ passes (paper_form self.now.form) p self.now.tasks.periods.now self.now.tasks.costs.now b }
    {
        self.first_budget(p, b, b).is_some()
    }

    // A budget up to `cap` below which all fail: one above the first failing one that the steps down meet,
    // each twice as long as the one before, or 1.
    fn may_pass_from(&self, p: u32, cap: u32) -> u32
        requires { (p ≤ 2000) × ((1 ≤ cap) × (cap ≤ p)) }
        ensures { (1 ≤ result) × (result ≤ cap)
            × NoneUpTo (paper_form self.now.form) p self.now.tasks.periods.now self.now.tasks.costs.now (result - 1) }
    {
        let mut b = cap;
        let mut step = 1;
        while step < b {
            b -= step;
            if !self.passes(p, b) {
                return b + 1;
            }
            step *= 2;
        }
        1
    }

    // The least budget from 1 to `cap` that passes.
    pub(crate) fn least_under(&self, p: u32, cap: u32) -> Option<u32>
        requires { (p ≤ 2000) × (cap ≤ p) }
        ensures { result
            ≡ place_of (first (passes (paper_form self.now.form) p self.now.tasks.periods.now self.now.tasks.costs.now) cap) }
    {
        if cap == 0 || !self.passes(p, cap) {
            return None;
        }
        let from = self.may_pass_from(p, cap);
        if from == cap {
            return Some(cap);
        }
        self.first_budget(p, from, cap)
    }

    // The best share up to `p_max`. A period that the form does not take is skipped. A later one is searched
    // only up to the budget that makes it no worse than the best so far, so that what it has there replaces that.
    pub(crate) fn best_share(&self, p_max: u32) -> Option<Share>
        requires { (p_max ≤ 2000) × (suits (paper_form self.now.form) self.now.tasks.periods.now ≡ true) }
        ensures best { paper_best result
            ≡ best_of (paper_form self.now.form) self.now.tasks.periods.now self.now.tasks.costs.now p_max }
        ensures some_budget { IfSome result (λ s. 1 ≤ s.budget) }
    {
        let mut best = None;
        for p in 1..p_max + 1 {
            if !self.form.takes(p, &self.tasks) {
                continue;
            }
            if let Some(budget) = self.least_under(p, cap_of(best, p)) {
                best = Some(Share { period: p, budget });
            }
        }
        best
    }
}

// The largest budget with which the period p is no worse than the best share so far.
#[tactic(auto, unfolding(crate::specs::Private::cap_of))]
fn cap_of(best: Option<Share>, p: u32) -> u32
    requires { IsOffered best × (p ≤ 2000) }
    ensures { result ≡ cap_of (paper_best best) p }
{
    match best {
        None => p,
        Some(s) => s.budget * p / s.period,
    }
}
