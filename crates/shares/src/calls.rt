// The public functions. Each tests the rows that concern it, in the table's order, before any arithmetic. The tables lie in the frame of
// the call and the search borrows them: one function for `least` and `best` would take both arrays lent, since it cannot hand out what it
// holds, and `check` fills one alone. Two lent
// slices, and no slice of tasks: row 30 speaks of as many periods as costs.
ghost use Rattle.std.specs.Prelude.{◌≡◌, ◌≤◌, length};
ghost use Rattle.model.specs.Demand.{demand_of};
ghost use Rattle.model.specs.Rows.{supply_reply, demand_reply, check_reply, least_reply, best_reply};
ghost use Rattle.shares.specs.Paper.{paper_form, paper_ticks, paper_verdict, paper_budget, paper_interface};

use crate::answers::{Refusal, Share};
use crate::curve::supplied;
use crate::form::Form;
use crate::leaps::fill_leaps;
use crate::rows::{LONGEST, is_in_range, is_within};
use crate::search::Search;
use crate::table::{CELLS, demand_of_one, fill};
use crate::tasks::Tasks;

// The ticks that (p, b) supplies over t at the least.
#[tactic(auto, unfolding(model::specs::Rows::supply_reply))]
pub fn supply(form: Form, p: u32, b: u32, t: u32) -> Result<u32, Refusal>
    ensures { paper_ticks result ≡ supply_reply (paper_form form) p b t }
{
    if !is_in_range(p, b) {
        return Err(Refusal::BadShare);
    }
    if LONGEST < t {
        return Err(Refusal::BadLength);
    }
    Ok(supplied(form, p, b, t))
}

fn demanded(tasks: &Tasks, count: usize, t: u32) -> u32
    requires { (count ≤ length tasks.now.periods.now) × (t ≤ 2000) }
    ensures { result ≡ demand_of tasks.now.periods.now tasks.now.costs.now count t }
{
    let mut sum = 0;
    for (&p, &e) in tasks.periods[..count].iter().zip(tasks.costs) {
        sum += demand_of_one(p, e, t);
    }
    sum
}

// The demand of the first `place` tasks over t.
#[tactic(auto, unfolding(model::specs::Rows::demand_reply))]
pub fn demand(periods: &[u32], costs: &[u32], place: u32, t: u32) -> Result<u32, Refusal>
    ensures { paper_ticks result ≡ demand_reply periods.now costs.now place t }
{
    let tasks = Tasks::new(periods, costs)?;
    if LONGEST < t {
        return Err(Refusal::BadLength);
    }
    let count = place as usize;
    if count == 0 || periods.len() < count {
        return Err(Refusal::BadLength);
    }
    Ok(demanded(&tasks, count, t))
}

// Whether the tasks pass with (p, b).
#[tactic(auto, unfolding(model::specs::Rows::check_reply))]
pub fn check(form: Form, periods: &[u32], costs: &[u32], p: u32, b: u32) -> Result<bool, Refusal>
    ensures { paper_verdict result ≡ check_reply (paper_form form) periods.now costs.now p b }
{
    let tasks = Tasks::new(periods, costs)?;
    let fits = is_in_range(p, b);
    form.share_row(fits, p, &tasks)?;
    let mut demands = [0u16; CELLS];
    fill(&tasks, &mut demands);
    // One budget is tried once: zeros are leaps enough.
    let leaps = [0u16; CELLS];
    let search = Search {
        form,
        tasks,
        demands: &demands,
        leaps: &leaps,
    };
    Ok(search.passes(p, b))
}

// The smallest budget from 1 to p with which the tasks pass.
#[tactic(auto, unfolding(model::specs::Rows::least_reply, model::specs::Share::least_of))]
pub fn least(form: Form, periods: &[u32], costs: &[u32], p: u32) -> Result<u32, Refusal>
    ensures { paper_budget result ≡ least_reply (paper_form form) periods.now costs.now p }
{
    let tasks = Tasks::new(periods, costs)?;
    let fits = is_within(p, LONGEST);
    form.share_row(fits, p, &tasks)?;
    let mut demands = [0u16; CELLS];
    let mut leaps = [0u16; CELLS];
    fill(&tasks, &mut demands);
    fill_leaps(&tasks, &demands, &mut leaps);
    let search = Search {
        form,
        tasks,
        demands: &demands,
        leaps: &leaps,
    };
    search.least_under(p, p).ok_or(Refusal::NoBudget)
}

// The share of the smallest fraction among the periods from 1 to p_max, each with its least budget; at a
// tie the larger period, since it switches less.
#[tactic(auto, unfolding(model::specs::Rows::best_reply))]
pub fn best(form: Form, periods: &[u32], costs: &[u32], p_max: u32) -> Result<Share, Refusal>
    ensures { paper_interface result ≡ best_reply (paper_form form) periods.now costs.now p_max }
{
    let tasks = Tasks::new(periods, costs)?;
    if !is_within(p_max, LONGEST) {
        return Err(Refusal::BadShare);
    }
    // A period that does not divide them is no row 36 here: it is skipped (document 02, No. 13).
    if !form.suits(&tasks) {
        return Err(Refusal::NotAligned);
    }
    let mut demands = [0u16; CELLS];
    let mut leaps = [0u16; CELLS];
    fill(&tasks, &mut demands);
    fill_leaps(&tasks, &demands, &mut leaps);
    let search = Search {
        form,
        tasks,
        demands: &demands,
        leaps: &leaps,
    };
    search.best_share(p_max).ok_or(Refusal::NoBudget)
}
