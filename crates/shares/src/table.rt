// The table of demands: at t * 16 + i the demand of the first i + 1 tasks over the length t, for each
// length up to the last task's period. The search reads each demand from it and divides no more.
ghost use Rattle.std.specs.Prelude.{◌≡◌, ◌+◌, ◌*◌, ◌≤◌};
ghost use Rattle.model.specs.Demand.{ceil};
ghost use Rattle.shares.specs.Private.{Filled, longest};

use crate::rows::{LONGEST, MOST_TASKS};
use crate::tasks::Tasks;

// The lengths from 0 to the longest.
pub(crate) const LENGTHS: usize = LONGEST as usize + 1;

// A cell for each task at each of them: fixed memory, no heap.
pub(crate) const CELLS: usize = LENGTHS * MOST_TASKS;

// A cell as a number of ticks. (The cast alone asks for the cell's bound at each place.)
pub(crate) fn cell_ticks(cell: u16) -> u32
    ensures { result ≡ cell }
{
    cell as u32
}

// What one task of period p and cost e demands over t.
pub(crate) fn demand_of_one(p: u32, e: u32, t: u32) -> u32
    requires { (1 ≤ p) × (p ≤ 2000) × (e ≤ p) × (t ≤ 2000) }
    ensures { (result ≡ ceil t p * e) × (result ≤ 4000) }
{
    (t + (p - 1)) / p * e
}

fn fill_length(tasks: &Tasks, cells: &mut [u16; CELLS], t: u32)
    requires { (t ≤ 2000) × Filled tasks.now.periods.now tasks.now.costs.now cells.old (t * 16) }
    ensures { Filled tasks.now.periods.now tasks.now.costs.now cells.new ((t + 1) * 16) }
{
    let start = t as usize * MOST_TASKS;
    let mut sum = 0;
    // By places: the cell of the task at i is found by it.
    for i in 0..tasks.periods.len() {
        sum += demand_of_one(tasks.periods[i], tasks.costs[i], t);
        cells[start + i] = sum as u16;
    }
}

pub(crate) fn fill(tasks: &Tasks, cells: &mut [u16; CELLS])
    ensures { Filled tasks.now.periods.now tasks.now.costs.now cells.new ((longest tasks.now.periods.now + 1) * 16) }
{
    let last = tasks.periods[tasks.periods.len() - 1];
    for t in 0..last + 1 {
        fill_length(tasks, cells, t);
    }
}
