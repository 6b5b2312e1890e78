// The table of leaps, by which the search passes over lengths that cannot do. A length t of the task at i has
// t less its demand to spare. At i * 2001 + s stands a length below which none has s ticks to spare; where the
// task has none at all it is 2001. The search asks only that: a table of zeros would do, and be slower.
ghost use Rattle.std.specs.Prelude.{◌≡◌, ◌+◌, ◌*◌, ◌≤◌, ◌<◌, length, get_or};
ghost use Rattle.model.specs.Demand.{demand_of};
ghost use Rattle.shares.specs.Private.{Filled, Leaps, Entering, longest, leap_of};

use crate::rows::{LONGEST, MOST_TASKS};
use crate::table::{CELLS, LENGTHS, cell_ticks};
use crate::tasks::Tasks;

// What stands where there is no length: one above the longest.
// No Option: a cell is a number of 16 bits, and what is above every period asks for no test of its own in the search.
const NO_LENGTH: u32 = LONGEST + 1;

const NO_LENGTH_CELL: u16 = NO_LENGTH as u16;

// The next length to look at for a task whose demand d asks for `spare` ticks to spare.
#[tactic(auto, unfolding(crate::specs::Private::leap_of))]
pub(crate) fn leap(leaps: &[u16; CELLS], i: usize, d: u32, spare: u32) -> u32
    requires { (i < 16) × (d ≤ 65536) × (spare ≤ 2000 * 65537) }
    ensures { result ≡ leap_of leaps.now i d spare }
{
    if LONGEST < spare {
        return NO_LENGTH;
    }
    let u = cell_ticks(leaps[i * LENGTHS + spare as usize]);
    u.max(d + spare)
}

// Enters the length t, whose demand is d, for each number of ticks to spare that no shorter one has.
fn fill_spare(tasks: &Tasks, leaps: &mut [u16; CELLS], i: usize, d: u32, t: u32, from: u32) -> u32
    requires { Entering tasks.now.periods.now tasks.now.costs.now leaps.old i t from
        × ((1 ≤ d) × (d ≡ demand_of tasks.now.periods.now tasks.now.costs.now (i + 1) t) × (t ≤ 2000)) }
    ensures { Entering tasks.now.periods.now tasks.now.costs.now leaps.new i (t + 1) result }
{
    // No `for`: how far it goes is what it finds.
    let mut spare = from;
    while d + spare <= t {
        leaps[i * LENGTHS + spare as usize] = t as u16;
        spare += 1;
    }
    spare
}

// Enters 2001 for each number of ticks that no length of the task has to spare.
fn fill_none(tasks: &Tasks, leaps: &mut [u16; CELLS], i: usize, from: u32)
    requires { Entering tasks.now.periods.now tasks.now.costs.now leaps.old i (get_or tasks.now.periods.now i 0 + 1) from }
    ensures { Leaps tasks.now.periods.now tasks.now.costs.now leaps.new ((i + 1) * 2001) }
{
    // By the numbers of ticks to spare: a slice of the table that is filled would say where they lie, and no more.
    for spare in from..NO_LENGTH {
        leaps[i * LENGTHS + spare as usize] = NO_LENGTH_CELL;
    }
}

fn fill_task(tasks: &Tasks, demands: &[u16; CELLS], leaps: &mut [u16; CELLS], i: usize)
    requires { (i < length tasks.now.periods.now)
        × (Filled tasks.now.periods.now tasks.now.costs.now demands.now ((longest tasks.now.periods.now + 1) * 16)
        × Leaps tasks.now.periods.now tasks.now.costs.now leaps.old (i * 2001)) }
    ensures { Leaps tasks.now.periods.now tasks.now.costs.now leaps.new ((i + 1) * 2001) }
{
    let mut spare = 0;
    for t in 1..tasks.periods[i] + 1 {
        let d = cell_ticks(demands[t as usize * MOST_TASKS + i]);
        spare = fill_spare(tasks, leaps, i, d, t, spare);
    }
    fill_none(tasks, leaps, i, spare);
}

pub(crate) fn fill_leaps(tasks: &Tasks, demands: &[u16; CELLS], leaps: &mut [u16; CELLS])
    requires { Filled tasks.now.periods.now tasks.now.costs.now demands.now ((longest tasks.now.periods.now + 1) * 16) }
    ensures { Leaps tasks.now.periods.now tasks.now.costs.now leaps.new (length tasks.now.periods.now * 2001) }
{
    // By places: both tables are laid out by the task's place.
    for i in 0..tasks.periods.len() {
        fill_task(tasks, demands, leaps, i);
    }
}
