// Rows 30 to 33 of document 01's table of reply numbers, with document 02's places.
ghost use Rattle.std.specs.Prelude.{◌≡◌, ◌-◌, length};
ghost use Rattle.model.specs.Rows.{within, in_range, miscounted};
ghost use Rattle.shares.specs.Private.{IsFirst, out_of_range_at, falls_after};

pub(crate) const MOST_TASKS: usize = 16;

pub(crate) const LONGEST: u32 = 2000;

// x from 1 to n.
pub(crate) fn is_within(x: u32, n: u32) -> bool
    ensures { result ≡ within x n }
{
    1 <= x && x <= n
}

// A period from 1 to 2,000 and an amount from 1 to the period: a task's cost (row 31), a budget (row 33).
pub(crate) fn is_in_range(p: u32, b: u32) -> bool
    ensures { result ≡ in_range p b }
{
    is_within(p, LONGEST) && is_within(b, p)
}

// No tasks, more than 16, or as many periods as costs don't stand (row 30).
pub(crate) fn is_miscounted(periods: &[u32], costs: &[u32]) -> bool
    ensures { result ≡ miscounted periods.now costs.now }
{
    let n = periods.len();
    n == 0 || MOST_TASKS < n || n != costs.len()
}

// The first task, from 0, whose numbers are out of range (row 31).
pub(crate) fn first_out_of_range(periods: &[u32], costs: &[u32]) -> Option<usize>
    requires { length periods.now ≡ length costs.now }
    ensures { IsFirst (out_of_range_at periods.now costs.now) (length periods.now) result }
{
    periods
        .iter()
        .zip(costs)
        .position(|(&p, &e)| !is_in_range(p, e))
}

// The first task, from 0, behind which the next one's period is smaller (row 32).
pub(crate) fn first_fall(periods: &[u32]) -> Option<usize>
    ensures { IsFirst (falls_after periods.now) (length periods.now - 1) result }
{
    periods.windows(2).position(|w| w[1] < w[0])
}
