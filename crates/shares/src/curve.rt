// The supply curve of a resource, and its inverse, by which the search goes from length to length: d ticks
// are supplied over every length of d + waited(gaps, p, b, d) or more, and over no other.
ghost use Rattle.std.specs.Prelude.{◌≡◌, ◌+◌, ◌*◌, ◌-◌, ◌/◌, ◌≤◌};
ghost use Rattle.model.specs.Supply.{supply_of};
ghost use Rattle.shares.specs.Paper.{paper_form};

use crate::form::Form;

pub(crate) fn supplied(form: Form, p: u32, b: u32, t: u32) -> u32
    requires { (1 ≤ b) × (b ≤ p) × (p ≤ 2000) × (t ≤ 2000) }
    ensures { result ≡ supply_of (paper_form form) p b t }
{
    let g = p - b;
    if t < g {
        return 0;
    }
    // y leaves a gap out in the ordinary form, and none in the aligned one
    let gaps = form.gaps();
    let y = (t - (gaps - 1) * g) / p;
    let lost = gaps * g + y * p;
    y * b + t.saturating_sub(lost)
}

// How much longer than d ticks the shortest length is over which d ticks are supplied: the gaps before the
// first tick, and a gap for each whole budget before the last one.
pub(crate) fn waited(gaps: u32, p: u32, b: u32, d: u32) -> u32
    requires { (gaps ≤ 2) × (1 ≤ b) × (b ≤ p) × (p ≤ 2000) × (1 ≤ d) × (d ≤ 65536) }
    ensures { (result ≡ (p - b) * (gaps + (d - 1) / b)) × (result ≤ 2000 * 65537) }
{
    (p - b) * (gaps + (d - 1) / b)
}
