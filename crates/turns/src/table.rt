// The table: where an identifier stands, where a newcomer goes, and the shifts of admit and remove.
ghost use Rattle.std.specs.Prelude.{◌≡◌, ◌≤◌, ◌<◌, ◌==◌, ◌||◌, ◌&&◌, nat_lt, position, zip, filter, map, nat_le, min, option_map};
ghost use Rattle.std.specs.List.{reduce};
ghost use Rattle.rules.specs.Limits.{most_vcpus};
ghost use Rattle.turns.specs.Calls.{described};
ghost use Rattle.turns.specs.Places.{on_table, named_at, spot_in, inserted, removed, BlankFrom};

use crate::{Change, Description, MOST_VCPUS, Vcpu};
use units::Tunnel;

// The place of an identifier.
pub(crate) fn find(ids: &[Tunnel], id: Tunnel) -> Option<usize>
    ensures { result ≡ position (λ x. x.0 == id.0) ids.now }
{
    ids.iter().position(|x| *x == id)
}

// The smallest number of an identifier from `low` on; of numbers std says by an equation which one `min` gives.
pub(crate) fn least(ids: &[Tunnel], low: Tunnel) -> Option<u32>
    ensures { result ≡ reduce min (filter (λ n. nat_le low.0 n) (map (λ t. t.0) ids.now)) }
{
    ids.iter()
        .map(|t| t.number())
        .filter(|n| low.number() <= *n)
        .min()
}

// The place of the VCPU that a call names; a tick names nobody. An identifier above 24 bits may give a vacant place: row 4 comes first.
pub(crate) fn named(ids: &[Tunnel; MOST_VCPUS], change: Change) -> Option<usize>
    ensures { result ≡ on_table (named_at ids.now change) }
{
    match change {
        Change::Admit(d) => find(ids, d.tunnel),
        Change::Wake(id) | Change::Block(id) | Change::Remove(id) => find(ids, id),
        Change::Tick => None,
    }
}

// The first of these places whose VCPU is less urgent than the newcomer.
fn first_below(places: &[Vcpu], ids: &[Tunnel], priority: u8, tunnel: Tunnel) -> Option<usize>
    ensures { result ≡ position (λ x. nat_lt priority x.0.priority || (priority == x.0.priority && nat_lt tunnel.0 x.1.0)) (zip places.now ids.now) }
{
    let mine = (priority, tunnel);
    places
        .iter()
        .zip(ids)
        .position(|(v, id)| mine < (v.priority, *id))
}

// .. and of the first `n`, or `n`.
pub(crate) fn spot(
    places: &[Vcpu; MOST_VCPUS],
    ids: &[Tunnel; MOST_VCPUS],
    n: usize,
    d: Description,
) -> usize
    requires { n ≤ most_vcpus }
    ensures { result ≡ spot_in (described d) n places.now ids.now }
{
    first_below(&places[..n], &ids[..n], d.priority, d.tunnel).unwrap_or(n)
}

// `x` at the place `at`, and what stood there and behind it one place on. The first `n` places are in use; the others are alike, so they are
// not moved (docs/DECISIONS.md, "How do an admit and a remove shift the table?").
pub(crate) fn insert_at<T: Copy>(slots: &mut [T; MOST_VCPUS], n: usize, at: usize, x: T)
    requires place { (at ≤ n) × (n < most_vcpus) }
    requires blank { (z : T) × BlankFrom n z slots.old }
    ensures { slots.new ≡ inserted at x slots.old }
{
    slots.copy_within(at..n, at + 1);
    slots[at] = x;
}

// What stood behind the place `at` one place forward, and `vacant`, as in the places that are not in use, at the last one that was.
pub(crate) fn remove_at<T: Copy>(slots: &mut [T; MOST_VCPUS], n: usize, at: usize, vacant: T)
    requires place { (at < n) × (n ≤ most_vcpus) }
    requires blank { BlankFrom n vacant slots.old }
    ensures { slots.new ≡ removed at vacant slots.old }
{
    slots.copy_within(at + 1..n, at);
    slots[n - 1] = vacant;
}
