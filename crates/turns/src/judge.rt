// The reply numbers, rows 1 to 12. `at` is the place of the VCPU that the call names: a refused call does not touch the table.
ghost use Rattle.std.specs.Prelude.{◌≡◌, ◌+◌, ◌≤◌};
ghost use Rattle.rules.specs.Limits.{most_vcpus, in_range};
ghost use Rattle.rules.specs.Remember.{kept};
ghost use Rattle.turns.specs.Written.{memories};
ghost use Rattle.turns.specs.Judge.{Verdict, passes, judge_terms, judge_place, judge_admit, judge_naming, judge_call};
ghost use Rattle.turns.specs.Judge.{judge as judgeRows};
ghost use Rattle.turns.specs.Remembered.{Judges};

use crate::{
    Change, Description, Kind, LARGEST_PERIOD, LARGEST_TIME, LARGEST_TUNNEL, MOST_VCPUS, Refusal,
    Roster,
};
use units::{Moment, Tunnel};

fn in_range(period: u32) -> bool
    ensures { result ≡ in_range period }
{
    1 <= period && period <= LARGEST_PERIOD
}

// Rows 4, 5, 11, 12 and 10 of an admit: what it asks for.
#[tactic(auto, unfolding(crate::specs::Judge::judge_terms))]
fn judged_terms(d: Description) -> Result<(), Refusal>
    ensures { result ≡ judge_terms d passes }
{
    if LARGEST_TUNNEL < d.tunnel.number() {
        return Err(Refusal::BadTunnel);
    }
    if !in_range(d.period.ticks()) {
        return Err(Refusal::BadPeriod);
    }
    if d.capacity.ticks() == 0 {
        return Err(Refusal::NoCapacity);
    }
    if d.period < d.capacity {
        return Err(Refusal::CapacityAbovePeriod);
    }
    Kind::try_from(d.kind)?;
    Ok(())
}

// Rows 6, 9 and 8: its place, among those who are remembered at the call's time.
// (`Judges` is a clause, here and below: the core's invariant holds it, and a roster has none of its own, since it is changed step by step.)
#[tactic(auto, using(crate::proofs::Remembered::kept_again), unfolding(crate::specs::Judge::judge_place))]
fn judged_place(at: Option<usize>, table: &Roster, now: Moment, id: Tunnel) -> Result<(), Refusal>
    requires { Judges table.now }
    ensures { result ≡ judge_place at table.now.n (kept now.0 (memories table.now.memory)) id.0 }
{
    if at.is_some() {
        return Err(Refusal::OnCard);
    }
    // A copy, since a refused call leaves the table as it was; few calls are admits that come so far.
    let mut memory = table.memory;
    memory.keep(now);
    if let Some(until) = memory.time_of(id) {
        return Err(Refusal::Remembered(until));
    }
    if MOST_VCPUS <= table.n + memory.count {
        return Err(Refusal::Full);
    }
    Ok(())
}

#[tactic(auto, using(crate::proofs::Rows::terms_then))]
fn judged_admit(
    at: Option<usize>,
    table: &Roster,
    now: Moment,
    d: Description,
) -> Result<(), Refusal>
    requires { Judges table.now }
    ensures { result ≡ judge_admit at table.now.n (kept now.0 (memories table.now.memory)) d }
{
    judged_terms(d)?;
    judged_place(at, table, now, d.tunnel)
}

#[tactic(auto, unfolding(crate::specs::Judge::judge_naming))]
fn judged_naming(at: Option<usize>, id: Tunnel) -> Result<(), Refusal>
    ensures { result ≡ judge_naming at id.0 }
{
    if LARGEST_TUNNEL < id.number() {
        return Err(Refusal::BadTunnel);
    }
    if at.is_none() {
        return Err(Refusal::NotOnCard);
    }
    Ok(())
}

fn judged_call(
    at: Option<usize>,
    table: &Roster,
    now: Moment,
    change: Change,
) -> Result<(), Refusal>
    requires { Judges table.now }
    ensures { result ≡ judge_call at table.now.n (kept now.0 (memories table.now.memory)) change }
{
    match change {
        Change::Admit(d) => judged_admit(at, table, now, d),
        Change::Wake(id) | Change::Block(id) | Change::Remove(id) => judged_naming(at, id),
        Change::Tick => Ok(()),
    }
}

#[tactic(auto, unfolding(crate::specs::Judge::judge))]
pub(crate) fn judged(
    last: Moment,
    timer: Option<Moment>,
    at: Option<usize>,
    table: &Roster,
    now: Moment,
    change: Change,
) -> Result<(), Refusal>
    requires { Judges table.now }
    ensures { result ≡ judgeRows last timer at table.now now change }
{
    if LARGEST_TIME < now.ticks() {
        return Err(Refusal::BadTime);
    }
    if now < last {
        return Err(Refusal::BeforeLast);
    }
    if let Some(time) = timer
        && time < now
    {
        return Err(Refusal::PastTimer(time));
    }
    judged_call(at, table, now, change)
}
