// Steps 1 to 5 on the whole table: one call's way from the charge to the timer.
ghost use Rattle.std.specs.Prelude.{◌≡◌, ◌+◌, ◌≤◌, ◌<◌, min, take, Some};
ghost use Rattle.units.specs.Units.{moment};
ghost use Rattle.rules.specs.Limits.{most_vcpus};
ghost use Rattle.rules.specs.Told.{tell};
ghost use Rattle.rules.specs.Told.{total as totalTold};
ghost use Rattle.turns.specs.Written.{boundary_at, timer_of, tenants_in};
ghost use Rattle.turns.specs.Tenants.{charged_table, ChargesAt, idled_of, Returns, returned_table, times_before, times_then, all_told};
ghost use Rattle.turns.specs.Tenants.{with_new, without_at, changed_table, times_with, times_without, changed_times, Changeable, Removable, Admissible};
ghost use Rattle.turns.specs.Tenants.{ready_of, waits_of, picked_of, picks, nobody_ready, timer_for, IsPlace, holder_of};

use crate::{
    AllTold, Change, Description, Kind, MOST_VCPUS, NEVER, NOBODY, Pick, Roster, Told, Vcpu, table,
};
use units::{Amount, Moment, Total, Tunnel};

// The idle ticks, with those from `last` to `now` where nobody held the core.
pub(crate) fn idled(idle: Total, running: Option<usize>, last: Moment, now: Moment) -> Total
    requires { last.0 ≤ now.0 }
    ensures { result ≡ idled_of idle running last now }
{
    if running.is_some() {
        return idle;
    }
    idle.plus(Total::new(now.ticks() - last.ticks()))
}

// With one report more.
fn together(total: AllTold, told: Told) -> AllTold
    requires { total.ticks.0 + told.ticks.0 < 4294967296 }
    ensures { result ≡ all_told (total.ticks.0 + told.ticks.0) }
{
    AllTold {
        ticks: Amount::new(total.ticks.ticks() + told.ticks.ticks()),
    }
}

// By hand: the library's `min` says of numbers alone which of two it gives.
fn sooner(a: Moment, b: Moment) -> Moment
    ensures { result ≡ moment (min a.0 b.0) }
{
    if b < a { b } else { a }
}

fn ready(v: &Vcpu) -> bool
    ensures { result ≡ ready_of v.now }
{
    v.runnable && 0 < v.usable.ticks()
}

// The time reported of a VCPU, if it is runnable.
fn waits(runnable: bool, t: Moment) -> Moment
    ensures { result ≡ moment (waits_of runnable t) }
{
    if runnable { t } else { Moment::new(NEVER) }
}

// The time reported of a VCPU, if it is its next boundary.
fn own(v: &Vcpu, t: Moment) -> Moment
    ensures { result ≡ moment (timer_of (boundary_at v.now.kind t)) }
{
    if v.boundary().is_some() {
        t
    } else {
        Moment::new(NEVER)
    }
}

// One place more, in the order of urgency: the first ready one stays. `t` is the time that the return step reported of it, which of the
// ready one counts as its own next boundary, not as a return.
#[tactic(auto, unfolding(crate::specs::Tenants::picked_of))]
fn picked(pick: Pick, j: usize, v: &Vcpu, t: Moment) -> Pick
    ensures { result ≡ picked_of pick j v.now t }
{
    if pick.at.is_some() {
        return pick;
    }
    if ready(v) {
        return Pick {
            at: Some(j),
            usable: v.usable,
            soon: sooner(pick.soon, own(v, t)),
        };
    }
    Pick {
        at: None,
        usable: pick.usable,
        soon: sooner(pick.soon, waits(v.runnable, t)),
    }
}

// The timer: the time at which the ticks of the one that runs are used up, or an earlier one that comes; or none.
#[tactic(auto, unfolding(crate::specs::Tenants::timer_for))]
pub(crate) fn timer_for(now: Moment, pick: Pick) -> Option<Moment>
    ensures { result ≡ timer_for now pick }
{
    let time = match pick.at {
        Some(_) => sooner(now.plus(pick.usable), pick.soon),
        None => pick.soon,
    };
    if time.ticks() == NEVER {
        return None;
    }
    Some(time)
}

impl Roster {
    // 1. Charge; in idle nobody is charged.
    pub(crate) fn charge(&mut self, running: Option<usize>, last: Moment, now: Moment)
        requires { ChargesAt running last now self.old }
        ensures { self.new ≡ charged_table running last now self.old }
    {
        if let Some(at) = running {
            self.places[at].charge(last, now);
        }
    }

    // 2. Return or refill, for every VCPU, runnable or not. Each reports, and its time goes into `next`: two arrays by one place, so the
    // place is counted; a chain over both, with a sum behind it, is no plainer. (The times are of one call, the roster of the
    // state: they go beside it, here and below, since a struct of both would hand them on with the state.)
    pub(crate) fn bring(&mut self, now: Moment, next: &mut [Moment; MOST_VCPUS]) -> AllTold
        requires returns { Returns now self.old }
        requires blank { next.old ≡ times_before }
        ensures table { self.new ≡ returned_table now self.old }
        ensures times { next.new ≡ times_then now self.old }
        ensures ticks { result ≡ all_told (totalTold (tell now.0 (tenants_in self.old))) }
    {
        let mut total = AllTold {
            ticks: Amount::new(0),
        };
        for i in 0..self.n {
            let told = self.places[i].bring(now);
            next[i] = told.next;
            total = together(total, told);
        }
        total
    }

    // 3. Change, at the place that the call names.
    pub(crate) fn change(
        &mut self,
        next: &mut [Moment; MOST_VCPUS],
        at: Option<usize>,
        now: Moment,
        change: Change,
    )
        requires { Changeable now change at self.old next.old }
        ensures table { self.new ≡ changed_table now change at self.old }
        ensures times { next.new ≡ changed_times change at self.old next.old }
    {
        match (change, at) {
            (Change::Admit(d), _) => self.admit(next, now, d),
            (Change::Wake(_), Some(at)) => self.places[at].set_runnable(true),
            (Change::Block(_), Some(at)) => self.places[at].set_runnable(false),
            (Change::Remove(id), Some(at)) => self.remove(next, at, id),
            _ => {}
        }
    }

    // The newcomer goes before the first that is less urgent; nothing is reported of it.
    #[tactic(auto, using(crate::proofs::Places::spot_within))]
    fn admit(&mut self, next: &mut [Moment; MOST_VCPUS], now: Moment, d: Description)
        requires { Admissible now d self.old next.old }
        ensures table { self.new ≡ with_new now d self.old }
        ensures times { next.new ≡ times_with d self.old next.old }
    {
        let Ok(kind) = Kind::try_from(d.kind) else {
            return;
        };
        let k = table::spot(&self.places, &self.ids, self.n, d);
        table::insert_at(&mut self.places, self.n, k, Vcpu::admitted(d, kind, now));
        table::insert_at(&mut self.ids, self.n, k, d.tunnel);
        table::insert_at(next, self.n, k, Moment::new(NEVER));
        self.n += 1;
    }

    // What it leaves behind is remembered, and what it held counts as the removed tenants'.
    fn remove(&mut self, next: &mut [Moment; MOST_VCPUS], at: usize, id: Tunnel)
        requires { Removable at self.old next.old }
        ensures table { self.new ≡ without_at id (Some at) self.old }
        ensures times { next.new ≡ times_without (Some at) next.old }
    {
        self.memory.leave(id, &self.places[at]);
        self.removed = self.removed.plus(self.places[at].held);
        table::remove_at(&mut self.places, self.n, at, Vcpu::vacant());
        table::remove_at(&mut self.ids, self.n, at, Tunnel::new(NOBODY));
        table::remove_at(next, self.n, at, Moment::new(NEVER));
        self.n -= 1;
    }

    // 4. Choose: the first ready one, since the table is in the order of urgency. The scan goes on to the last place in use, so that
    // a call's work depends on how many there are and not on who is ready. (A chain of the library's was timed: 20 to 40 % slower.)
    pub(crate) fn choose(&self, next: &[Moment; MOST_VCPUS]) -> Pick
        requires { self.now.n ≤ most_vcpus }
        ensures { result ≡ picks nobody_ready 0 (take self.now.n self.now.places) (take self.now.n next.now) }
    {
        let mut pick = Pick {
            at: None,
            usable: Amount::new(0),
            soon: Moment::new(NEVER),
        };
        for j in 0..self.n {
            pick = picked(pick, j, &self.places[j], next[j]);
        }
        pick
    }

    // Who stands at the place found.
    pub(crate) fn holder(&self, at: Option<usize>) -> Option<Tunnel>
        requires { IsPlace at }
        ensures { result ≡ holder_of self.now.ids at }
    {
        Some(self.ids[at?])
    }
}
