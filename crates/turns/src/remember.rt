// The identifiers that left the card and are remembered, each with its time: who is remembered still, with which time, and one more.
ghost use Rattle.std.specs.Prelude.{◌≡◌, false, [], ◌≤◌, ◌<◌};
ghost use Rattle.rules.specs.Limits.{most_vcpus, most_pending};
ghost use Rattle.rules.specs.Remember.{time_of};
ghost use Rattle.rules.specs.Remember.{kept as keptRule};
ghost use Rattle.turns.specs.Written.{memories, memory_of, moment_said};
ghost use Rattle.turns.specs.Calls.{paper_presence, paper_remembered};
ghost use Rattle.turns.specs.Remembered.{Fixed, with_of, leaving_of};

use crate::{MOST_VCPUS, Memory, NEVER, NOBODY, Presence, Vcpu, table};
use units::{Moment, Tunnel};

impl Memory {
    #[tactic(auto, unfolding(crate::specs::Laid::laid))]
    pub(crate) fn blank() -> Self
        ensures { result ≡ memory_of [] }
    {
        Memory {
            ids: [Tunnel::new(NOBODY); MOST_VCPUS],
            until: [Moment::new(NEVER); MOST_VCPUS],
            count: 0,
        }
    }

    fn push(&mut self, id: Tunnel, time: Moment)
        requires { self.old.count < most_vcpus }
        ensures { self.new ≡ with_of self.old id time }
    {
        self.ids[self.count] = id;
        self.until[self.count] = time;
        self.count += 1;
    }

    // Those whose time has not come at `now`, in their order, moved to the front; a slot that is passed is left vacant.
    // `Fixed` is a clause, here and below, and no ghost field: `core_of` builds memories, and the core's invariant holds it for all callers.
    pub(crate) fn keep(&mut self, now: Moment)
        requires { Fixed self.old }
        ensures { self.new ≡ memory_of (keptRule now.0 (memories self.old)) }
    {
        // By two places: it moves within the arrays that it reads, which no chain does.
        let mut left = 0;
        for k in 0..self.count {
            let id = self.ids[k];
            let time = self.until[k];
            self.ids[k] = Tunnel::new(NOBODY);
            self.until[k] = Moment::new(NEVER);
            if now < time {
                self.ids[left] = id;
                self.until[left] = time;
                left += 1;
            }
        }
        self.count = left;
    }

    // The time that an identifier is remembered with.
    pub(crate) fn time_of(&self, id: Tunnel) -> Option<Moment>
        requires { Fixed self.now }
        ensures { result ≡ moment_said (time_of id.0 (memories self.now)) }
    {
        let at = table::find(&self.ids[..self.count], id)?;
        Some(self.until[at])
    }

    // What a VCPU that is removed leaves behind: it is remembered until the last time that something would have come to it.
    #[tactic(auto, unfolding(crate::specs::Remembered::leaving_of))]
    pub(crate) fn leave(&mut self, id: Tunnel, v: &Vcpu)
        requires count_lt_most_vcpus { self.old.count < most_vcpus }
        requires count_le_most_pending { v.now.count ≤ most_pending }
        ensures { self.new ≡ leaving_of self.old id v.now }
    {
        let time = v.latest();
        if time.ticks() != NEVER {
            self.push(id, time);
        }
    }

    // Of an identifier that is not on the card.
    pub(crate) fn presence(&self, id: Tunnel) -> Presence
        requires { Fixed self.now }
        ensures { (paper_presence result ≡ false) × (paper_remembered result ≡ time_of id.0 (memories self.now)) }
    {
        match self.time_of(id) {
            Some(time) => Presence::Remembered(time),
            None => Presence::Absent,
        }
    }
}
