// The tasks that are asked of: the two lent slices, periods and costs, once rows 30 to 32 have let them through.
ghost use Rattle.std.specs.Prelude.{◌≡◌, IfOk};
ghost use Rattle.model.specs.Reply.{Reply};
ghost use Rattle.model.specs.Rows.{tasks_rows};
ghost use Rattle.shares.specs.Private.{IsTaskList, judged};

use crate::answers::Refusal;
use crate::rows::{first_fall, first_out_of_range, is_miscounted};

#[derive(Clone, Copy)]
pub(crate) struct Tasks<'a> {
    pub(crate) periods: &'a [u32],
    pub(crate) costs: &'a [u32],
    ghost accepted: { IsTaskList periods.now costs.now },
}

impl<'a> Tasks<'a> {
    // Refused by rows 30 to 32, for 31 and 32 with the first such task's place.
    pub(crate) fn new(periods: &'a [u32], costs: &'a [u32]) -> Result<Self, Refusal>
        ensures rows { (rest : Reply) → judged result rest ≡ tasks_rows periods.now costs.now rest }
        ensures lists { IfOk result (λ t. (t.periods.now ≡ periods.now) × (t.costs.now ≡ costs.now)) }
    {
        if is_miscounted(periods, costs) {
            return Err(Refusal::BadCount);
        }
        if let Some(i) = first_out_of_range(periods, costs) {
            return Err(Refusal::BadTask(i as u32 + 1));
        }
        if let Some(i) = first_fall(periods) {
            return Err(Refusal::FallingPeriod(i as u32 + 2));
        }
        Ok(Tasks { periods, costs })
    }
}
