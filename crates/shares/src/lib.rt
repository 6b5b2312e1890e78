// The sizing half: supply and demand of the periodic resource model, the check of a task list with
// (period, budget), the least budget for a period, and the best interface up to a largest period.
// Every rule is document 01's, "Supply, demand, least share" and rows 30 to 35, or document 02's, No. 13 and
// row 36, as crate `model` defines them; it depends on nothing of the scheduler. Task lists are two lent
// slices, periods and costs, only read, since row 30 speaks of lists of other lengths.
#![tactic(auto)]

mod answers;
mod calls;
mod curve;
mod form;
mod leaps;
mod rows;
mod search;
mod table;
mod tasks;

pub use answers::{Refusal, Share};
pub use calls::{best, check, demand, least, supply};
pub use form::Form;
