// The text layer of the sizing half: what a line asks, and the line that answers it.
#![tactic(auto)]

mod answers;
mod ask;
mod field;
mod line;
mod write;

pub use line::{LONGEST_LINE, answer, bad_line, trimmed_size};
pub use write::LONGEST_ANSWER;
