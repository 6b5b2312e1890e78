// The old tool's sheets (document 02, No. 13): at most 16 lines of period, one space, cost and newline, read and written back in the same
// bytes.
#![tactic(auto)]

mod answers;
mod field;
mod line;
mod put;
mod sheet;

pub use answers::{BadLine, NoRoom};
pub use sheet::Sheet;
