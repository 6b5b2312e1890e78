// Event records: bytes to an event or a refusal, and an event to its bytes.
#![tactic(auto)]

mod answers;
mod reader;
mod sizes;
mod writer;

pub use answers::{BadRecord, Event};
pub use reader::read;
pub use writer::{size, write};
