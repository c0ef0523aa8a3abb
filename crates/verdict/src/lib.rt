//! The verdict on a whole plan file, as one line in a caller's buffer.
#![tactic(auto)]

mod fault;
mod judging;

pub use judging::{LONGEST_FILE, judge};
pub use refusals::line::LONGEST_LINE;
