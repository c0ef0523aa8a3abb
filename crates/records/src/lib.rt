//! The bytes of plan files: records of fixed size, sections of them, and the head; tables of what has names, and the search for a name.
#![tactic(auto)]

pub mod forms;
pub mod head;
pub mod kind;
pub mod named;
pub mod record;
pub mod search;
pub mod section;
pub mod tables;
