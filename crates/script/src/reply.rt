//! What a line of a script is answered.
use refusals::refusal::{Refusal, Told};
use replay::calls::Answer;

/// What a line is answered.
#[derive(Drop)]
pub enum Reply {
    /// No line of the language.
    Unread,
    /// A fabric with so many nodes and link numbers, and a new plan over it.
    Ready { nodes: usize, links: usize },
    /// A refused mesh.
    Refused(Refusal),
    /// A refused listed fabric.
    Told(Told),
    /// What a call answers.
    Answer(Answer<Vec<u8>>),
}
