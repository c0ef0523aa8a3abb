//! Scripts of calls: a line read, an answer shown, lines run on a plan, and a whole script with its answers.
#![tactic(auto)]

mod bytes;
pub mod fabrics;
mod forms;
pub mod line;
pub mod reading;
pub mod reply;
pub mod running;
pub mod showing;
#[cfg(test)]
mod tests;
mod text;
pub mod transcript;
