//! Refusals by number and values, their words, and the line that tells a verdict.
#![tactic(auto)]

pub mod line;
mod pen;
pub mod refusal;
mod text;
pub mod words;
