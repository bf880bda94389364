//! The text of a run's outcome: its results or its trap, and its memories.
#![tactic(auto)]

mod memories;
mod outcome;

pub use outcome::outcome_text;
