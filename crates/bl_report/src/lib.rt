//! The report of a program with protects: how much there is of it, why each protect stands, and whether it is constant-time.
#![tactic(auto)]

mod first;
pub mod laws;
mod lines;
mod secrets;
mod sites;
mod text;
mod verdicts;

pub use text::{protects_report, report, summary};
pub use verdicts::verdicts_text_of;
