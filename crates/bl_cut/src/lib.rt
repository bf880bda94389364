//! The least protects: which sites of a program have to be protected so that no transient value comes to a sink, at the least
//! weight; and programs with their sites protected so.
#![tactic(auto)]

mod choice;
pub mod laws;
mod marks;
mod network;
mod under;
mod walks;

pub use choice::{Choice, least_protects, least_protects_of};
pub use marks::protect;
pub use under::{ChoiceUnder, least_under_of};
