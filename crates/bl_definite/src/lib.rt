//! Whether each variable that a program's commands read was written before, in the same call.
#![tactic(auto)]

mod checker;
mod early;
mod facts;
pub mod laws;
mod needs;
mod place;
mod search;
mod tables;

pub use checker::{DefiniteError, check_definite};
pub use facts::Fact;
