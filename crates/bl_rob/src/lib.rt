//! The buffer machine: a processor that fetches commands in the order of a program, guesses where tests go, executes entries
//! of its buffer in any order, and retires them in the program's. What a directive does stands in specs/.
#![tactic(auto)]

mod chain;
mod directive;
mod entry;
mod fetch;
mod front;
pub mod laws;
mod loads;
mod machine;
mod observe;
mod queries;
mod rob;
mod steps;
mod visible;

pub use directive::{Directive, End, Kind, Observation, StepError};
pub use entry::{Entry, LoadKind, Register, Source, Work};
pub use loads::{Loads, Plain};
pub use machine::{Machine, effective, valued};
pub use observe::Observed;
pub use rob::Rob;
pub use visible::{guards, visible_of};
