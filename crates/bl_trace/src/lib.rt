//! Texts of runs: start files, which have the arguments of the function that is entered and patches of memories' first contents;
//! trace files, which have the directives of the buffer machine; and the lines of observations.
#![tactic(auto)]

mod digits;
mod entry;
mod error;
pub mod laws;
mod line;
mod observation;
mod read;
mod trace;

pub use error::{StartError, TraceError};
pub use observation::{guarded, print_observation};
pub use read::read_start;
pub use trace::{count_lines, read_trace, trace_text};
