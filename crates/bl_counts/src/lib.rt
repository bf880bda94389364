//! Weights of sites from recorded runs: how often each site was executed, and the program in which each one weighs by that.
#![tactic(auto)]

mod counts;
mod error;
mod file;
pub mod laws;
mod tally;
mod weighing;

pub use counts::{Counted, SiteCount};
pub use error::{CountError, CountFileError};
pub use file::{CountFile, counts_text, read_counts};
pub use tally::count_run;
pub use weighing::weigh;
