//! Libraries hardened apart: interfaces, what is chosen on one side of one, and two programs that are joined by one, a client and a library.
#![tactic(auto)]

mod choice;
mod copies;
mod error;
mod iface;
mod joining;
pub mod laws;
mod limits;
mod lists;
mod matching;
mod names;
mod numbers;
mod obstacles;
mod read;
mod shift;
mod tables;
mod verdict;

pub use choice::{UnderChoice, UnderError, least_under};
pub use error::{IfaceError, JoinError, TargetsError};
pub use iface::{FnIface, Iface};
pub use joining::join;
pub use matching::{targets, unmatched};
pub use read::read_iface;
pub use verdict::{UnderVerdict, passes_under};
