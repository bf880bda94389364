//! Which variables may hold what comes of a guess, where a set of sites is protected; also where it is asked of variables that
//! they be transient or stable.
#![tactic(auto)]

mod asked;
mod bad;
pub mod laws;
mod moves;
mod protects;
mod search;
mod transient;

pub use asked::{AskedOf, marked, names_under, numbers_of};
pub use bad::first_bad_of;
pub use protects::{is_protected, own_protects};
pub use transient::{FlowVerdict, first_leak_of, flows, flows_of};
