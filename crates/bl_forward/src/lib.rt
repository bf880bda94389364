//! The buffer machine with forwarding: a load behind ready stores takes the value of the last one whose bytes it meets.
#![tactic(auto)]

mod find;
pub mod laws;
mod load;
mod runs;
mod seen;
mod verdict;

pub use bl_sct::Verdict as ForwardVerdict;
pub use load::{Forward, Fwd};
pub use runs::compare_forwarding;
pub use seen::Seen;
pub use verdict::forward_safe;
