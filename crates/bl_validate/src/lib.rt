//! Whether a module is valid: each of its functions has a typing, and its other parts keep their rules (WebAssembly 1.0,
//! section 3).
#![tactic(auto)]

mod body;
mod effects;
mod operands;
mod rules;
mod scope;
mod stacks;
mod valid;
mod verdict;

pub use valid::ValidModule;
pub use verdict::{Invalid, validate};
