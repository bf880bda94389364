//! Two runs of a program from starts that agree in public: whether an observer of the buffer machine can tell them apart.
#![tactic(auto)]

pub mod laws;
mod verdict;

pub use verdict::{Verdict, assess, own_leak_of};
