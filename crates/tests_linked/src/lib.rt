//! What crates of tests share that link modules: parts of modules by their bytes. It has no tests of its own.
#![tactic(auto)]

mod parts;

pub use parts::{linked, parts_of};
