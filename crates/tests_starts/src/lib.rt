//! What crates of tests share that run programs: starts that fit a function. It has no tests of its own.
#![tactic(auto)]

mod starts;

pub use starts::is_start;
