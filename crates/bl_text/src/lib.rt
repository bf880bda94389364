//! Texts that several crates read: numbers in decimal digits, lines, and the names of modules by their files.
#![tactic(auto)]

mod digits;
mod lines;
mod names;

pub use digits::read_decimal;
pub use lines::{Lines, place_of};
pub use names::module_name;
