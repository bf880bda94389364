//! The program behind `blade`: from words, files and a stream to an exit status.
#![tactic(auto)]

mod command;
mod forward;
mod generate;
mod harden;
mod interp;
mod join;
pub mod laws;
mod lower;
mod module;
mod outcome;
mod part;
mod predict;
mod run;
mod spec;
mod top;
mod twin;
mod verify;

pub use top::blade;
