//! The words of a call: what they ask for, read by `clap` as one level of plain subcommands, and equal in both directions to
//! the rules of words, which stand apart from the code in `specs/`.
#![tactic(auto)]

mod command_line;
pub mod laws;
mod modules;
mod numbers;
mod options;
mod read;
mod roles;
mod steps;
mod words;

pub use read::{modules_in, read_words};
pub use words::{
    GenWords, HardenWords, InterpWords, JoinWords, LowerWords, PartWords, PredictWords, Request,
    RunWords, SpecWords, TwinWords, VerifyWords,
};
