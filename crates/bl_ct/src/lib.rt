//! Whether a program is constant time: a labelling of its variables by the label rules, or a way of a secret to where it may
//! not go.
#![tactic(auto)]

mod ends;
mod facts;
pub mod laws;
mod search;
mod secrets;
mod verdict;

pub use verdict::{CtVerdict, constant_time, secret_chain_of};
