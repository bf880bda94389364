//! A large valid module, made from a number.
#![tactic(auto)]

mod function;
pub mod laws;
mod module;
mod number;

pub use module::make;
