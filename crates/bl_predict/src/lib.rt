//! A predictor and a cache that choose directives by themselves.
#![tactic(auto)]

mod cache;
mod choice;
mod driver;
pub mod laws;

pub use cache::Cache;
pub use driver::{Driven, drive};
