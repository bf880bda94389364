//! Certificates that a program's protects are the least: their check, and their text.
#![tactic(auto)]

mod chains;
mod error;
mod fault;
mod fields;
pub mod laws;
mod loads;
mod numbers;
mod pass;
mod protects;
mod read;
mod scan;
mod verdict;
mod write;

pub use error::CertError;
pub use read::from_json;
pub use verdict::{CertVerdict, check_certificate, check_certificate_of};
pub use write::to_json;
