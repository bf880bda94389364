//! How linked trees run (WebAssembly 1.0, section 4): definitions, and laws of them. There is nothing to call.
#![tactic(auto)]

pub mod laws;
