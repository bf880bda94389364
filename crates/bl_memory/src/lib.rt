//! The memories of a run of a linked tree (WebAssembly 1.0, sections 4.2.8 and 4.4.4): loads, stores, growth, and the patches of a
//! start.
#![tactic(auto)]

mod spaces;

pub use spaces::Spaces;
