//! Linking: the modules of a request as one program (WebAssembly 1.0, section 4.5.4).
#![tactic(auto)]

mod all_names;
mod all_parts;
mod bodies;
mod defined;
mod error;
mod given;
pub mod laws;
mod matching;
mod names;
mod part;
mod rename;
mod segments;
mod signatures;
mod spaces;
mod store;
mod widths;

pub use all_parts::link;
pub use error::LinkError;
pub use part::Part;
