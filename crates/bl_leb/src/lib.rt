//! Integers in LEB128 (WebAssembly 1.0, section 5.2.2): readers, which accept each spelling of a number,
//! and writers, which give the shortest.
#![tactic(auto)]

pub mod laws;
mod push;
mod read;

pub use push::{push_i32, push_u32, push_u64};
pub use read::{read_i32, read_i64, read_s33, read_short, read_u32};
