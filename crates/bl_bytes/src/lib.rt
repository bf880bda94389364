//! Bytes of memories, which accesses read and write, and memories of pages (WebAssembly 1.0, sections 4.2.8 and 4.4.4).
#![tactic(auto)]

mod bytes;
mod space;

pub use bytes::Bytes;
pub use space::Space;
