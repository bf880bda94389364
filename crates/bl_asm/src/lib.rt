//! The bytes of instructions: an encoder and an assembler. The decoder is a definition in specs/, and laws.rt states that it reads back what the
//! encoder writes.
#![tactic(auto)]

mod assembler;
mod checker;
mod encoder;
pub mod laws;

pub use assembler::assemble;
pub use checker::assemble_checked;
pub use encoder::encode;
