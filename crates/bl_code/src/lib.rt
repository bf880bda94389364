//! Readers of the binary format (WebAssembly 1.0, section 5): one instruction, and the parts that it shares with
//! modules.
#![tactic(auto)]

mod error;
mod expression;
mod format;
mod instruction;
pub mod laws;
mod types;
mod values;

pub use error::{CodeError, Malformed};
pub use expression::read_expression;
pub use format::{Format, read_sized, read_vec};
pub use instruction::{Index, read_instr};
pub use types::{read_block_type, read_limits, read_value_type};
pub use values::{
    read_byte, read_bytes, read_exactly, read_f32, read_f64, read_i32, read_i64, read_name,
    read_u32,
};
