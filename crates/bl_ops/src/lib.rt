//! The integer operators of WebAssembly 1.0 and the kinds of accesses to memory: their codes, types and meaning.
#![tactic(auto)]

mod access;
mod group;
pub mod laws;
mod op;
mod operator_table;

pub use access::{AccessKind, extend, narrow};
pub use op::{Op, OpRow, OpTable};
pub use operator_table::{
    by_code, by_image_code, eval, image_code, row, row_operands, table, trap_of,
};
