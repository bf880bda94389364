//! The module tree (WebAssembly 1.0, section 2) and its binary grammar (section 5).
#![tactic(auto)]

mod float;
mod instruction;
pub mod laws;
mod linked;
mod module;
mod named;
mod targets;
mod type_numbers;
mod types;

pub use float::{FloatAccess, FloatOp};
pub use instruction::{Instr, MemoryArgument};
pub use linked::{Function, Global, Linked, Memory, Signature, Tree};
pub use module::{
    Code, CustomSection, DataSegment, DefinedGlobal, ElementSegment, Export, ExportKind, Import,
    ImportKind, LocalRun, Module,
};
pub use named::{Exports, Named};
pub use targets::Targets;
pub use type_numbers::number_types;
pub use types::{BlockType, FuncType, GlobalType, Limits, WasmType};
