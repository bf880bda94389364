//! Programs of commands: what they are, the facts and the rules that they keep, and the weights of their sites. What a command does, what a
//! run of a program ends with and what each rule asks stands in specs/.
#![tactic(auto)]

mod command;
mod definitions;
pub mod laws;
mod layout;
mod program;
mod weights;
mod wellformed;

pub use command::{Command, Mark, Operand};
pub use definitions::{
    Demand, ExportDef, FunctionDef, GlobalDef, MemRow, MemoryDef, ParamDef, ProgramParts,
    SiteWeight,
};
pub use layout::{firsts_of, owner_among};
pub use program::{FIRST_ENTRY, Program, arity};
pub use weights::{is_total_small, mark_at, site_weight, weight};
pub use wellformed::WellFormed;
