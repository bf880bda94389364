//! The check of a program's nine rules; what callers know of programs by bl_program can be named here too.
#![tactic(auto)]

mod parts;
mod place;
mod rules;
mod tables;
mod verdict;

pub use bl_program::{
    Command, Demand, ExportDef, FIRST_ENTRY, FunctionDef, GlobalDef, Mark, MemRow, MemoryDef,
    Operand, ParamDef, Program, ProgramParts, SiteWeight, WellFormed, arity, firsts_of, laws,
    mark_at, owner_among, site_weight, weight,
};
pub use verdict::{CheckError, check};
