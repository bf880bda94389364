//! The parts of a program.
use crate::command::Command;
use bl_base::{Label, List, Pos, Text, ValueType};

/// A global variable.
#[derive(Clone, Copy, Debug, PartialEq, Eq)]
pub struct GlobalDef {
    /// The type of its value.
    pub kind: ValueType,
    /// Who may learn its initial value.
    pub label: Label,
    /// Its initial value.
    pub first: u64,
}

/// A memory. Its size in pages is a variable.
#[derive(Debug, Drop)]
pub struct MemoryDef {
    /// Its first size, in pages of 65,536 bytes.
    pub pages: u32,
    /// The most pages that it grows to.
    pub reserve: u32,
    /// Who may learn its contents.
    pub label: Label,
    /// Its first contents: the rows that aren't all zero, by rising numbers.
    pub rows: List<MemRow>,
}

/// Sixteen bytes of a memory's first contents.
#[derive(Clone, Copy, Debug)]
pub struct MemRow {
    /// The place of its first byte, divided by 16.
    pub number: u32,
    /// The bytes.
    pub bytes: [u8; 16],
}

/// A function. Its variables are its parameters, its results and the rest, in this order.
#[derive(Debug, Drop)]
pub struct FunctionDef {
    /// Its parameters.
    pub params: List<ParamDef>,
    /// The types of its results.
    pub results: List<ValueType>,
    /// The number of its variables, parameters and results included.
    pub vars: u32,
    /// The number of its commands.
    pub length: u32,
}

/// A parameter of a function.
#[derive(Clone, Copy, Debug, PartialEq, Eq)]
pub struct ParamDef {
    /// The type of its value.
    pub kind: ValueType,
    /// Who may learn the argument of a run.
    pub label: Label,
}

/// A function that a run can begin with.
#[derive(Debug, Drop)]
pub struct ExportDef {
    /// Its name; any bytes.
    pub name: Text,
    /// Its number.
    pub function: u32,
}

/// A variable that has to be public at the end of a run.
#[derive(Clone, Copy, Debug, PartialEq, Eq)]
pub enum Demand {
    /// A result of a function.
    Result {
        /// The number of the function.
        function: u32,
        /// The index of the result.
        index: u32,
    },
    /// The global of that number.
    Global(u32),
}

/// What a protect at a site costs.
#[derive(Clone, Copy, Debug, PartialEq, Eq)]
pub struct SiteWeight {
    /// The position of the site.
    pub at: Pos,
    /// Its weight.
    pub weight: u64,
}

/// What a program is made of. Variables are numbered over the whole program: the globals, then a size for each memory, then
/// the variables of each function. Positions 0 to 6 are traps, and the functions' commands follow one after another, each
/// function's entry first. By itself this record says nothing of its parts; `Program` does.
#[derive(Debug, Drop)]
pub struct ProgramParts {
    /// The globals, by their numbers.
    pub globals: List<GlobalDef>,
    /// The memories, by their numbers.
    pub memories: List<MemoryDef>,
    /// The functions, by their numbers.
    pub functions: List<FunctionDef>,
    /// The functions that have names.
    pub exports: List<ExportDef>,
    /// The commands, by their positions.
    pub commands: List<Command>,
    /// The variables that have to be public at the end of a run.
    pub demands: List<Demand>,
    /// The weights of those sites that don't have the one of their mark.
    pub weights: List<SiteWeight>,
}
