//! The module tree (WebAssembly 1.0, section 2.5).
use crate::instruction::Instr;
use crate::types::{FuncType, GlobalType, Limits, WasmType};
use bl_base::{List, Text};

/// A module as its bytes spell it. Each space of indices has what is imported first, and then what is defined, in
/// order; nothing says that an index exists.
#[derive(Debug, Drop)]
pub struct Module {
    /// The types, by their indices (section 2.5.2).
    pub types: List<FuncType>,
    /// The imports, in order (section 2.5.11).
    pub imports: List<Import>,
    /// The type index of each function that the module defines (section 2.5.3).
    pub functions: List<u32>,
    /// The tables that the module defines, in slots (section 2.5.4).
    pub tables: List<Limits>,
    /// The memories that the module defines, in pages (section 2.5.5).
    pub memories: List<Limits>,
    /// The globals that the module defines (section 2.5.6).
    pub globals: List<DefinedGlobal>,
    /// The exports, in order (section 2.5.10).
    pub exports: List<Export>,
    /// The index of the function that runs at the start, where there is one (section 2.5.9).
    pub start: Option<u32>,
    /// The element segments, in order (section 2.5.7).
    pub elements: List<ElementSegment>,
    /// The code of each function that the module defines, in the same order (section 2.5.3).
    pub bodies: List<Code>,
    /// The data segments, in order (section 2.5.8).
    pub segments: List<DataSegment>,
    /// The custom sections, in order, wherever they stand (section 5.5.3).
    pub customs: List<CustomSection>,
}

/// Something that another module defines (section 2.5.11).
#[derive(Debug, Drop)]
pub struct Import {
    /// The name of the other module, in UTF-8.
    pub from: Text,
    /// The name of what is imported, in UTF-8.
    pub name: Text,
    /// What it is, with its type.
    pub kind: ImportKind,
}

/// What is imported (section 2.5.11).
#[derive(Clone, Copy, Debug, PartialEq, Eq)]
pub enum ImportKind {
    /// A function, of the type of that index.
    Function(u32),
    /// A table, in slots.
    Table(Limits),
    /// A memory, in pages.
    Memory(Limits),
    /// A global.
    Global(GlobalType),
}

/// A global that the module defines (section 2.5.6).
#[derive(Debug, Drop)]
pub struct DefinedGlobal {
    /// Its type.
    pub kind: GlobalType,
    /// The items of the expression that gives its initial value, without the expression's own `end`.
    pub initial: List<Instr>,
}

/// An export (section 2.5.10).
#[derive(Debug, Drop)]
pub struct Export {
    /// The name of the export, in UTF-8.
    pub name: Text,
    /// What is exported.
    pub kind: ExportKind,
    /// Its index in the space of what it is, imports first.
    pub index: u32,
}

/// What is exported (section 2.5.10).
#[derive(Clone, Copy, Debug, PartialEq, Eq)]
pub enum ExportKind {
    /// A function.
    Function,
    /// A table.
    Table,
    /// A memory.
    Memory,
    /// A global.
    Global,
}

/// First entries of a table (section 2.5.7).
#[derive(Debug, Drop)]
pub struct ElementSegment {
    /// The index of the table.
    pub table: u32,
    /// The items of the expression that gives the first slot, without the expression's own `end`.
    pub offset: List<Instr>,
    /// The indices of the functions, in order.
    pub functions: List<u32>,
}

/// First contents of a memory (section 2.5.8).
#[derive(Debug, Drop)]
pub struct DataSegment {
    /// The index of the memory.
    pub memory: u32,
    /// The items of the expression that gives the first address, without the expression's own `end`.
    pub offset: List<Instr>,
    /// The contents.
    pub bytes: Text,
}

/// The code of a function (section 2.5.3).
#[derive(Debug, Drop)]
pub struct Code {
    /// The locals that aren't parameters, as runs of one type; fewer than 2^32 in sum.
    pub locals: List<LocalRun>,
    /// The items of the body, without the function's own `end`.
    pub items: List<Instr>,
}

/// So many locals of one type (section 5.5.13).
#[derive(Clone, Copy, Debug, PartialEq, Eq)]
pub struct LocalRun {
    /// How many.
    pub count: u32,
    /// Of which type.
    pub kind: WasmType,
}

/// A custom section (section 5.5.3).
#[derive(Debug, Drop)]
pub struct CustomSection {
    /// Its name, in UTF-8.
    pub name: Text,
    /// What stands after the name.
    pub bytes: Text,
}
