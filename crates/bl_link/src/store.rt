//! What is linked so far (WebAssembly 1.0, section 4.2.3).
use crate::all_names::AllNames;
use bl_base::List;
use bl_wasm::{ExportKind, Limits, Tree};

/// An external value (section 4.2.11).
#[derive(Clone, Copy, Debug, PartialEq, Eq)]
pub(crate) struct External {
    /// What it is.
    pub kind: ExportKind,
    /// Its number in the tree.
    pub number: u32,
}

/// The number in the tree of each index of a part, space by space: what is imported, and then what is defined (section 4.2.5).
#[derive(Debug, Drop)]
pub(crate) struct Spaces {
    /// The types.
    pub types: List<u32>,
    /// The functions.
    pub functions: List<u32>,
    /// The tables.
    pub tables: List<u32>,
    /// The memories.
    pub memories: List<u32>,
    /// The globals.
    pub globals: List<u32>,
}

/// What is linked so far.
#[derive(Drop)]
pub(crate) struct Store {
    /// The tree.
    pub tree: Tree,
    /// The exports of its parts, by their names in the tree.
    pub exports: AllNames,
    /// The limits of each table, as its definition has them.
    pub tables: List<Limits>,
    /// The limits of each memory, as its definition has them.
    pub memories: List<Limits>,
}
