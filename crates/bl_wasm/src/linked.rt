//! The linked tree: the modules of a request as one program (WebAssembly 1.0, section 4.5.4). Functions, globals, memories,
//! tables and types are numbered over the whole tree, and the items of a body name them by these numbers.
ghost use Rattle.std.specs.Prelude.{◌≡◌, option_copied};
ghost use Rattle.bl_wasm.specs.Linked.{IsLinked, type_of};

use crate::module::Code;
use crate::named::Exports;
use bl_base::{Label, List, Text, ValueType};
use std::marker::Model;

/// The type of a function; its values are integers (section 2.3.3).
#[derive(Debug, Drop)]
pub struct Signature {
    /// The types of its parameters, in order.
    pub params: List<ValueType>,
    /// The types of its results, in order.
    pub results: List<ValueType>,
}

/// A function with its body (section 4.2.6).
#[derive(Debug, Drop)]
pub struct Function {
    /// The number of its type.
    pub type_index: u32,
    /// The label of each parameter.
    pub labels: List<Label>,
    /// Whether each result is to stay public.
    pub demanded: List<bool>,
    /// Its other locals and its body. Indices of types, functions and globals in it are numbers of the tree.
    pub code: Code,
    /// The number of the memory that its items use, where its module has one.
    pub memory: Option<u32>,
    /// The number of the table that its items use, where its module has one.
    pub table: Option<u32>,
}

/// A global (section 4.2.9).
#[derive(Debug, Drop)]
pub struct Global {
    /// The type of its value.
    pub kind: ValueType,
    /// Whether it can be set.
    pub mutable: bool,
    /// Its initial value; one of an i32 is below 2^32.
    pub initial: u64,
    /// Who may learn its initial value.
    pub label: Label,
    /// Whether its value is to stay public.
    pub demanded: bool,
}

/// A memory (section 4.2.8).
#[derive(Debug, Drop)]
pub struct Memory {
    /// Its first size, in pages of 65,536 bytes.
    pub pages: u32,
    /// The most pages that it grows to.
    pub reserve: u32,
    /// Who may learn its contents.
    pub label: Label,
    /// Its first contents: exactly the bytes of its first pages, with the data segments written.
    pub bytes: Text,
}

/// What linking makes of modules. By itself it says nothing of its parts; `Linked` does.
#[derive(Drop)]
pub struct Tree {
    /// The types of functions, by their numbers.
    pub types: List<Signature>,
    /// The functions, by their numbers.
    pub functions: List<Function>,
    /// The globals, by their numbers.
    pub globals: List<Global>,
    /// The memories, by their numbers.
    pub memories: List<Memory>,
    /// The tables, by their numbers: for each slot the number of its function, or None where it is empty (section 4.2.7).
    pub tables: List<List<Option<u32>>>,
    /// The exported functions.
    pub exports: Exports,
}

/// A tree that can be run: each body has a typing, what its parts name exists, and its sizes are within bounds (`IsLinked`).
#[derive(Drop)]
pub struct Linked {
    tree: Tree,
}

impl Model for Linked {
    ghost use Rattle.bl_wasm.specs.declared.linked.Tree.{Tree};

    ghost Value = { Tree };

    ghost use Rattle.bl_wasm.specs.Linked.{IsLinked};

    ghost view = { λ l. l.tree };

    ghost invariant = { λ l. IsLinked l.tree };
}

impl Tree {
    /// The type of the function of that number, where it has one; takes no memory.
    pub fn type_of(&self, function: u32) -> Option<&Signature>
        ensures { option_copied result ≡ type_of self.now function }
    {
        match self.functions.as_slice().get(function as usize) {
            Some(function) => self.types.as_slice().get(function.type_index as usize),
            None => None,
        }
    }
}

impl Linked {
    /// The tree as one that can be run; takes no memory.
    pub fn of(tree: Tree) -> Linked
        requires { IsLinked tree }
        ensures { result ≡ tree }
    {
        Linked { tree }
    }

    /// The tree, and that it keeps the facts of linked trees; takes no memory.
    pub fn tree(&self) -> &Tree
        ensures same { result.now ≡ self.now }
        ensures facts { IsLinked self.now }
    {
        &self.tree
    }

    /// The exports alone; takes no memory.
    pub fn into_exports(self) -> Exports
        ensures { result ≡ self.exports }
    {
        self.tree.exports
    }
}
