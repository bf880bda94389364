//! Types (WebAssembly 1.0, section 2.3).
ghost use Rattle.std.specs.Prelude.{◌↔◌, IsTrue};
ghost use Rattle.bl_wasm.specs.Validity.{HasIntegerType, IsInteger};

use bl_base::List;

/// A value type (section 2.3.1). The tree names floats too, so that it can hold every module of the grammar.
#[derive(Clone, Copy, Debug, PartialEq, Eq)]
pub enum WasmType {
    /// 32 bits.
    I32,
    /// 64 bits.
    I64,
    /// A float of 32 bits.
    F32,
    /// A float of 64 bits.
    F64,
}

impl WasmType {
    /// Whether the type is one of integers.
    pub fn is_integer(self) -> bool
        ensures { IsTrue result ↔ IsInteger self }
    {
        matches!(self, WasmType::I32 | WasmType::I64)
    }
}

/// The type of a block, a loop or an if (section 5.3.2; version 2.0, section 5.4.1): nothing, one result, or a type of the
/// module by its index.
#[derive(Clone, Copy, Debug, PartialEq, Eq)]
pub enum BlockType {
    /// Nothing is taken and nothing is left.
    Empty,
    /// One result.
    Value(WasmType),
    /// The parameters and results of that type.
    Index(u32),
}

impl BlockType {
    /// Whether the type is one of integers, where it is one value type.
    pub fn is_integer(self) -> bool
        ensures { IsTrue result ↔ HasIntegerType self }
    {
        match self {
            BlockType::Value(kind) => kind.is_integer(),
            BlockType::Empty | BlockType::Index(_) => true,
        }
    }
}

/// The type of a function (section 2.3.3).
#[derive(Debug, Drop)]
pub struct FuncType {
    /// The types of its parameters, in order.
    pub params: List<WasmType>,
    /// The types of its results, in order.
    pub results: List<WasmType>,
}

/// The limits of a memory, in pages of 65,536 bytes (sections 2.3.4 and 2.3.5), or of a table of functions, in slots
/// (section 2.3.6). A minimum above the maximum is in the tree too.
#[derive(Clone, Copy, Debug, PartialEq, Eq)]
pub struct Limits {
    /// The size at the start.
    pub min: u32,
    /// The greatest size, where there is one.
    pub max: Option<u32>,
}

/// The type of a global (section 2.3.7).
#[derive(Clone, Copy, Debug, PartialEq, Eq)]
pub struct GlobalType {
    /// The type of its value.
    pub kind: WasmType,
    /// Whether it can be set.
    pub mutable: bool,
}
