//! Interfaces.
use bl_base::{Flow, List, Text};

/// What is agreed of functions that one program calls and another one has.
#[derive(Debug, Drop)]
pub struct Iface {
    /// The functions. Where several names stand for one function of a client, the first one tells where its calls go.
    pub functions: List<FnIface>,
}

/// What is agreed of a function.
#[derive(Debug, Drop)]
pub struct FnIface {
    /// The name of an export, as `lib/f`; any bytes.
    pub name: Text,
    /// The flow of each parameter.
    pub params: List<Flow>,
    /// The flow of each result.
    pub results: List<Flow>,
}
