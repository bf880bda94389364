//! What a line of a start file says.
use bl_base::Patch;

/// What a line says.
#[derive(Debug, Drop)]
pub enum Entry {
    /// The next argument.
    Argument(u64),
    /// Bytes that are written over a memory's first contents.
    Contents(Patch),
}
