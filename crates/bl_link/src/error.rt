//! Why parts aren't linked.
use bl_base::Quantity;
use thiserror::Error;

/// Why parts aren't linked. Parts are taken in order, each with its imports in order, then its element segments and then its
/// data segments; the limit comes last. The first cause in this order is the one that is given.
#[derive(Clone, Copy, Debug, PartialEq, Eq, Error)]
pub enum LinkError {
    /// No earlier part of the name that an import has exports anything of the name that it has.
    #[error("unknown import")]
    Unknown {
        /// The part, from 0.
        part: u32,
        /// The import, from 0.
        import: u32,
    },
    /// An earlier part exports what an import names, and its kind or type doesn't match.
    #[error("import does not match")]
    Mismatch {
        /// The part, from 0.
        part: u32,
        /// The import, from 0.
        import: u32,
    },
    /// An element segment of that part doesn't lie in its table.
    #[error("element segment out of range")]
    ElementRange(u32),
    /// A data segment of that part doesn't lie in the first bytes of its memory.
    #[error("data segment out of range")]
    DataRange(u32),
    /// The parts together are too large.
    #[error("too much of a quantity")]
    Limit {
        /// The quantity: the reserves of all memories together.
        which: Quantity,
        /// Its value.
        value: u64,
    },
    /// Memory ran out.
    #[error("out of memory")]
    Memory,
}
