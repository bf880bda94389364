//! Certificates of flow.
use bl_base::{List, Pos};

/// A chain of sites from a load to a sink, with an amount of flow.
#[derive(Debug, Drop)]
pub struct FlowPath {
    /// The sites in order; the first one is a Load.
    pub sites: List<Pos>,
    /// The position of the sink.
    pub sink: Pos,
    /// How much flows.
    pub amount: u64,
}

/// A flow from loads to sinks. Where it keeps the rules (`Certifies`), no set of sites of less weight passes than the one that
/// is protected.
#[derive(Debug, Drop)]
pub struct Certificate {
    /// The chains that it takes.
    pub paths: List<FlowPath>,
    /// How much flows on all of them.
    pub weight: u64,
}
