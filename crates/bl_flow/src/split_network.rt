//! The split network of a network, as a search holds it.
ghost use Rattle.std.specs.Prelude.{◌≡◌, ◌<◌, ◌^◌, ℕ, length, slice_get};
ghost use Rattle.bl_flow.specs.{Searches.part_row, SplitNetworks.rows_in};

use crate::rows::Rows;
use crate::split::Links;

/// The split network of a network. The network itself can go.
#[derive(Debug, Drop)]
pub struct SplitNetwork {
    /// The number of the network's nodes.
    pub nodes: usize,
    /// The links both ways.
    pub links: Links,
    /// The links from each part.
    pub rows: Rows,
}

impl SplitNetwork {
    /// The link to a part that is the reverse of the one at a place of its row.
    pub fn link_to(&self, part: usize, place: usize) -> Option<usize>
        requires { part < length self.now.rows }
        ensures link { result ≡ slice_get (part_row (rows_in self.now) part) place }
        ensures small { (p : ℕ) → length (part_row (rows_in self.now) p) < 2 ^ 32 }
    {
        self.rows.link_to(self.links.half(), part, place)
    }
}
