//! How much flows on the paths of a certificate: through each position, and in all.
ghost use Rattle.std.specs.Prelude.{◌≡◌, ◌+◌, ◌*◌, ◌-◌, ◌<◌, ◌^◌, ℕ, IfOk, count_by, length, map, min, nat_eq, slice_index};
ghost use Rattle.bl_graph.specs.Certificates.{flow_of, flow_through};

use crate::certificate::FlowPath;
use bl_base::{NoMemory, Pos};
use std::alloc::Global;

/// How much flows through each of so many positions, at most 2^64 - 1. A site counts as often as it stands on a path. Linear in the
/// positions and the paths. Want of memory is the only error.
pub fn flows_through(alloc: Global, count: usize, paths: &[FlowPath]) -> Result<Vec<u64>, NoMemory>
    ensures places { IfOk result (λ flows. length flows.items ≡ count) }
    ensures flow { IfOk result (λ flows. (s : ℕ) → s < count → slice_index flows.items s ≡ min (flow_through paths.now s) (2 ^ 64 - 1)) }
{
    let mut flows = vec![in alloc; 0u64; count]?;
    for path in paths {
        add_path(&mut flows, path.sites.as_slice(), path.amount);
    }
    Ok(flows)
}

/// Adds an amount at each place of a path.
fn add_path(flows: &mut [u64], sites: &[Pos], amount: u64)
    ensures { (s : ℕ) → s < length flows.old
        → slice_index flows.new s ≡ min (slice_index flows.old s + amount * count_by (λ t. nat_eq t s) (map (λ t. t.0) sites.now)) (2 ^ 64 - 1) }
{
    for site in sites {
        let at = site.0 as usize;
        if at < flows.len() {
            flows[at] = flows[at].saturating_add(amount);
        }
    }
}

/// How much flows in all, at most 2^64 - 1. Takes no memory.
pub fn flow_sum(paths: &[FlowPath]) -> u64
    ensures { result ≡ min (flow_of paths.now) (2 ^ 64 - 1) }
{
    let mut sum: u64 = 0;
    for path in paths {
        sum = sum.saturating_add(path.amount);
    }
    sum
}
