//! Rule 4 of certificates: no more flows through a site than its weight.
ghost use Rattle.std.specs.Prelude.{◌≡◌, ◌↔◌, ◌<◌, ◌^◌, ℕ, IsTrue, Some, length};
ghost use Rattle.bl_program.specs.Sites.{site_weight};
ghost use Rattle.bl_witness.specs.LookupAnswers.{JudgesLoads};

use bl_base::Pos;
use bl_program::{WellFormed, mark_at, site_weight};

/// The first site with more flow than its weight.
pub(crate) fn overloaded(program: &WellFormed, loads: &[u64]) -> Option<u64>
    requires { length loads.now < 2 ^ 32 }
    ensures { JudgesLoads program.now loads.now result }
{
    for at in 0..loads.len() {
        if is_overloaded(program, at, loads[at]) {
            return Some(at as u64);
        }
    }
    None
}

/// Whether a site stands at a position whose weight is less than a flow.
fn is_overloaded(program: &WellFormed, at: usize, flow: u64) -> bool
    requires { at < 2 ^ 32 }
    ensures { IsTrue result ↔ ((w : ℕ) × (site_weight program.now at ≡ Some w) × (w < flow)) }
{
    mark_at(program.program().parts(), at).is_some() && site_weight(program, Pos(at as u32)) < flow
}
