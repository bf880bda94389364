//! The protects of a program.
ghost use Rattle.std.specs.Prelude.{◌≡◌, ◌<◌, ◌^◌, if◌then◌else◌, min, unwrap_or};
ghost use Rattle.bl_program.specs.Sites.{is_protected, site_weight, weight_of};

use bl_base::Pos;
use bl_program::{WellFormed, site_weight};
use bl_transient::is_protected;

/// The sum of the weights of the program's protected sites.
pub(crate) fn protect_weight(program: &WellFormed) -> u64
    ensures { result ≡ weight_of program.now (is_protected program.now) }
{
    let parts = program.program().parts();
    let mut total: u64 = 0;
    for at in 0..parts.commands.len() {
        total += weight_within(program, at);
    }
    total
}

/// The weight of the site at a position, where it is protected; else 0.
fn weight_within(program: &WellFormed, at: usize) -> u64
    requires { at < 2 ^ 32 }
    ensures { result ≡ min (if is_protected program.now at then unwrap_or (site_weight program.now at) 0 else 0) (2 ^ 63) }
{
    if is_protected(program.program().parts(), at) {
        site_weight(program, Pos(at as u32))
    } else {
        0
    }
}
