//! Two runs of a function on the same directives, each from its own start.
ghost use Rattle.std.specs.Prelude.{IfOk};
ghost use Rattle.bl_program.specs.Outcomes.{IsStart};
ghost use Rattle.bl_forward.specs.SightTexts.{AreForwardedSideBySide};

use crate::load::Forward;
use crate::seen::Seen;
use bl_base::{NoMemory, Start};
use bl_program::WellFormed;
use bl_rob::Directive;
use bl_twin::{Compared, compare_by};
use std::alloc::Global;

/// Takes directives on a function from each of two starts, where stores are forwarded and the buffer has room for 32 entries, and compares
/// what is observed, behind whether the starts agree in public. Linear in the program, the starts, the program's memories and the
/// directives.
pub fn compare_forwarding(
    alloc: Global,
    program: &WellFormed,
    function: u32,
    one: &Start,
    other: &Start,
    directives: &[Directive],
) -> Result<Compared, NoMemory>
    requires one { IsStart program.now function one.now }
    requires other { IsStart program.now function other.now }
    ensures { IfOk result (AreForwardedSideBySide program.now function one.now other.now directives.now) }
{
    compare_by::<32, Seen, Forward>(alloc, program, function, one, other, directives)
}
