//! Two runs of a function on the same directives, each from its own start.
ghost use Rattle.std.specs.Prelude.{◌≡◌, ◌≤◌, IfOk};
ghost use Rattle.bl_program.specs.Outcomes.{IsStart};
ghost use Rattle.bl_rob.specs.{CallResults.seen_in, Machines.opening, Observations.observed_by};
ghost use Rattle.bl_twin.specs.Runs.{IsSideBySide, IsSideBySideBy};

use crate::agreement::agree;
use crate::sight::Sight;
use crate::text::{Compared, compare};
use bl_base::{NoMemory, Start};
use bl_program::WellFormed;
use bl_rob::{Directive, Loads, Observation, Observed, Plain, Rob};
use std::alloc::Global;

/// Takes directives on a function from each of two starts, where the buffer has room for 64 entries, and compares what is observed, behind
/// whether the starts agree in public. Linear in the program, the starts, the program's memories and the directives.
pub fn compare_runs(
    alloc: Global,
    program: &WellFormed,
    function: u32,
    one: &Start,
    other: &Start,
    directives: &[Directive],
) -> Result<Compared, NoMemory>
    requires one { IsStart program.now function one.now }
    requires other { IsStart program.now function other.now }
    ensures { IfOk result (IsSideBySide program.now function one.now other.now directives.now) }
{
    compare_by::<64, Observation, Plain>(alloc, program, function, one, other, directives)
}

/// The same with a buffer of at most W entries and a kind of speculation; W is from 1 to 64.
pub fn compare_by<const W: usize, O: Sight, P: Loads<Sight = O>>(
    alloc: Global,
    program: &WellFormed,
    function: u32,
    one: &Start,
    other: &Start,
    directives: &[Directive],
) -> Result<Compared, NoMemory>
    requires room { (1 ≤ W) × (W ≤ 64) }
    requires one { IsStart program.now function one.now }
    requires other { IsStart program.now function other.now }
    ensures { IfOk result (IsSideBySideBy O.alike O.line (P.rules W) program.now function one.now other.now directives.now) }
{
    let agree = agree(alloc, program, function, one, other)?;
    let first = seen_from::<W, P>(alloc, program, function, one, directives)?;
    let second = seen_from::<W, P>(alloc, program, function, other, directives)?;
    compare(alloc, agree, &first, &second)
}

/// What is observed of directives on a function from a start.
fn seen_from<const W: usize, P: Loads>(
    alloc: Global,
    program: &WellFormed,
    function: u32,
    start: &Start,
    directives: &[Directive],
) -> Result<Observed<P::Sight>, NoMemory>
    requires room { (1 ≤ W) × (W ≤ 64) }
    requires start { IsStart program.now function start.now }
    ensures { IfOk result (λ seen. seen_in seen ≡ observed_by (P.rules W program.now) 1 directives.now (opening program.now function start.now)) }
{
    let mut rob: Rob<'_, W, P> = Rob::begin(alloc, program, function, start)?;
    let seen = rob.observe(alloc, directives)?;
    Ok(seen)
}
