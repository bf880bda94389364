//! Variables that a function writes before its first branch.
ghost use Rattle.std.specs.Prelude.{◌≡◌, ◌↔◌, IfOk, IsTrue, false, if◌then◌else◌, replicate, true};
ghost use Rattle.bl_program.specs.Layout.{first_of};
ghost use Rattle.bl_program.specs.Rules.{Leaves};
ghost use Rattle.bl_definite.specs.Search.{IsFlagged, IsPlace, flagged, with_flag};

use crate::facts::leaves;
use crate::place::Place;
use bl_base::NoMemory;
use bl_program::Command;
use std::alloc::Global;

/// So many flags that aren't set.
pub(crate) fn no_flags(alloc: Global, count: usize) -> Result<Vec<bool>, NoMemory>
    ensures { IfOk result (λ flags. flags.items ≡ replicate count false) }
{
    let mut flags = Vec::new(alloc);
    for done in 0..count {
        flags.push(false)?;
    }
    Ok(flags)
}

/// Whether the flag of the variable is set.
pub(crate) fn is_early(place: &Place, early: &[bool], x: u32) -> bool
    requires { IsPlace place.now }
    ensures { IsTrue result ↔ IsFlagged (first_of place.now.parts.now place.now.function) early.now x }
{
    let first = place.first();
    first <= x && early.get((x - first) as usize) == Some(&true)
}

/// Sets the flag of the variable that the command writes, if there is one.
fn note_early(place: &Place, early: &mut [bool], command: Command)
    requires { IsPlace place.now }
    ensures { early.new ≡ with_flag (first_of place.now.parts.now place.now.function) early.old command }
{
    match command {
        Command::Set { to, .. } | Command::Load { to, .. } => set_flag(place, early, to.0),
        _ => {}
    }
}

/// The same unless a command before branched, and whether none did up to this one.
pub(crate) fn note_straight(
    place: &Place,
    early: &mut [bool],
    command: Command,
    straight: bool,
) -> bool
    requires { IsPlace place.now }
    ensures flags { early.new ≡ (if straight then with_flag (first_of place.now.parts.now place.now.function) early.old command else early.old) }
    ensures before { result ≡ true → straight ≡ true }
    ensures here { result ≡ true → Leaves command → ⊥ }
{
    if straight {
        note_early(place, early, command);
        return !leaves(command);
    }
    false
}

/// Sets the flag of the variable, if there is one.
fn set_flag(place: &Place, early: &mut [bool], x: u32)
    requires { IsPlace place.now }
    ensures { early.new ≡ flagged (first_of place.now.parts.now place.now.function) early.old x }
{
    let first = place.first();
    if first <= x {
        let index = (x - first) as usize;
        if index < early.len() {
            early[index] = true;
        }
    }
}
