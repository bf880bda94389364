//! Where a part stands in the joined program.
ghost use Rattle.std.specs.Prelude.{◌≡◌};
ghost use Rattle.bl_iface.specs.{JoinedProgram.moved_position, JoinedProgram.moved_var, MovableNumbers.IsNear, MovableNumbers.IsSmall};

use bl_base::Pos;
use bl_program::{FIRST_ENTRY, ProgramParts};

/// What is added to the numbers of a part: to those of its globals, sizes, functions' variables, memories, functions and commands.
#[derive(Clone, Copy, Debug)]
pub(crate) struct Shift {
    /// To those of globals.
    pub(crate) globals: u32,
    /// To those of sizes.
    pub(crate) sizes: u32,
    /// To those of functions' variables.
    pub(crate) vars: u32,
    /// To those of memories.
    pub(crate) memories: u32,
    /// To those of functions.
    pub(crate) functions: u32,
    /// To positions of functions' commands.
    pub(crate) commands: u32,
}

/// The variable where its part stands.
pub(crate) fn moved_var(shift: Shift, part: &ProgramParts, x: u32) -> u32
    requires { IsSmall shift x }
    ensures { result ≡ moved_var shift part.now x }
{
    let place = x as usize;
    let globals = part.globals.len();
    if place < globals {
        x + shift.globals
    } else if place - globals < part.memories.len() {
        x + shift.sizes
    } else {
        x + shift.vars
    }
}

/// The position where its part stands.
pub(crate) fn moved_position(shift: Shift, at: Pos) -> Pos
    requires { IsNear shift at.0 }
    ensures { result.0 ≡ moved_position shift at.0 }
{
    if at.0 < FIRST_ENTRY {
        at
    } else {
        Pos(at.0 + shift.commands)
    }
}
