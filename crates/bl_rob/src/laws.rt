//! Laws of the buffer machine. Each function is its contract alone.
ghost use Rattle.std.specs.Prelude.{◌≡◌, ◌↔◌, ℕ, List, Option as Optional};
ghost use Rattle.bl_base.specs.declared.start.Start.{Start};
ghost use Rattle.bl_program.specs.{Outcomes.opening as plain_opening, Steps.Registers as Held, declared.definitions.ProgramParts.ProgramParts};
ghost use Rattle.bl_rob.specs.{LastWriters.Sees, Machines.visible, Observations.IsConsistent, Observations.reached};
ghost use Rattle.bl_rob.specs.{declared.directive.Directive.Directive, declared.entry.Entry.Entry, declared.entry.Register.Register};

/// Consistency: whatever the directives, where r entries were retired, registers and memories are those of the plain run after
/// r commands; and a machine that has ended has the plain run's outcome after exactly so many commands.
pub fn consistency()
    ensures { (most : ℕ) (program : ProgramParts) (function : ℕ) (start : Start) (directives : List Directive)
        → IsConsistent program (plain_opening program function start) (reached most program function start directives) }
{}

/// What is visible of a register behind entries: the value of the last of them that writes it, where that one is done, and none
/// where it isn't; the register's own value where none of them writes it.
pub fn what_is_visible()
    ensures { (registers : Held) (entries : List Entry) (x : Register) (answer : Optional ℕ)
        → visible registers entries x ≡ answer ↔ Sees registers entries x answer }
{}
