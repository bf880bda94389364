//! Laws of the plain runs of well-formed programs. Each function is its contract alone.
ghost use Rattle.std.specs.Prelude.{◌≡◌, IfSome, Some};
ghost use Rattle.bl_base.specs.Runs.{HasStep};
ghost use Rattle.bl_program.specs.{Layout.command_at, Rules.reach_of, Steps.Plain, Steps.plain_step, declared.command.Command.Command};
ghost use Rattle.bl_program.specs.declared.definitions.ProgramParts.{ProgramParts};
ghost use Rattle.bl_seq.specs.OwnMemory.{IsReached, IsInside, HasSizes};

/// Own memory: where a run comes to a Load or a Store, the bytes that it reads or writes lie in the pages that its memory
/// has, and so among the bytes of its memory's reserve.
pub fn own_memory()
    ensures { (program : ProgramParts) (s : Plain) → IsReached program s
        → (command : Command) → command_at program s.position ≡ Some command → IfSome (reach_of command) (IsInside program s) }
{}

/// Sizes: in each state that a run comes to, no memory has more pages than its reserve.
pub fn sizes()
    ensures { (program : ProgramParts) (s : Plain) → IsReached program s → HasSizes program s.registers }
{}

/// Progress: each state that a run comes to has a step.
pub fn progress()
    ensures { (program : ProgramParts) (s : Plain) → IsReached program s → HasStep (plain_step program s) }
{}
