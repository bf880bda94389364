//! Laws of programs that are laid out. Each function is only its contract.
ghost use Rattle.std.specs.Prelude.{◌≡◌, ◌*◌, ◌≤◌, ℕ, List, slice_index};
ghost use Rattle.bl_base.specs.Runs.{StepsTo};
ghost use Rattle.bl_program.specs.Steps.{Plain, plain_step};
ghost use Rattle.bl_program.specs.declared.definitions.ProgramParts.{ProgramParts as Program};
ghost use Rattle.bl_x64.specs.{Machines.Core, Programs.machine_step, declared.instruction.Instruction.Instruction};
ghost use Rattle.bl_select.specs.{Frames.Frame, Frames.IsFrame, Frames.IsPlacing, Frames.Matches, Selection.RunsChosen, Simulation.at};
ghost use Rattle.bl_seq.specs.OwnMemory.{IsReached};
ghost use Rattle.bl_layout.specs.Counting.{begun, counting, counting_code, counting_core, counting_frame, counting_starts};
ghost use Rattle.bl_layout.specs.{Layouts.IsLaidOut, Slots.HasRoom, Slots.placing_at, Slots.selection_of};

/// Choices: the choice of locations of a program that is laid out is one that the laws of bl_select ask for. In each frame with room for its variables,
/// the placing at each position is one (`placed`), and each plain run of the program goes along commands whose templates stand in the code (`chosen`).
pub fn choices_are_made()
    ensures placed { (program : Program) (frame : Frame) → HasRoom program frame → (position : ℕ) → IsPlacing frame (placing_at program position) }
    ensures chosen { (program : Program) (starts : List ℕ) (code : List Instruction) (frame : Frame) → IsLaidOut program starts code → (n : ℕ) (s t : Plain)
        → IsReached program s → StepsTo (plain_step program) n s t → RunsChosen program (selection_of program frame (slice_index starts)) code n s t }
{}

/// Runs: from a state that matches, the instructions of a program that is laid out run as its commands do: a plain run of n steps is a run of n to 21 n
/// instructions, and the states at the end match. The premises are on the frame, and no premise is on the run.
pub fn laid_out_runs_follow()
    ensures { (program : Program) (starts : List ℕ) (code : List Instruction) (frame : Frame) → IsLaidOut program starts code → IsFrame frame
        → HasRoom program frame → (n : ℕ) (s t : Plain) (c : Core) → IsReached program s → Matches program frame (placing_at program s.position) s c
        → StepsTo (plain_step program) n s t → (m : ℕ) × (d : Core) × (n ≤ m) × (m ≤ 21 * n)
        × StepsTo (machine_step frame.areas code) m (at (slice_index starts s.position) c) (at (slice_index starts t.position) d)
        × Matches program frame (placing_at program t.position) t d }
{}

/// A worked run: the premises of `laid_out_runs_follow` hold for a small program (specs/Counting.antt), which is laid out as its instructions, at the entry
/// of its function, with a frame and a state of the machine; and its plain run has steps.
pub fn counting_runs()
    ensures laid_out { IsLaidOut counting counting_starts counting_code }
    ensures frame { IsFrame counting_frame × HasRoom counting counting_frame }
    ensures reached { IsReached counting begun }
    ensures matches { Matches counting counting_frame (placing_at counting 7) begun counting_core }
    ensures runs { (t : Plain) × StepsTo (plain_step counting) 2 begun t }
{}
