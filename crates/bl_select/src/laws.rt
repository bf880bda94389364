//! Laws of templates. Each function is only its contract.
ghost use Rattle.std.specs.Prelude.{◌≡◌, ◌+◌, ◌%◌, ◌^◌, ◌≤◌, ◌==◌, ◌*◌, ◌++◌, ◌∷◌, [], ℕ, Bool, true, false, List, Some, length, suc};
ghost use Rattle.bl_base.specs.Runs.{StepsTo};
ghost use Rattle.bl_base.specs.declared.number.{Pos.Pos, Var.Var};
ghost use Rattle.bl_ops.specs.{Access.is_load, OperatorTable.is_division, declared.access.AccessKind.AccessKind, declared.op.Op.Op};
ghost use Rattle.bl_program.specs.{Layout.base, Layout.command_at, Steps.Plain, Steps.Registers, Steps.held, Steps.value_of, Steps.written, declared.command.Mark.Mark, declared.command.Operand.Operand};
ghost use Rattle.bl_program.specs.declared.command.Command.TheVariants as command;
ghost use Rattle.bl_program.specs.declared.definitions.ProgramParts.{ProgramParts as Program};
ghost use Rattle.bl_x64.specs.{Machines.Areas, Machines.Core, Programs.machine_step, declared.instruction.Instruction.Instruction};
ghost use Rattle.bl_x64.specs.declared.instruction.Instruction.TheVariants.{Lfence};
ghost use Rattle.bl_select.specs.{Frames.Assigns, Frames.Frame, Frames.IsFrame, Frames.IsPlacing, Frames.Matches, Frames.IsSource, Frames.KeepsFrames, Frames.Passes, Frames.Placing, Frames.source_of};
ghost use Rattle.bl_select.specs.{Shapes.shape_of, Silence.Ends, Silence.IsWritable, Silence.SameBases, Silence.most_of};
ghost use Rattle.bl_select.specs.OpenFrames.{AreOpen, OpenFrame};
ghost use Rattle.bl_select.specs.{Selection.LiesWithin, Selection.RunsChosen, Selection.RunsSelected, Selection.Selection, Simulation.at};
ghost use Rattle.bl_seq.specs.OwnMemory.{IsReached};
ghost use Rattle.bl_program.specs.declared.command.Command.{Command};
ghost use Rattle.bl_select.specs.{Simulation.Branches, Simulation.Follows, Simulation.IsStage, Simulation.IsWithin, StraightRuns.Stands, StraightRuns.runs, StraightRuns.shows};
ghost use Rattle.bl_select.specs.Templates.{jump_template, load_template, set_template, store_template, test_template, value, write};
ghost use Rattle.bl_select.specs.declared.{location.Location.Location, location.Source.Source};

/// Sets: from a state that matches the plain run at a Set, by any of the 69 operators, the machine runs through the template and matches the next
/// state of the plain run.
#[tactic(auto, using(crate::proofs::Follows::set_follows))]
pub fn sets_follow()
    ensures { (program : Program) (f : Frame) (p : Placing) (s : Plain) (c : Core) (code : List Instruction) (position : ℕ)
        → (q : Placing) (mark : Mark) (op : Op) (x : Var) (a b e : Operand) → IsStage program f p s c → IsPlacing f q → Assigns p q x.0
        → IsSource p a → IsSource p b → IsSource p e → command_at program s.position ≡ Some (command.Set mark op x a b e)
        → Stands code position (set_template mark.protect op (q.location x.0) (source_of p a) (source_of p b) (source_of p e))
        → Follows program f q s code position (set_template mark.protect op (q.location x.0) (source_of p a) (source_of p b) (source_of p e)) c }
{}

/// Loads: the same for a Load of each kind, if its bytes lie in the space of all memories.
#[tactic(auto, using(crate::proofs::Follows::load_follows))]
pub fn loads_follow()
    ensures { (program : Program) (f : Frame) (p : Placing) (s : Plain) (c : Core) (code : List Instruction) (position : ℕ)
        → (q : Placing) (mark : Mark) (kind : AccessKind) (memory : ℕ) (x : Var) (offset : ℕ) (a : Operand) → IsStage program f p s c → IsPlacing f q
        → Assigns p q x.0 → is_load kind ≡ true → IsSource p a → IsWithin program s kind memory offset a
        → command_at program s.position ≡ Some (command.Load mark kind memory x offset a)
        → Stands code position (load_template mark.protect kind (q.location x.0) (base program memory + offset) (source_of p a))
        → Follows program f q s code position (load_template mark.protect kind (q.location x.0) (base program memory + offset) (source_of p a)) c }
{}

/// Stores: the same for a Store of each kind, if its bytes lie in this space.
#[tactic(auto, using(crate::proofs::Follows::store_follows))]
pub fn stores_follow()
    ensures { (program : Program) (f : Frame) (p : Placing) (s : Plain) (c : Core) (code : List Instruction) (position : ℕ)
        → (q : Placing) (kind : AccessKind) (memory offset : ℕ) (a b : Operand) → IsStage program f p s c → Passes p q → is_load kind ≡ false
        → IsSource p a → IsSource p b → IsWithin program s kind memory offset a → command_at program s.position ≡ Some (command.Store kind memory offset a b)
        → Stands code position (store_template kind (base program memory + offset) (source_of p a) (source_of p b))
        → Follows program f q s code position (store_template kind (base program memory + offset) (source_of p a) (source_of p b)) c }
{}

/// Tests: from a state that matches the plain run at a Test, the machine reaches the instructions of the plain run's next command, and matches.
#[tactic(auto, using(crate::proofs::Follows::test_follows))]
pub fn tests_follow()
    ensures { (program : Program) (f : Frame) (p : Placing) (s : Plain) (c : Core) (code : List Instruction) (position : ℕ)
        → (placing : ℕ → Placing) (begins : ℕ → ℕ) (a : Operand) (one other : Pos) → IsStage program f p s c → IsSource p a
        → Passes p (placing one.0) → Passes p (placing other.0) → command_at program s.position ≡ Some (command.Test a one other)
        → Stands code position (test_template (source_of p a) (begins one.0) (begins other.0)) → Branches program f placing begins s code position c }
{}

/// Jumps: the same for a Jump.
#[tactic(auto, using(crate::proofs::Follows::jump_follows))]
pub fn jumps_follow()
    ensures { (program : Program) (f : Frame) (p : Placing) (s : Plain) (c : Core) (code : List Instruction) (position : ℕ)
        → (placing : ℕ → Placing) (begins : ℕ → ℕ) (target : Pos) → IsStage program f p s c → Passes p (placing target.0)
        → command_at program s.position ≡ Some (command.Jump target) → Stands code position (jump_template (begins target.0))
        → Branches program f placing begins s code position c }
{}

/// Silence: the template of a Set by an operator that does not divide shows the same from any two states with the same RSP and R15. So no value
/// reaches an address, a branch or a division. Nothing is asked of the values, so this holds for the values of wrong guesses too.
#[tactic(auto, using(crate::proofs::Silence::set_shows))]
pub fn sets_are_silent()
    ensures { (protect : Bool) (op : Op) (to : Location) (a b e : Source) → is_division op ≡ false → IsWritable to → (areas : Areas) (c d : Core) → SameBases c d
        → Ends (runs areas (set_template protect op to a b e) c) → Ends (runs areas (set_template protect op to a b e) d)
        → shows areas (set_template protect op to a b e) c ≡ shows areas (set_template protect op to a b e) d }
{}

/// Divisions: the template of a Set by an operator that divides shows the same from two states whose plain runs have the same operands for it.
#[tactic(auto, using(crate::proofs::Shown::division_shows))]
pub fn divisions_show_operands()
    ensures { (program : Program) (f : Frame) (p : Placing) (s t : Plain) (c d : Core) → IsStage program f p s c → IsStage program f p t d
        → (a b : Operand) → IsSource p a → IsSource p b → value_of program a s ≡ value_of program a t → value_of program b s ≡ value_of program b t
        → (op : Op) (e : Source) (protect : Bool) (to : Location) → is_division op ≡ true → IsWritable to
        → Ends (runs f.areas (set_template protect op to (source_of p a) (source_of p b) e) c)
        → Ends (runs f.areas (set_template protect op to (source_of p a) (source_of p b) e) d)
        → shows f.areas (set_template protect op to (source_of p a) (source_of p b) e) c
        ≡ shows f.areas (set_template protect op to (source_of p a) (source_of p b) e) d }
{}

/// Addresses of loads: the template of a Load shows the same from two states whose plain runs have the same address for it.
pub fn loads_show_addresses()
    ensures { (program : Program) (f : Frame) (p : Placing) (s t : Plain) (c d : Core) → IsStage program f p s c → IsStage program f p t d
        → (a : Operand) → IsSource p a → (memory offset : ℕ) (kind : AccessKind) → value_of program a s % 2 ^ 32 ≡ value_of program a t % 2 ^ 32
        → IsWithin program s kind memory offset a → IsWithin program t kind memory offset a → (protect : Bool) (to : Location) → is_load kind ≡ true → IsWritable to
        → Ends (runs f.areas (load_template protect kind to (base program memory + offset) (source_of p a)) c)
        → Ends (runs f.areas (load_template protect kind to (base program memory + offset) (source_of p a)) d)
        → shows f.areas (load_template protect kind to (base program memory + offset) (source_of p a)) c
        ≡ shows f.areas (load_template protect kind to (base program memory + offset) (source_of p a)) d }
{}

/// Addresses of stores: the same for a Store, whatever value it writes.
pub fn stores_show_addresses()
    ensures { (program : Program) (f : Frame) (p : Placing) (s t : Plain) (c d : Core) → IsStage program f p s c → IsStage program f p t d
        → (a : Operand) → IsSource p a → (memory offset : ℕ) (kind : AccessKind) → value_of program a s % 2 ^ 32 ≡ value_of program a t % 2 ^ 32
        → IsWithin program s kind memory offset a → IsWithin program t kind memory offset a → (b : Operand) → is_load kind ≡ false → IsSource p b
        → Ends (runs f.areas (store_template kind (base program memory + offset) (source_of p a) (source_of p b)) c)
        → Ends (runs f.areas (store_template kind (base program memory + offset) (source_of p a) (source_of p b)) d)
        → shows f.areas (store_template kind (base program memory + offset) (source_of p a) (source_of p b)) c
        ≡ shows f.areas (store_template kind (base program memory + offset) (source_of p a) (source_of p b)) d }
{}

/// Directions of tests: the template of a Test shows the same from two states whose plain runs go to the same target, up to and including the
/// branch.
pub fn tests_show_ways()
    ensures { (program : Program) (f : Frame) (p : Placing) (s t : Plain) (c d : Core) → IsStage program f p s c → IsStage program f p t d
        → (a : Operand) → IsSource p a → (yes_at no_at : ℕ) → (value_of program a s % 2 ^ 32 == 0) ≡ (value_of program a t % 2 ^ 32 == 0)
        → shows f.areas (test_template (source_of p a) yes_at no_at) c ≡ shows f.areas (test_template (source_of p a) yes_at no_at) d }
{}

/// Lengths: the template of a Set has at most 7 instructions, that of the bounds test 13, that of an unsigned division 12, and that of a signed
/// division 21.
#[tactic(auto, using(crate::proofs::Silence::set_short))]
pub fn sets_are_short()
    ensures { (protect : Bool) (op : Op) (to : Location) (a b c : Source) → length (set_template protect op to a b c) ≤ most_of (shape_of op) }
{}

/// Fences: the template of a protected Set or a protected Load ends with the write of its variable and an LFENCE right after it.
pub fn protects_are_fenced()
    ensures sets { (op : Op) (to : Location) (a b c : Source)
        → set_template true op to a b c ≡ value (shape_of op) a b c ++ write to ∷ Lfence ∷ [] }
    ensures loads { (kind : AccessKind) (to : Location) (offset : ℕ) (a : Source) → (front : List Instruction) × (load_template true kind to offset a ≡ front ++ write to ∷ Lfence ∷ []) }
{}

/// Runs: a plain run of n steps along selected commands is a run of the instructions of n to 21 n steps, and the states at the end match. Calls are
/// not among these commands.
pub fn runs_follow()
    ensures { (program : Program) (e : Selection) (code : List Instruction) → IsFrame e.frame → ((position : ℕ) → IsPlacing e.frame (e.placing position))
        → (n : ℕ) (s t : Plain) (c : Core) → Matches program e.frame (e.placing s.position) s c → RunsSelected program e code n s t
        → (m : ℕ) × (d : Core) × (n ≤ m) × (m ≤ 21 * n) × StepsTo (machine_step e.frame.areas code) m (at (e.begins s.position) c) (at (e.begins t.position) d)
        × Matches program e.frame (e.placing t.position) t d }
{}

/// Accesses: each access that a run of a well-formed program reaches lies in the space of all memories, as `loads_follow` and `stores_follow` ask.
#[tactic(auto, using(crate::proofs::Within::lies_within))]
pub fn accesses_lie_within()
    ensures { (program : Program) (s : Plain) → IsReached program s → (found : Command) → command_at program s.position ≡ Some found
        → LiesWithin program s found }
{}

/// Runs of well-formed programs: the same as `runs_follow`, without a premise on accesses, if the run begins at a state that a run of a well-formed
/// program reaches.
pub fn reached_runs_follow()
    ensures { (program : Program) (e : Selection) (code : List Instruction) → IsFrame e.frame → ((position : ℕ) → IsPlacing e.frame (e.placing position))
        → (n : ℕ) (s t : Plain) (c : Core) → IsReached program s → Matches program e.frame (e.placing s.position) s c → RunsChosen program e code n s t
        → (m : ℕ) × (d : Core) × (n ≤ m) × (m ≤ 21 * n) × StepsTo (machine_step e.frame.areas code) m (at (e.begins s.position) c) (at (e.begins t.position) d)
        × Matches program e.frame (e.placing t.position) t d }
{}

/// Open frames: after a template of the running frame, the frames of open calls still hold what the plain run's registers hold at their depths,
/// whether the command wrote a variable of the running frame (`writes`) or not (`stays`).
pub fn open_frames_stay()
    ensures writes { (program : Program) (f : Frame) (frames : List OpenFrame) (chain : List ℕ) (registers : Registers) (x v : ℕ) (c d : Core) → KeepsFrames f c d
        → AreOpen program f.areas frames chain registers c.memory (f.base + f.size)
        → AreOpen program f.areas frames chain (written registers (held program (suc (length chain)) x) x v) d.memory (f.base + f.size) }
    ensures stays { (program : Program) (f : Frame) (frames : List OpenFrame) (chain : List ℕ) (registers : Registers) (c d : Core) → KeepsFrames f c d
        → AreOpen program f.areas frames chain registers c.memory (f.base + f.size) → AreOpen program f.areas frames chain registers d.memory (f.base + f.size) }
{}
