//! Laws of plain runs. Each function is its contract alone.
ghost use Rattle.std.specs.Prelude.{◌≡◌, ℕ};
ghost use Rattle.bl_base.specs.{Runs.Outcome, declared.start.Start.Start};
ghost use Rattle.bl_program.specs.{Outcomes.plain, declared.definitions.ProgramParts.ProgramParts};

/// A run of a function from a start has one outcome and one number of commands.
pub fn one_outcome()
    ensures { (program : ProgramParts) (function : ℕ) (start : Start) (m n : ℕ) (one other : Outcome)
        → plain program function start m one → plain program function start n other → (m ≡ n) × (one ≡ other) }
{}
