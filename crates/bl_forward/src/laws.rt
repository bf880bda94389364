//! Laws of the machine that forwards stores. Each function is its contract alone.
ghost use Rattle.std.specs.Prelude.{◌≡◌, ◌↔◌, ◌≤◌, ℕ, List};
ghost use Rattle.bl_base.specs.declared.start.Start.{Start};
ghost use Rattle.bl_program.specs.Outcomes.{Agree, IsStart, opening as plain_opening};
ghost use Rattle.bl_program.specs.{Programs.IsProgram, Rules.IsWellFormed, Sites.is_protected, declared.definitions.ProgramParts.ProgramParts};
ghost use Rattle.bl_graph.specs.Labels.{ConstantTime};
ghost use Rattle.bl_rob.specs.{Machines.opening, Observations.IsConsistent, Observations.after_by, declared.directive.Directive.Directive};
ghost use Rattle.bl_rob.specs.declared.entry.Entry.{Entry};
ghost use Rattle.bl_sct.specs.OtherSecrets.{HidesGlobalsBy};
ghost use Rattle.bl_transient.specs.Transient.{Passes};
ghost use Rattle.bl_twin.specs.TwinComparisons.{comparison_by};
ghost use Rattle.bl_twin.specs.declared.comparison.Comparison.TheVariants as comparison_is;
ghost use Rattle.bl_forward.specs.ForwardMachines.{observed_forwarding, HasEqualForwarding, found_in, forward_step};
ghost use Rattle.bl_forward.specs.{LastStores.Finds, SightTexts.are_same, declared.find.Found.Found};

/// Where a load of so many bytes from a place on finds them behind entries: in memory, where no ready store among them meets its range; in
/// the last one that does, where that has the same range; else nowhere.
pub fn what_is_found()
    ensures { (program : ProgramParts) (from width : ℕ) (entries : List Entry) (found : Found)
        → found_in program from width entries ≡ found ↔ Finds program from width entries found }
{}

/// Consistency: whatever the directives, where r entries were retired, registers and memories are those of the plain run after
/// r commands; and a machine that has ended has the plain run's outcome after exactly so many commands. Past the space of all
/// memories the machine would forward what the plain run doesn't load; a well-formed program has no access there.
pub fn consistency()
    ensures { (program : ProgramParts) → IsProgram program → IsWellFormed program
        → (function : ℕ) (start : Start) → IsStart program function start → (most : ℕ) (directives : List Directive)
        → IsConsistent program (plain_opening program function start) (after_by (forward_step most program) directives (opening program function start)) }
{}

/// Equal observations: where a program has a labelling and its own marks pass the transient rules, two runs from starts that
/// agree in public are observed alike, whatever the directives and the size of the buffer; where both have ended, what is
/// demanded to be public is equal.
pub fn equal_observations()
    ensures { (program : ProgramParts) → IsProgram program → IsWellFormed program → ConstantTime program
        → Passes program (is_protected program) → HasEqualForwarding program }
{}

/// Secret globals: where a program has a labelling and its own marks pass the transient rules, a run of it and one of the same program with
/// other first values of secret globals, from starts that agree in public, are observed alike where stores are forwarded.
pub fn secret_globals()
    ensures { (program : ProgramParts) → IsProgram program → IsWellFormed program → ConstantTime program
        → Passes program (is_protected program) → HidesGlobalsBy forward_step program }
{}

/// Where runs of a program from starts that agree in public are observed alike, no comparison of two of them says `Differ`,
/// whatever the directives and the size of the buffer.
pub fn safe_programs_never_differ()
    ensures { (program : ProgramParts) → HasEqualForwarding program → (most : ℕ) → 1 ≤ most → most ≤ 64
        → (function : ℕ) (directives : List Directive) (one other : Start) → Agree program function one other
        → comparison_by are_same (observed_forwarding most program function one directives) (observed_forwarding most program function other directives)
        ≡ comparison_is.Differ → ⊥ }
{}
