//! Laws. Each function is its contract alone.
ghost use Rattle.std.specs.Prelude.{◌≡◌, ℕ, true, IsSomeAnd, List, None};
ghost use Rattle.bl_base.specs.declared.start.Start.{Start};
ghost use Rattle.bl_program.specs.{Outcomes.Agree, declared.definitions.ProgramParts.ProgramParts, Programs.IsProgram, Rules.IsWellFormed};
ghost use Rattle.bl_rob.specs.{CallResults.is_enabled, Machines.State, Machines.end_in, ReachableStates.IsReached};
ghost use Rattle.bl_rob.specs.Observations.{HasEqualObservations, observed, reached};
ghost use Rattle.bl_rob.specs.declared.directive.Directive.{Directive};
ghost use Rattle.bl_predict.specs.{Outlines.Outline, DriveDirectives.IsEachTaken};
ghost use Rattle.bl_predict.specs.Drives.{AreSame, begun, chosen, driven};

/// The front end, the positions of the entries and the guards' predictions follow from the program, the function, the directives and
/// their observations.
pub fn follows()
    ensures { (most : ℕ) (program : ProgramParts) (function : ℕ) (a b : Start) (directives : List Directive)
        → observed most program function a directives ≡ observed most program function b directives
        → Outline (reached most program function a directives) (reached most program function b directives) }
{}

/// Where observations are equal for starts that agree in public, two drives of such starts choose and count alike.
pub fn drives_alike()
    ensures { (program : ProgramParts) → HasEqualObservations program → (function : ℕ) (a b : Start) → Agree program function a b
        → (most : ℕ) → AreSame (driven program most (begun program function a)) (driven program most (begun program function b)) }
{}

/// While the machine hasn't ended, one of the four kinds of directive is enabled: a drive chooses one, and that one is enabled.
pub fn a_drive_step_is_enabled()
    ensures { (program : ProgramParts) → IsProgram program → IsWellFormed program → (s : State) → IsReached 64 program s → end_in s ≡ None
        → (counters : List ℕ) → IsSomeAnd (chosen program counters s) (λ d. is_enabled 64 program s d ≡ true) }
{}

/// What a drive chooses is enabled: the directives of its trace, at most one a step, are all taken by a machine from the opening on, and lead it
/// to where the drive has come; and each entry that is executed is one of 64.
#[tactic(auto, using(crate::proofs::EnabledChoices::each_taken))]
pub fn what_is_chosen_is_enabled()
    ensures { (program : ProgramParts) → IsEachTaken program }
{}
