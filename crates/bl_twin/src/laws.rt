//! Laws of comparisons. Each function is its contract alone.
ghost use Rattle.std.specs.Prelude.{◌≡◌, ◌↔◌, ◌≤◌, ℕ, List as Listed, length};
ghost use Rattle.bl_base.specs.declared.start.Start.{Start};
ghost use Rattle.bl_program.specs.{Outcomes.Agree, declared.definitions.ProgramParts.ProgramParts};
ghost use Rattle.bl_rob.specs.{Observations.HasEqualObservations, Observations.observed, declared.directive.Directive.Directive};
ghost use Rattle.bl_rob.specs.declared.directive.Observation.{Observation};
ghost use Rattle.bl_twin.specs.TwinComparisons.{Counts, IsLongestCommonPrefix, Tells, common, comparison};
ghost use Rattle.bl_twin.specs.declared.comparison.Comparison.TheVariants as comparison_is;

/// What two lists have in common is their longest common prefix.
pub fn what_is_common()
    ensures { (one other front : Listed Observation) → common one other ≡ front ↔ IsLongestCommonPrefix front one other }
{}

/// A comparison of two runs of a function by the same directives says `Differ` exactly where what is observed of them isn't equal;
/// `Equal` exactly where it is and no directive is refused; and `Stuck` exactly where it is and one is refused.
pub fn equal_exactly_where_not_different()
    ensures { (most : ℕ) (program : ProgramParts) (function : ℕ) (directives : Listed Directive) (one other : Start)
        → Tells (observed most program function one directives) (observed most program function other directives) }
{}

/// Of a comparison `Equal` the text tells the number of directives; of `Stuck` the place of the one that is refused; and of `Differ`
/// the place of a directive at which the runs show different things.
pub fn what_is_counted()
    ensures { (most : ℕ) (program : ProgramParts) (function : ℕ) (directives : Listed Directive) (one other : Start)
        → Counts (length directives) (observed most program function one directives) (observed most program function other directives) }
{}

/// Where runs of a program from starts that agree in public are observed alike, no comparison of two of them says `Differ`,
/// whatever the directives and the size of the buffer.
pub fn safe_programs_never_differ()
    ensures { (program : ProgramParts) → HasEqualObservations program → (most : ℕ) → 1 ≤ most → most ≤ 64
        → (function : ℕ) (directives : Listed Directive) (one other : Start) → Agree program function one other
        → comparison (observed most program function one directives) (observed most program function other directives)
        ≡ comparison_is.Differ → ⊥ }
{}
