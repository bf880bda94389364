//! Laws of trees whose parts have other numbers. Each function is its contract alone.
ghost use Rattle.std.specs.Prelude.{◌≡◌, ℕ};
ghost use Rattle.bl_base.specs.{Runs.Outcome, declared.start.Start.Start};
ghost use Rattle.bl_reduce.specs.{Runnable.IsRunnable, Configurations.Config, Outcomes.IsStart, Outcomes.source, Steps.source_step};
ghost use Rattle.bl_wasm.specs.declared.linked.Tree.{Tree};
ghost use Rattle.bl_rename.specs.Renamings.{Alike, AreConfigs, AreSteps, Numbers, Renames, start_by};

/// Where a tree has a step, a tree that renames it has the same one: both go on to the same configuration but for the numbers, or both end alike.
pub fn steps_are_kept()
    ensures { (numbers : Numbers) (tree other : Tree) (c d : Config) → Renames numbers tree other → AreConfigs numbers tree c d
        → AreSteps numbers tree (source_step tree c) (source_step other d) }
{}

/// A start that fits a function fits it at its new number, by the memories' new numbers.
pub fn starts_are_kept()
    ensures { (numbers : Numbers) (tree other : Tree) (function : ℕ) (start : Start) → Renames numbers tree other
        → IsStart tree function start → IsStart other (numbers.names.function function) (start_by numbers start) }
{}

/// Whichever of the two ends from a start, the other one ends alike, after as many steps.
pub fn outcomes_are_kept()
    ensures forward { (numbers : Numbers) (tree other : Tree) (function : ℕ) (start : Start) (n : ℕ) (o : Outcome) → Renames numbers tree other
        → source tree function start n o
        → (p : Outcome) × source other (numbers.names.function function) (start_by numbers start) n p × Alike numbers o p }
    ensures backward { (numbers : Numbers) (tree other : Tree) (function : ℕ) (start : Start) (n : ℕ) (p : Outcome) → Renames numbers tree other
        → IsRunnable tree → IsStart tree function start
        → source other (numbers.names.function function) (start_by numbers start) n p
        → (o : Outcome) × source tree function start n o × Alike numbers o p }
{}
