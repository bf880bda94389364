//! Laws of runs. Each function is its contract alone.
ghost use Rattle.std.specs.Prelude.{◌≡◌, ℕ, List as Listed};
ghost use Rattle.bl_base.specs.Runs.{StepsTo, HasStep, Next, Outcome, ends, goes};
ghost use Rattle.bl_base.specs.{declared.names.ValueType.ValueType, declared.start.Start.Start};
ghost use Rattle.bl_wasm.specs.{Linked.IsLinked, declared.linked.Tree.Tree};
ghost use Rattle.bl_reduce.specs.{Configurations.Config, Steps.source_step, TypedConfigurations.IsTyped, TypedConfigurations.IsTypedStep};
ghost use Rattle.bl_reduce.specs.Outcomes.{IsStart, opening, source};

/// A step is unique: from one configuration it leads to one, or the run ends with one outcome, and not both.
pub fn one_step()
    ensures next { (tree : Tree) (c d e : Config) → source_step tree c ≡ goes d → source_step tree c ≡ goes e → d ≡ e }
    ensures ending { (tree : Tree) (c : Config) (o p : Outcome) → source_step tree c ≡ ends o → source_step tree c ≡ ends p → o ≡ p }
    ensures apart { (tree : Tree) (c d : Config) (o : Outcome) → source_step tree c ≡ goes d → source_step tree c ≡ ends o → ⊥ }
{}

/// A run's outcome is unique, and so is the number of its steps.
pub fn one_outcome()
    ensures { (tree : Tree) (function : ℕ) (start : Start) (m n : ℕ) (o p : Outcome)
        → source tree function start m o → source tree function start n p → (m ≡ n) × (o ≡ p) }
{}

/// No run of a linked tree from a start that fits gets stuck: each of its configurations has a step, to another one or to
/// the run's end.
pub fn no_run_is_stuck()
    ensures { (tree : Tree) (function : ℕ) (start : Start) (n : ℕ) (c : Config)
        → IsLinked tree → IsStart tree function start
        → StepsTo (source_step tree) n (opening tree function start) c → HasStep (source_step tree c) }
{}

/// The entering of a function with a start that fits is typed.
pub fn a_start_is_typed()
    ensures { (tree : Tree) (function : ℕ) (start : Start)
        → IsLinked tree → (is : IsStart tree function start) → IsTyped tree is.type.results (opening tree function start) }
{}

/// Preservation and progress: what is typed has a step, to what is typed again or to an end with values of the results' types.
pub fn preservation_and_progress()
    ensures { (tree : Tree) (results : Listed ValueType) (c : Config)
        → IsLinked tree → IsTyped tree results c → IsTypedStep tree results (source_step tree c) }
{}
