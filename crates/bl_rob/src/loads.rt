//! Kinds of speculation: when an entry may be executed, what it comes to, and what is shown of it.
ghost use Rattle.std.specs.Prelude.{◌≡◌, ◌≤◌, ◌<◌, ◌^◌, ℕ, IfOk, length};
ghost use Rattle.bl_program.specs.declared.definitions.ProgramParts.{ProgramParts};
ghost use Rattle.bl_seq.specs.Layouts.{IsLayout};
ghost use Rattle.bl_rob.specs.CallResults.{IsRunOf, StepsBy, is_enabled_by, outcome_in, shown};
ghost use Rattle.bl_rob.specs.LoadPolicies.{IsNoExec, answer_as, told_as, told_itself};
ghost use Rattle.bl_rob.specs.{Machines.State, Machines.directive_step, Observations.Rules, ReachableStates.IsReachedBy};
ghost use Rattle.bl_rob.specs.{declared.directive.Directive.Directive as Given, declared.directive.Directive.TheVariants.Exec};
ghost use Rattle.bl_rob.specs.declared.directive.Observation.{Observation as Observing};

use crate::directive::{Observation, StepError};
use crate::machine::Machine;
use bl_base::{NoMemory, Run};
use bl_seq::Layout;
use std::alloc::Global;

/// A kind of speculation: which pending load may be executed, what it takes, and what an observer learns of a step. All else is
/// as in the buffer machine.
pub trait Loads: Drop {
    /// What an observer learns of a step.
    type Sight: Copy + Drop;

    /// What each directive does, with a buffer of at most so many entries.
    ghost rules: { ℕ → ProgramParts → Rules Self.Sight };

    /// What is shown of a step that is the buffer machine's.
    ghost shows: { Observing → Self.Sight };

    /// What is shown of a step that is the buffer machine's.
    fn show(observation: Observation) -> Self::Sight
        ensures { result ≡ shows observation };

    /// Executes the entry of that index. Takes no memory.
    fn exec(machine: &mut Machine, layout: &Layout, n: usize) -> Result<Self::Sight, StepError>
        requires layout { IsLayout layout.now }
        requires few { length machine.old.entries.items ≤ 64 }
        requires n { n < 2 ^ 32 }
        ensures few { length machine.new.entries.items ≤ length machine.old.entries.items }
        ensures step { (most : ℕ) → StepsBy rules most layout.now.parts.now (Exec n) (shown machine.old) result (shown machine.new) };

    /// Whether the entry of that index can be executed. Takes no memory.
    fn may_exec(machine: &Machine, layout: &Layout, n: usize) -> bool
        requires layout { IsLayout layout.now }
        requires few { length machine.now.entries.items ≤ 64 }
        requires n { n < 2 ^ 32 }
        ensures { (most : ℕ) → result ≡ is_enabled_by rules most layout.now.parts.now (shown machine.now) (Exec n) };

    /// The outcome of a machine that directives have led to; None exactly where it hasn't ended.
    fn outcome(machine: &Machine, alloc: Global, layout: &Layout) -> Result<Option<Run>, NoMemory>
        requires layout { IsLayout layout.now }
        requires reached { ((most : ℕ) × IsReachedBy (rules most layout.now.parts.now) layout.now.parts.now (shown machine.now)) }
        ensures { IfOk result (IsRunOf (outcome_in layout.now.parts.now (shown machine.now))) };

    ghost others: { (most : ℕ) (program : ProgramParts) (s : State) (d : Given) → IsNoExec d
        → rules most program s d ≡ told_as shows (directive_step most program s d) };
}

/// What a step of the buffer machine answers, with what is shown of it.
pub(crate) fn told<P: Loads>(answer: Result<Observation, StepError>) -> Result<P::Sight, StepError>
    ensures { result ≡ answer_as P.shows answer }
{
    match answer {
        Ok(observation) => Ok(P::show(observation)),
        Err(e) => Err(e),
    }
}

/// No store is passed: a pending load is executed where no store stands before it.
#[derive(Clone, Copy, Debug)]
pub struct Plain;

impl Loads for Plain {
    type Sight = Observation;

    ghost rules = { directive_step };

    ghost shows = { λ observation. observation };

    ghost others = { λ most program s d no. told_itself (directive_step most program s d) };

    fn show(observation: Observation) -> Observation {
        observation
    }

    fn exec(machine: &mut Machine, layout: &Layout, n: usize) -> Result<Observation, StepError> {
        machine.exec(layout, n).ok_or(StepError::NotEnabled)
    }

    fn may_exec(machine: &Machine, layout: &Layout, n: usize) -> bool {
        machine.may_exec(layout, n)
    }

    fn outcome(machine: &Machine, alloc: Global, layout: &Layout) -> Result<Option<Run>, NoMemory> {
        machine.outcome(alloc, layout)
    }
}
