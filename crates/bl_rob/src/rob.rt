//! The buffer machine as its callers see it.
ghost use Rattle.std.specs.Prelude.{◌≡◌, ◌≤◌, IfOk, slice_get, slice_index, option_map};
ghost use Rattle.bl_program.specs.Outcomes.{IsStart};
ghost use Rattle.bl_rob.specs.CallResults.{IsEntryKind, StepsBy, IsRunOf, is_enabled_by, outcome_in, position_of, shown};
ghost use Rattle.bl_rob.specs.Machines.{end_in, opening};

use crate::directive::{Directive, End, Kind, StepError};
use crate::loads::{Loads, Plain, told};
use crate::machine::Machine;
use bl_base::{NoMemory, Pos, Run, Start, Var};
use bl_program::WellFormed;
use bl_seq::Layout;
use std::alloc::Global;
use std::marker::{Model, PhantomData};

/// The buffer machine of a well-formed program, with a buffer of at most W entries and a kind of speculation; W is from 1 to 64.
#[derive(Debug, Drop)]
pub struct Rob<'p, const W: usize, P: Loads = Plain> {
    layout: Layout<'p>,
    machine: Machine,
    loads: PhantomData<P>,
}

impl<'p, const W: usize, P: Loads> Model for Rob<'p, W, P> {
    ghost use Rattle.std.specs.Prelude.{◌≤◌, length};
    ghost use Rattle.bl_seq.specs.Layouts.{IsLayout};
    ghost use Rattle.bl_rob.specs.CallResults.{shown};
    ghost use Rattle.bl_rob.specs.ReachableStates.{IsReachedBy};
    ghost use Rattle.bl_rob.specs.Robs.{RobView};

    ghost Value = { RobView };

    ghost view = { λ rob. record { program = rob.layout.parts.now; machine = rob.machine } };

    ghost invariant = { λ rob. IsLayout rob.layout × (length rob.machine.entries.items ≤ W) × (W ≤ 64)
        × IsReachedBy (P.rules W rob.layout.parts.now) rob.layout.parts.now (shown rob.machine) };
}

impl<'p, const W: usize, P: Loads> Rob<'p, W, P> {
    /// The machine before its first step, at a function's entry. Linear in the program and the start.
    pub fn begin(
        alloc: Global,
        program: &'p WellFormed,
        function: u32,
        start: &Start,
    ) -> Result<Rob<'p, W, P>, NoMemory>
        requires room { (1 ≤ W) × (W ≤ 64) }
        requires start { IsStart program.now function start.now }
        ensures { IfOk result (λ rob. (rob.program ≡ program.now) × (shown rob.machine ≡ opening program.now function start.now)) }
    {
        let layout = Layout::of(alloc, program.program().parts())?;
        let machine = Machine::begin(alloc, &layout, function, start)?;
        Ok(Rob {
            layout,
            machine,
            loads: PhantomData,
        })
    }

    /// One directive. NotEnabled comes exactly where the rules don't enable it; after either refusal the machine is as it was,
    /// and an Exec takes no memory.
    pub fn step(&mut self, alloc: Global, d: Directive) -> Result<P::Sight, StepError>
        ensures same { self.new.program ≡ self.old.program }
        ensures step { StepsBy P.rules W self.old.program d (shown self.old.machine) result (shown self.new.machine) }
    {
        match d {
            Directive::Fetch => told::<P>(self.machine.fetch(&self.layout, W)),
            Directive::Predict(predicted) => {
                told::<P>(self.machine.predict(alloc, &self.layout, W, predicted))
            }
            Directive::Exec(n) => P::exec(&mut self.machine, &self.layout, n as usize),
            Directive::Retire => told::<P>(self.machine.retire(alloc, &self.layout)),
        }
    }

    /// How the machine has ended; None where it hasn't.
    pub fn finished(&self) -> Option<End>
        ensures { result ≡ end_in (shown self.now.machine) }
    {
        self.machine.finished()
    }

    /// How many entries were retired.
    pub fn retired(&self) -> u64
        ensures { result ≡ (shown self.now.machine).retired }
    {
        self.machine.retired
    }

    /// What a variable holds at a depth.
    pub fn register(&self, depth: u32, var: Var) -> u64
        ensures { result ≡ (shown self.now.machine).registers depth var.0 }
    {
        self.machine.registers.at(depth as usize, var.0 as usize)
    }

    /// The byte at a place of the space of all memories; 0 past its end.
    pub fn byte(&self, address: u64) -> u8
        ensures { result ≡ slice_index (shown self.now.machine).space address }
    {
        match self.machine.space.as_slice().get(address as usize) {
            Some(byte) => *byte,
            None => 0,
        }
    }

    /// The outcome; None exactly where the machine hasn't ended.
    pub fn outcome(&self, alloc: Global) -> Result<Option<Run>, NoMemory>
        ensures { IfOk result (IsRunOf (outcome_in self.now.program (shown self.now.machine))) }
    {
        P::outcome(&self.machine, alloc, &self.layout)
    }

    /// Whether a directive is enabled; takes no memory.
    pub fn enabled(&self, d: Directive) -> bool
        ensures { result ≡ is_enabled_by P.rules W self.now.program (shown self.now.machine) d }
    {
        match d {
            Directive::Fetch => self.machine.may_fetch(&self.layout, W),
            Directive::Predict(_) => self.machine.may_predict(&self.layout, W),
            Directive::Exec(n) => P::may_exec(&self.machine, &self.layout, n as usize),
            Directive::Retire => self.machine.may_retire(),
        }
    }

    /// The front end's position; None exactly where it has ended. Takes no memory.
    pub fn front(&self) -> Option<Pos>
        ensures { option_map (λ position. position.0) result ≡ position_of (shown self.now.machine).front }
    {
        match self.machine.front.end {
            Some(_) => None,
            None => Some(Pos(self.machine.front.position)),
        }
    }

    /// The position and the kind of an entry; None exactly where the buffer has none of that index. Takes no memory.
    pub fn entry(&self, n: u32) -> Option<(Pos, Kind)>
        ensures { IsEntryKind (slice_get (shown self.now.machine).buffer n) result }
    {
        match self.machine.entries.get(n as usize) {
            Some(entry) => Some((Pos(entry.position), entry.work.kind())),
            None => None,
        }
    }
}
