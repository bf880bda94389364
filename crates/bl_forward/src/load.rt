//! The loads of the machine that forwards stores: what executing an entry comes to, where it is a pending load.
ghost use Rattle.std.specs.Prelude.{◌≡◌, ◌≤◌, length};
ghost use Rattle.bl_seq.specs.Layouts.{IsLayout};
ghost use Rattle.bl_rob.specs.{CallResults.shown, LoadPolicies.answer_as};
ghost use Rattle.bl_forward.specs.ForwardMachines.{forward_step, other_steps, execution_at, execution_from};
ghost use Rattle.bl_forward.specs.declared.seen.Seen.TheVariants.{Plain};

use crate::find::{Found, found_behind};
use crate::seen::Seen;
use bl_base::{NoMemory, Run};
use bl_bytes::Bytes;
use bl_rob::{
    Entry, LoadKind, Loads, Machine, Observation, Register, Rob, StepError, Work, effective,
    guards, valued, visible_of,
};
use bl_seq::Layout;
use std::alloc::Global;

/// What executing an entry comes to.
#[derive(Debug, Drop)]
pub enum Execution {
    /// What it comes to in the buffer machine.
    Plain,
    /// It is a load that can't be executed yet.
    Waits,
    /// It is a load, does that instead from then on, and that is observed.
    Fills(Work, Seen),
}

/// What the entry of that index comes to.
pub fn execution_at(machine: &Machine, layout: &Layout, n: usize) -> Execution
    requires layout { IsLayout layout.now }
    requires few { length machine.now.entries.items ≤ 64 }
    ensures { result ≡ execution_at layout.now.parts.now (shown machine.now) n }
{
    let Some(entry) = machine.entries.get(n) else {
        return Execution::Plain;
    };
    match &entry.work {
        Work::Load {
            protect,
            kind,
            memory,
            to,
            offset,
            address,
        } => {
            let before = &machine.entries[..n];
            let address = visible_of(&machine.registers, before, *address);
            execution_from(
                layout,
                &machine.space,
                before,
                *protect,
                kind,
                *memory,
                *to,
                *offset,
                address,
            )
        }
        _ => Execution::Plain,
    }
}

/// What a load behind those entries comes to, where its address is visible or isn't.
fn execution_from(
    layout: &Layout,
    space: &Bytes,
    before: &[Entry],
    protect: bool,
    kind: &LoadKind,
    memory: u32,
    to: Register,
    offset: u32,
    address: Option<u64>,
) -> Execution
    requires layout { IsLayout layout.now }
    requires few { length before.now ≤ 64 }
    ensures { result ≡ execution_from layout.now.parts.now space.now before.now protect kind.now memory to offset address }
{
    let Some(address) = address else {
        return Execution::Waits;
    };
    let from = effective(layout, memory, offset, address);
    match found_behind(layout, before, from, kind.width() as usize) {
        Some(Found::Memory) => {
            let value = kind.load(space, from);
            let observation = Observation::Read {
                address: from as u64,
                guards: guards(before),
            };
            Execution::Fills(valued(protect, to, value), Seen::Plain(observation))
        }
        Some(Found::Stored(number)) => {
            let value = kind.extend(number);
            let seen = Seen::Forward {
                address: from as u64,
                guards: guards(before),
            };
            Execution::Fills(valued(protect, to, value), seen)
        }
        Some(Found::Blocked) | None => Execution::Waits,
    }
}

/// What a step of the buffer machine shows.
fn as_plain(answer: Result<Observation, StepError>) -> Result<Seen, StepError>
    ensures { result ≡ answer_as Plain answer }
{
    match answer {
        Ok(observation) => Ok(Seen::Plain(observation)),
        Err(e) => Err(e),
    }
}

/// A load behind ready stores takes the value of the last one whose bytes it meets.
#[derive(Clone, Copy, Debug)]
pub struct Forward;

/// The machine that forwards stores, of a well-formed program, with a buffer of at most W entries; W is from 1 to 64.
pub type Fwd<'p, const W: usize> = Rob<'p, W, Forward>;

impl Loads for Forward {
    type Sight = Seen;

    ghost rules = { forward_step };

    ghost shows = { Plain };

    ghost others = { other_steps };

    fn show(observation: Observation) -> Seen {
        Seen::Plain(observation)
    }

    fn exec(machine: &mut Machine, layout: &Layout, n: usize) -> Result<Seen, StepError> {
        match execution_at(machine, layout, n) {
            Execution::Plain => as_plain(machine.exec(layout, n).ok_or(StepError::NotEnabled)),
            Execution::Waits => Err(StepError::NotEnabled),
            Execution::Fills(work, seen) => {
                machine.replace(n, work);
                Ok(seen)
            }
        }
    }

    fn may_exec(machine: &Machine, layout: &Layout, n: usize) -> bool {
        match execution_at(machine, layout, n) {
            Execution::Plain => machine.may_exec(layout, n),
            Execution::Waits => false,
            Execution::Fills(_, _) => true,
        }
    }

    fn outcome(machine: &Machine, alloc: Global, layout: &Layout) -> Result<Option<Run>, NoMemory> {
        machine.outcome(alloc, layout)
    }
}
