//! Executing and retiring.
ghost use Rattle.std.specs.Prelude.{◌≡◌, ◌≤◌, ◌<◌, ◌^◌, ℕ, suc, IfSome, IsTrue, OnErr, OnOk, Some, drop, length, slice_get};
ghost use Rattle.bl_program.specs.{Steps.stored, Steps.written, declared.definitions.ProgramParts.ProgramParts};
ghost use Rattle.bl_seq.specs.Layouts.{IsLayout};
ghost use Rattle.bl_rob.specs.CallResults.{Executes, Steps, is_enabled, shown, rolled_back_at};
ghost use Rattle.bl_rob.specs.{Effects.effect_of, Effects.first_effect, declared.entry.Entry.Entry};
ghost use Rattle.bl_rob.specs.Machines.{become, is_guard, without};
ghost use Rattle.bl_rob.specs.declared.directive.Directive.TheVariants.{Exec, Retire};

use crate::directive::{End, Observation, StepError};
use crate::entry::{Act, Entry, Register, Work};
use crate::front::Front;
use crate::machine::{Machine, effective};
use bl_base::{NoMemory, Trap};
use bl_ops::AccessKind;
use bl_seq::Layout;
use std::alloc::Global;
use std::mem;

/// What an entry does when it is retired.
#[derive(Clone, Copy, Debug)]
pub enum Effect {
    /// Nothing.
    Nothing,
    /// Writes a register.
    Write(Register, u64),
    /// Stores a value.
    Store {
        kind: AccessKind,
        memory: u32,
        offset: u32,
        address: u64,
        value: u64,
    },
    /// Ends the machine.
    Fail(Trap),
}

impl Work {
    /// What it does when it is retired; None where it can't be yet.
    fn effect(&self) -> Option<Effect>
        ensures { result ≡ effect_of self.now }
    {
        match self {
            Work::Nop => Some(Effect::Nothing),
            Work::Done { to, value } => Some(Effect::Write(*to, *value)),
            Work::Ready {
                kind,
                memory,
                offset,
                address,
                value,
            } => Some(Effect::Store {
                kind: *kind,
                memory: *memory,
                offset: *offset,
                address: *address,
                value: *value,
            }),
            Work::Fail(kind) => Some(Effect::Fail(*kind)),
            Work::Assign { .. }
            | Work::Load { .. }
            | Work::Held { .. }
            | Work::Store { .. }
            | Work::Guard { .. } => None,
        }
    }
}

impl Machine {
    /// Executes the entry of that index; None where it can't be executed. Takes no memory.
    pub fn exec(&mut self, layout: &Layout, n: usize) -> Option<Observation>
        requires layout { IsLayout layout.now }
        requires few { length self.old.entries.items ≤ 64 }
        requires n { n < 2 ^ 32 }
        ensures { Executes layout.now.parts.now n (shown self.old) result (shown self.new) }
    {
        match self.act(layout, n) {
            Act::Idle => None,
            Act::Becomes(work, observation) => {
                self.replace(n, work);
                Some(observation)
            }
            Act::RollsBack => {
                self.roll_back(n);
                Some(Observation::Rollback(n as u32))
            }
        }
    }

    /// Whether the entry of that index can be executed. Takes no memory.
    pub fn may_exec(&self, layout: &Layout, n: usize) -> bool
        requires layout { IsLayout layout.now }
        requires few { length self.now.entries.items ≤ 64 }
        requires n { n < 2 ^ 32 }
        ensures { (most : ℕ) → result ≡ is_enabled most layout.now.parts.now (shown self.now) (Exec n) }
    {
        !matches!(self.act(layout, n), Act::Idle)
    }

    /// Lets an entry do something else from then on.
    pub fn replace(&mut self, n: usize, work: Work)
        requires { n < length self.old.entries.items }
        ensures { (entry : Entry) → slice_get self.old.entries.items n ≡ Some entry → shown self.new ≡ become n entry.position work (shown self.old) }
    {
        self.entries[n].work = work;
    }

    /// Drops what stands behind a guard, and goes to its other branch.
    fn roll_back(&mut self, n: usize)
        requires guard { IfSome (slice_get self.old.entries.items n) (λ entry. IsTrue (is_guard entry.work)) }
        requires within { n < length self.old.entries.items }
        ensures { shown self.new ≡ rolled_back_at n (shown self.old) (slice_get self.old.entries.items n) }
    {
        self.entries.truncate(n + 1);
        let guard = mem::replace(&mut self.entries[n].work, Work::Nop);
        if let Work::Guard { other, chain, .. } = guard {
            self.front = Front {
                position: other,
                chain,
                end: None,
            };
        }
    }

    /// What the oldest entry does when it is retired; None where there is none, or it can't be yet.
    fn first_effect(&self) -> Option<Effect>
        ensures { result ≡ first_effect self.now.entries.items }
    {
        match self.entries.first() {
            Some(entry) => entry.work.effect(),
            None => None,
        }
    }

    /// Whether there is an oldest entry that can be retired.
    pub fn may_retire(&self) -> bool
        ensures { (most : ℕ) (program : ProgramParts) → result ≡ is_enabled most program (shown self.now) Retire }
    {
        self.first_effect().is_some()
    }

    /// Retires the oldest entry.
    pub fn retire(&mut self, alloc: Global, layout: &Layout) -> Result<Observation, StepError>
        requires { IsLayout layout.now }
        ensures { (most : ℕ) → Steps most layout.now.parts.now Retire (shown self.old) result (shown self.new) }
    {
        let Some(effect) = self.first_effect() else {
            return Err(StepError::NotEnabled);
        };
        let Some(retired) = self.retired.checked_add(1) else {
            return Err(StepError::Memory);
        };
        match effect {
            Effect::Nothing => {}
            Effect::Write(to, value) => self.write(alloc, to, value)?,
            Effect::Store {
                kind,
                memory,
                offset,
                address,
                value,
            } => self.store(kind, effective(layout, memory, offset, address), value),
            Effect::Fail(kind) => {
                self.entries.clear();
                self.front.end = Some(End::Trapped(kind));
                self.retired = retired;
                return Ok(Observation::Fail);
            }
        }
        self.drop_first(retired);
        Ok(Observation::Nothing)
    }

    /// Writes a register. A refusal leaves the machine as it was.
    fn write(&mut self, alloc: Global, to: Register, value: u64) -> Result<(), NoMemory>
        ensures ok { OnOk result (shown self.new ≡ record (shown self.old) { registers = written (shown self.old).registers to.depth to.var value }) }
        ensures err { OnErr result (shown self.new ≡ shown self.old) }
    {
        self.registers
            .write(alloc, to.depth as usize, to.var, value)
    }

    /// Stores a value.
    fn store(&mut self, kind: AccessKind, from: usize, value: u64)
        requires { from < 2 ^ 61 }
        ensures { shown self.new ≡ record (shown self.old) { space = stored kind from value self.old.space } }
    {
        self.space.store(kind, from, value);
    }

    /// Drops the oldest entry, where so many were retired with it.
    fn drop_first(&mut self, retired: u64)
        requires one { 0 < length self.old.entries.items }
        requires count { retired ≡ suc self.old.retired }
        ensures { shown self.new ≡ without (shown self.old) (drop 1 self.old.entries.items) }
    {
        self.entries.remove(0);
        self.retired = retired;
    }
}
