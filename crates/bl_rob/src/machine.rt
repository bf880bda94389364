//! The machine between two steps, and what executing an entry of it comes to.
ghost use Rattle.std.specs.Prelude.{◌≡◌, ◌≤◌, ◌<◌, ◌^◌, IfOk, length};
ghost use Rattle.bl_program.specs.{Outcomes.IsStart, Steps.effective};
ghost use Rattle.bl_seq.specs.Layouts.{IsLayout};
ghost use Rattle.bl_rob.specs.CallResults.{act_at, shown};
ghost use Rattle.bl_rob.specs.Machines.{act, assigns, frees, guards, has_store, judges, loads, opening, stores, valued, visible_of};

use crate::chain::Chain;
use crate::directive::Observation;
use crate::entry::{Act, Entry, LoadKind, Register, Source, Work};
use crate::fetch::entry_of;
use crate::front::Front;
use crate::visible::{guards, has_guard, has_store, visible_of};
use bl_base::{NoMemory, Start};
use bl_bytes::Bytes;
use bl_ops::{AccessKind, Op, eval};
use bl_seq::{Layout, Registers, begin};
use std::alloc::Global;

/// The machine between two steps.
#[derive(Debug, Drop)]
pub struct Machine {
    /// The buffer, the oldest entry first.
    pub entries: Vec<Entry>,
    /// The front end.
    pub front: Front,
    /// The registers.
    pub registers: Registers,
    /// The bytes of all memories.
    pub space: Bytes,
    /// How many entries were retired.
    pub retired: u64,
}

/// Where an access begins.
pub fn effective(layout: &Layout, memory: u32, offset: u32, address: u64) -> usize
    requires { IsLayout layout.now }
    ensures place { result ≡ effective layout.now.parts.now memory offset address }
    ensures small { result < 2 ^ 61 }
{
    let address = address % 0x1_0000_0000;
    layout.base(memory) + (address as usize + offset as usize)
}

/// A value that is held where it is protected.
pub fn valued(protect: bool, to: Register, value: u64) -> Work
    ensures { result ≡ valued protect to value }
{
    if protect {
        Work::Held { to, value }
    } else {
        Work::Done { to, value }
    }
}

/// A held value, where a guard stands before it or none does.
fn frees(guarded: bool, to: Register, value: u64) -> Act
    ensures { result ≡ frees guarded to value }
{
    if guarded {
        Act::Idle
    } else {
        Act::Becomes(Work::Done { to, value }, Observation::Nothing)
    }
}

/// A guard with that prediction and, where it is visible, that condition.
fn judges(predicted: bool, cond: Option<u64>) -> Act
    ensures { result ≡ judges predicted cond }
{
    let Some(cond) = cond else {
        return Act::Idle;
    };
    if predicted == (cond % 0x1_0000_0000 != 0) {
        Act::Becomes(Work::Nop, Observation::Nothing)
    } else {
        Act::RollsBack
    }
}

impl Machine {
    /// The machine before its first step, at a function's entry. Linear in the program and the start.
    pub fn begin(
        alloc: Global,
        layout: &Layout,
        function: u32,
        start: &Start,
    ) -> Result<Machine, NoMemory>
        requires layout { IsLayout layout.now }
        requires start { IsStart layout.now.parts.now function start.now }
        ensures { IfOk result (λ machine. shown machine ≡ opening layout.now.parts.now function start.now) }
    {
        let first = begin(alloc, layout, function, start)?;
        let front = Front {
            position: entry_of(layout, function),
            chain: Chain::new(alloc),
            end: None,
        };
        Ok(Machine {
            entries: Vec::new(alloc),
            front,
            registers: first.registers,
            space: first.space,
            retired: 0,
        })
    }

    /// What the entry of that index comes to; Idle where there is none.
    pub fn act(&self, layout: &Layout, n: usize) -> Act
        requires layout { IsLayout layout.now }
        requires few { length self.now.entries.items ≤ 64 }
        ensures { result ≡ act_at layout.now.parts.now (shown self.now) n }
    {
        match self.entries.get(n) {
            Some(entry) => self.act_behind(layout, &self.entries[..n], &entry.work),
            None => Act::Idle,
        }
    }

    /// What that work comes to behind those entries.
    fn act_behind(&self, layout: &Layout, before: &[Entry], work: &Work) -> Act
        requires layout { IsLayout layout.now }
        requires few { length before.now ≤ 64 }
        ensures { result ≡ act layout.now.parts.now (shown self.now).registers self.now.space before.now work.now }
    {
        match work {
            Work::Assign {
                protect,
                op,
                to,
                a,
                b,
                c,
            } => self.assign_behind(before, *protect, *op, *to, *a, *b, *c),
            Work::Load {
                protect,
                kind,
                memory,
                to,
                offset,
                address,
            } => {
                let address = visible_of(&self.registers, before, *address);
                self.load_behind(
                    layout, before, *protect, kind, *memory, *to, *offset, address,
                )
            }
            Work::Held { to, value } => frees(has_guard(before), *to, *value),
            Work::Store {
                kind,
                memory,
                offset,
                address,
                value,
            } => self.store_behind(layout, before, *kind, *memory, *offset, *address, *value),
            Work::Guard {
                cond,
                predicted,
                ..
            } => judges(*predicted, visible_of(&self.registers, before, *cond)),
            _ => Act::Idle,
        }
    }

    /// A pending assignment behind those entries.
    fn assign_behind(
        &self,
        before: &[Entry],
        protect: bool,
        op: Op,
        to: Register,
        a: Source,
        b: Source,
        c: Source,
    ) -> Act
        requires { length before.now ≤ 64 }
        ensures { result ≡ assigns (guards before.now) protect op to (visible_of (shown self.now).registers before.now a)
            (visible_of (shown self.now).registers before.now b) (visible_of (shown self.now).registers before.now c) }
    {
        let Some(a) = visible_of(&self.registers, before, a) else {
            return Act::Idle;
        };
        let Some(b) = visible_of(&self.registers, before, b) else {
            return Act::Idle;
        };
        let Some(c) = visible_of(&self.registers, before, c) else {
            return Act::Idle;
        };
        let work = valued(protect, to, eval(op, a, b, c));
        if !op.is_division() {
            return Act::Becomes(work, Observation::Nothing);
        }
        let observation = Observation::Divide {
            a,
            b,
            guards: guards(before),
        };
        Act::Becomes(work, observation)
    }

    /// A pending load behind those entries, where its address is visible or isn't.
    fn load_behind(
        &self,
        layout: &Layout,
        before: &[Entry],
        protect: bool,
        kind: &LoadKind,
        memory: u32,
        to: Register,
        offset: u32,
        address: Option<u64>,
    ) -> Act
        requires layout { IsLayout layout.now }
        requires few { length before.now ≤ 64 }
        ensures { result ≡ loads layout.now.parts.now self.now.space (guards before.now) (has_store before.now) protect kind.now memory to offset address }
    {
        let Some(address) = address else {
            return Act::Idle;
        };
        if has_store(before) {
            return Act::Idle;
        }
        let from = effective(layout, memory, offset, address);
        Act::Becomes(
            valued(protect, to, kind.load(&self.space, from)),
            Observation::Read {
                address: from as u64,
                guards: guards(before),
            },
        )
    }

    /// A pending store behind those entries.
    fn store_behind(
        &self,
        layout: &Layout,
        before: &[Entry],
        kind: AccessKind,
        memory: u32,
        offset: u32,
        address: Source,
        value: Source,
    ) -> Act
        requires layout { IsLayout layout.now }
        requires few { length before.now ≤ 64 }
        ensures { result ≡ stores layout.now.parts.now (guards before.now) kind memory offset
            (visible_of (shown self.now).registers before.now address) (visible_of (shown self.now).registers before.now value) }
    {
        let Some(address) = visible_of(&self.registers, before, address) else {
            return Act::Idle;
        };
        let Some(value) = visible_of(&self.registers, before, value) else {
            return Act::Idle;
        };
        let from = effective(layout, memory, offset, address);
        Act::Becomes(
            Work::Ready {
                kind,
                memory,
                offset,
                address,
                value,
            },
            Observation::Write {
                address: from as u64,
                guards: guards(before),
            },
        )
    }
}
