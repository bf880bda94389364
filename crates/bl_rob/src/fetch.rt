//! Fetching and predicting.
ghost use Rattle.std.specs.Prelude.{◌≡◌, Bool, IsTrue, Some, length, suc};
ghost use Rattle.bl_ops.specs.Access.{is_load};
ghost use Rattle.bl_program.specs.Layout.{entry_of, param, result as variable_of_result, running};
ghost use Rattle.bl_program.specs.Programs.{IsCommand};
ghost use Rattle.bl_seq.specs.Layouts.{IsLayout};
ghost use Rattle.bl_rob.specs.CallResults.{Steps, is_enabled, next_command, shown, work_in};
ghost use Rattle.bl_rob.specs.Machines.{fetched, moved, register_of, source_of};
ghost use Rattle.bl_rob.specs.declared.directive.Directive.TheVariants.{Fetch, Predict};
ghost use Rattle.bl_rob.specs.declared.entry.Work.TheVariants.{Assign, Load, Store};

use crate::directive::{Observation, StepError};
use crate::entry::{Entry, LoadKind, Register, Source, Work};
use crate::machine::Machine;
use bl_base::{MOST_CALLS, NoMemory, Trap, Var};
use bl_ops::{AccessKind, Op};
use bl_program::{Command, Mark, Operand};
use bl_seq::Layout;
use std::alloc::Global;

/// A variable as a frame of that depth finds it.
fn register_of(layout: &Layout, depth: u32, x: Var) -> Register
    requires { IsLayout layout.now }
    ensures { result ≡ register_of layout.now.parts.now depth x.0 }
{
    let var = x.0 as usize;
    Register {
        depth: if var < layout.statics { 0 } else { depth },
        var,
    }
}

/// An operand in a frame of that depth.
fn source_of(layout: &Layout, depth: u32, operand: Operand) -> Source
    requires { IsLayout layout.now }
    ensures { result ≡ source_of layout.now.parts.now depth operand }
{
    match operand {
        Operand::Const(number) => Source::Const(number),
        Operand::Var(x) => Source::Holds(register_of(layout, depth, x)),
    }
}

/// An assignment of a value to a variable at a depth.
fn moved(protect: bool, depth: u32, var: usize, value: Source) -> Work
    ensures { result ≡ moved protect depth var value }
{
    Work::Assign {
        protect,
        op: Op::Move,
        to: Register { depth, var },
        a: value,
        b: Source::Const(0),
        c: Source::Const(0),
    }
}

/// The work of a Set in a frame of that depth.
fn assignment(
    layout: &Layout,
    depth: u32,
    mark: Mark,
    op: Op,
    to: Var,
    a: Operand,
    b: Operand,
    c: Operand,
) -> Work
    requires { IsLayout layout.now }
    ensures { result ≡ Assign mark.protect op (register_of layout.now.parts.now depth to.0) (source_of layout.now.parts.now depth a)
        (source_of layout.now.parts.now depth b) (source_of layout.now.parts.now depth c) }
{
    Work::Assign {
        protect: mark.protect,
        op,
        to: register_of(layout, depth, to),
        a: source_of(layout, depth, a),
        b: source_of(layout, depth, b),
        c: source_of(layout, depth, c),
    }
}

/// The work of a Load in a frame of that depth.
fn load_of(
    layout: &Layout,
    depth: u32,
    mark: Mark,
    kind: AccessKind,
    memory: u32,
    to: Var,
    offset: u32,
    address: Operand,
) -> Work
    requires layout { IsLayout layout.now }
    requires load { IsTrue (is_load kind) }
    ensures { result ≡ Load mark.protect kind memory (register_of layout.now.parts.now depth to.0) offset (source_of layout.now.parts.now depth address) }
{
    Work::Load {
        protect: mark.protect,
        kind: LoadKind::of(kind),
        memory,
        to: register_of(layout, depth, to),
        offset,
        address: source_of(layout, depth, address),
    }
}

/// The work of a Store in a frame of that depth.
fn store_of(
    layout: &Layout,
    depth: u32,
    kind: AccessKind,
    memory: u32,
    offset: u32,
    address: Operand,
    value: Operand,
) -> Work
    requires { IsLayout layout.now }
    ensures { result ≡ Store kind memory offset (source_of layout.now.parts.now depth address) (source_of layout.now.parts.now depth value) }
{
    Work::Store {
        kind,
        memory,
        offset,
        address: source_of(layout, depth, address),
        value: source_of(layout, depth, value),
    }
}

/// The position of a function's entry.
pub fn entry_of(layout: &Layout, function: u32) -> u32
    requires { IsLayout layout.now }
    ensures { result ≡ entry_of layout.now.parts.now function }
{
    layout.frame(function).entry as u32
}

impl Machine {
    /// The command at the front end; None where a buffer of at most that many entries has no room, where the front end has
    /// ended, and where there is no command.
    pub fn next(&self, layout: &Layout, most: usize) -> Option<Command>
        ensures { result ≡ next_command most layout.now.parts.now (shown self.now) }
    {
        if self.entries.len() >= most || self.front.end.is_some() {
            return None;
        }
        layout
            .parts
            .commands
            .as_slice()
            .get(self.front.position as usize)
            .copied()
    }

    /// Whether there is such a command, and it isn't a Test.
    pub fn may_fetch(&self, layout: &Layout, most: usize) -> bool
        ensures { result ≡ is_enabled most layout.now.parts.now (shown self.now) Fetch }
    {
        match self.next(layout, most) {
            Some(command) => !matches!(command, Command::Test { .. }),
            None => false,
        }
    }

    /// Whether there is such a command, and it is a Test.
    pub fn may_predict(&self, layout: &Layout, most: usize) -> bool
        ensures { (predicted : Bool) → result ≡ is_enabled most layout.now.parts.now (shown self.now) (Predict predicted) }
    {
        match self.next(layout, most) {
            Some(command) => matches!(command, Command::Test { .. }),
            None => false,
        }
    }

    /// Fetches the command at the front end, into a buffer of at most that many entries.
    pub fn fetch(&mut self, layout: &Layout, most: usize) -> Result<Observation, StepError>
        requires { IsLayout layout.now }
        ensures { Steps most layout.now.parts.now Fetch (shown self.old) result (shown self.new) }
    {
        let Some(command) = self.next(layout, most) else {
            return Err(StepError::NotEnabled);
        };
        let Some(work) = self.work_of(layout, command) else {
            return Err(StepError::NotEnabled);
        };
        self.entries.push(Entry {
            position: self.front.position,
            work,
        })?;
        match self.front.advance(layout, command) {
            Ok(()) => Ok(Observation::Nothing),
            Err(NoMemory) => {
                self.entries.pop();
                Err(StepError::Memory)
            }
        }
    }

    /// What the command at the front end becomes; None where it is a Test.
    fn work_of(&self, layout: &Layout, command: Command) -> Option<Work>
        requires layout { IsLayout layout.now }
        requires command { IsCommand command }
        ensures { result ≡ work_in (fetched layout.now.parts.now self.now.front.position self.now.front.chain (Some command)) }
    {
        let depth = self.front.chain.depth();
        match command {
            Command::Set {
                mark,
                op,
                to,
                a,
                b,
                c,
            } => Some(assignment(layout, depth, mark, op, to, a, b, c)),
            Command::Load {
                mark,
                kind,
                memory,
                to,
                offset,
                address,
            } => Some(load_of(layout, depth, mark, kind, memory, to, offset, address)),
            Command::Store {
                kind,
                memory,
                offset,
                address,
                value,
            } => Some(store_of(layout, depth, kind, memory, offset, address, value)),
            Command::Test { .. } => None,
            Command::Jump { .. } | Command::Ret => Some(Work::Nop),
            Command::Arg {
                mark,
                function,
                index,
                value,
            } => Some(self.argument(layout, mark, function, index, value)),
            Command::Call { .. } if depth < MOST_CALLS => Some(Work::Nop),
            Command::Call { .. } => Some(Work::Fail(Trap::StackExhausted)),
            Command::Out { mark, index, value } => Some(self.output(layout, mark, index, value)),
            Command::Trap { kind } => Some(Work::Fail(kind)),
        }
    }

    /// The work of an Arg.
    fn argument(
        &self,
        layout: &Layout,
        mark: Mark,
        function: u32,
        index: u32,
        value: Operand,
    ) -> Work
        requires { IsLayout layout.now }
        ensures { result ≡ moved mark.protect (suc (suc (length self.now.front.chain))) (param layout.now.parts.now function index)
            (source_of layout.now.parts.now (suc (length self.now.front.chain)) value) }
    {
        let depth = self.front.chain.depth();
        let var = layout.frame(function).first + index as usize;
        let value = source_of(layout, depth, value);
        moved(mark.protect, depth + 1, var, value)
    }

    /// The work of an Out.
    fn output(&self, layout: &Layout, mark: Mark, index: u32, value: Operand) -> Work
        requires { IsLayout layout.now }
        ensures { result ≡ moved mark.protect (length self.now.front.chain)
            (variable_of_result layout.now.parts.now (running layout.now.parts.now self.now.front.position) index)
            (source_of layout.now.parts.now (suc (length self.now.front.chain)) value) }
    {
        let depth = self.front.chain.depth();
        let var = layout.result(self.front.position as usize, index);
        let value = source_of(layout, depth, value);
        moved(mark.protect, depth - 1, var, value)
    }

    /// Fetches the Test at the front end as a guard that predicts where it goes.
    pub fn predict(
        &mut self,
        alloc: Global,
        layout: &Layout,
        most: usize,
        predicted: bool,
    ) -> Result<Observation, StepError>
        requires { IsLayout layout.now }
        ensures { Steps most layout.now.parts.now (Predict predicted) (shown self.old) result (shown self.new) }
    {
        let Some(Command::Test { cond, yes, no }) = self.next(layout, most) else {
            return Err(StepError::NotEnabled);
        };
        let cond = source_of(layout, self.front.chain.depth(), cond);
        let chain = self.front.chain.copied(alloc)?;
        let (taken, other) = if predicted { (yes, no) } else { (no, yes) };
        self.entries.push(Entry {
            position: self.front.position,
            work: Work::Guard {
                cond,
                predicted,
                other: other.0,
                chain,
            },
        })?;
        self.front.position = taken.0;
        Ok(Observation::Nothing)
    }
}
