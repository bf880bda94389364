//! A part's commands by the numbers of the joined program.
ghost use Rattle.std.specs.Prelude.{◌≡◌, ◌++◌, ◌+◌, ◌-◌, ◌<◌, ◌≤◌, ◌^◌, ◌⊎◌, MatchOption, OnOk, length, map, slice_index};
ghost use Rattle.std.specs.List.{All};
ghost use Rattle.bl_program.specs.{Layout.first_of, Layout.result as result_at, Rules.IsOwn};
ghost use Rattle.bl_program.specs.declared.command.Command.TheVariants.{Arg, Call, Jump, Load, Out, Set, Store, Test};
ghost use Rattle.bl_iface.specs.JoinedProgram.{moved_var, operand_by, renamed};
ghost use Rattle.bl_iface.specs.PartNumbers.{AreNumbers, goal_in, numbers_by};
ghost use Rattle.bl_iface.specs.MovableNumbers.{IsMovable, IsSmall, IsSmallOperand};

use crate::shift::{Shift, moved_position, moved_var};
use bl_base::{List, NoMemory, Pos, Var};
use bl_ops::{AccessKind, Op};
use bl_program::{Command, FunctionDef, Mark, Operand, ProgramParts, owner_among};

/// How the numbers of a part's commands become those of the joined program.
#[derive(Clone, Copy)]
pub(crate) struct Numbers<'p> {
    /// The part.
    pub(crate) part: &'p ProgramParts,
    /// Its shift.
    pub(crate) shift: Shift,
    /// The first variable of each of its functions, and the number of all its variables.
    pub(crate) firsts: &'p [u32],
    /// The other part.
    pub(crate) other: &'p ProgramParts,
    /// The other part's shift.
    pub(crate) other_shift: Shift,
    /// The first variables of the other part's functions.
    pub(crate) other_firsts: &'p [u32],
    /// For each of the part's functions the other part's that is called in its place; an empty list where there is none at all.
    pub(crate) goals: &'p [Option<u32>],
}

impl<'p> Numbers<'p> {
    /// The other part's function that is called in place of one.
    fn goal(&self, function: usize) -> Option<u32>
        ensures { result ≡ goal_in self.now.goals.now function }
    {
        match self.goals.get(function) {
            Some(goal) => *goal,
            None => None,
        }
    }

    /// The function that is called where the part calls that one.
    fn callee(&self, function: u32) -> u32
        requires numbers { AreNumbers self.now }
        requires fits { self.now.shift.functions + function < 2 ^ 32 }
        ensures { result ≡ (numbers_by self.now).callee function }
    {
        match self.goal(function as usize) {
            Some(callee) => self.other_shift.functions + callee,
            None => self.shift.functions + function,
        }
    }

    /// The variable that is written where the part writes that one.
    fn written(&self, x: Var) -> Var
        requires { IsSmall self.now.shift x.0 }
        ensures { result.0 ≡ moved_var self.now.shift self.now.part.now x.0 }
    {
        Var(moved_var(self.shift, self.part, x.0))
    }

    /// The variable that is read where the part reads that one.
    fn read(&self, x: Var) -> Var
        requires numbers { AreNumbers self.now }
        requires small { IsSmall self.now.shift x.0 }
        ensures { result.0 ≡ (numbers_by self.now).read x.0 }
    {
        match owner_among(self.firsts, x.0) {
            Some(owner) => self.read_of(owner, x),
            None => self.written(x),
        }
    }

    /// The variable that is read where the part reads that one of a function: of a function that goes to the other part a result is the
    /// other part's.
    fn read_of(&self, owner: usize, x: Var) -> Var
        requires numbers { AreNumbers self.now }
        requires small { IsSmall self.now.shift x.0 }
        requires exists { owner < length self.now.part.now.functions }
        requires own { IsOwn self.now.part.now owner x.0 }
        ensures { result.0 ≡ (numbers_by self.now).read x.0 }
    {
        let function = &self.part.functions.as_slice()[owner];
        let Some(index) = result_index(function, x.0 - self.firsts[owner]) else {
            return self.written(x);
        };
        let Some(callee) = self.goal(owner) else {
            return self.written(x);
        };
        self.result_of(callee as usize, index)
    }

    /// The other part's result of a function where that part stands.
    fn result_of(&self, callee: usize, index: u32) -> Var
        requires numbers { AreNumbers self.now }
        requires exists { callee < length self.now.other.now.functions }
        requires few { index ≤ first_of self.now.part.now (length self.now.part.now.functions) }
        ensures { result.0 ≡ moved_var self.now.other_shift self.now.other.now (result_at self.now.other.now callee index) }
    {
        let params = self.other.functions.as_slice()[callee].params.len() as u32;
        let x = self.other_firsts[callee] + params + index;
        Var(moved_var(self.other_shift, self.other, x))
    }

    /// The operand that stands for the part's.
    fn operand(&self, operand: Operand) -> Operand
        requires numbers { AreNumbers self.now }
        requires small { IsSmallOperand self.now.shift operand }
        ensures { result ≡ operand_by (numbers_by self.now).read operand }
    {
        match operand {
            Operand::Var(x) => Operand::Var(self.read(x)),
            Operand::Const(number) => Operand::Const(number),
        }
    }

    /// The command that stands for the part's.
    fn command(&self, command: Command) -> Command
        requires numbers { AreNumbers self.now }
        requires small { IsMovable self.now.shift command }
        ensures { result ≡ renamed (numbers_by self.now) command }
    {
        match command {
            Command::Set {
                mark,
                op,
                to,
                a,
                b,
                c,
            } => self.set(mark, op, to, a, b, c),
            Command::Load {
                mark,
                kind,
                memory,
                to,
                offset,
                address,
            } => self.load(mark, kind, memory, to, offset, address),
            Command::Store {
                kind,
                memory,
                offset,
                address,
                value,
            } => self.store(kind, memory, offset, address, value),
            Command::Test { cond, yes, no } => self.test(cond, yes, no),
            Command::Jump { to } => self.jump(to),
            Command::Arg {
                mark,
                function,
                index,
                value,
            } => self.argument(mark, function, index, value),
            Command::Call { function } => self.call(function),
            Command::Out { mark, index, value } => self.output(mark, index, value),
            Command::Ret => Command::Ret,
            Command::Trap { kind } => Command::Trap { kind },
        }
    }

    /// The Set that stands for the part's.
    fn set(&self, mark: Mark, op: Op, to: Var, a: Operand, b: Operand, c: Operand) -> Command
        requires numbers { AreNumbers self.now }
        requires small { IsMovable self.now.shift (Set mark op to a b c) }
        ensures { result ≡ renamed (numbers_by self.now) (Set mark op to a b c) }
    {
        Command::Set {
            mark,
            op,
            to: self.written(to),
            a: self.operand(a),
            b: self.operand(b),
            c: self.operand(c),
        }
    }

    /// The Load that stands for the part's.
    fn load(
        &self,
        mark: Mark,
        kind: AccessKind,
        memory: u32,
        to: Var,
        offset: u32,
        address: Operand,
    ) -> Command
        requires numbers { AreNumbers self.now }
        requires small { IsMovable self.now.shift (Load mark kind memory to offset address) }
        ensures { result ≡ renamed (numbers_by self.now) (Load mark kind memory to offset address) }
    {
        Command::Load {
            mark,
            kind,
            memory: self.shift.memories + memory,
            to: self.written(to),
            offset,
            address: self.operand(address),
        }
    }

    /// The Store that stands for the part's.
    fn store(
        &self,
        kind: AccessKind,
        memory: u32,
        offset: u32,
        address: Operand,
        value: Operand,
    ) -> Command
        requires numbers { AreNumbers self.now }
        requires small { IsMovable self.now.shift (Store kind memory offset address value) }
        ensures { result ≡ renamed (numbers_by self.now) (Store kind memory offset address value) }
    {
        Command::Store {
            kind,
            memory: self.shift.memories + memory,
            offset,
            address: self.operand(address),
            value: self.operand(value),
        }
    }

    /// The Test that stands for the part's.
    fn test(&self, cond: Operand, yes: Pos, no: Pos) -> Command
        requires numbers { AreNumbers self.now }
        requires small { IsMovable self.now.shift (Test cond yes no) }
        ensures { result ≡ renamed (numbers_by self.now) (Test cond yes no) }
    {
        Command::Test {
            cond: self.operand(cond),
            yes: moved_position(self.shift, yes),
            no: moved_position(self.shift, no),
        }
    }

    /// The Jump that stands for the part's.
    fn jump(&self, to: Pos) -> Command
        requires { IsMovable self.now.shift (Jump to) }
        ensures { result ≡ renamed (numbers_by self.now) (Jump to) }
    {
        Command::Jump {
            to: moved_position(self.shift, to),
        }
    }

    /// The Arg that stands for the part's.
    fn argument(&self, mark: Mark, target: u32, index: u32, value: Operand) -> Command
        requires numbers { AreNumbers self.now }
        requires small { IsMovable self.now.shift (Arg mark target index value) }
        ensures { result ≡ renamed (numbers_by self.now) (Arg mark target index value) }
    {
        Command::Arg {
            mark,
            function: self.callee(target),
            index,
            value: self.operand(value),
        }
    }

    /// The Call that stands for the part's.
    fn call(&self, function: u32) -> Command
        requires numbers { AreNumbers self.now }
        requires small { IsMovable self.now.shift (Call function) }
        ensures { result ≡ renamed (numbers_by self.now) (Call function) }
    {
        Command::Call {
            function: self.callee(function),
        }
    }

    /// The Out that stands for the part's.
    fn output(&self, mark: Mark, index: u32, value: Operand) -> Command
        requires numbers { AreNumbers self.now }
        requires small { IsMovable self.now.shift (Out mark index value) }
        ensures { result ≡ renamed (numbers_by self.now) (Out mark index value) }
    {
        Command::Out {
            mark,
            index,
            value: self.operand(value),
        }
    }

    /// Appends the commands that stand for the part's.
    pub(crate) fn push(&self, to: &mut List<Command>, commands: &[Command]) -> Result<(), NoMemory>
        requires numbers { AreNumbers self.now }
        requires small { All (IsMovable self.now.shift) commands.now }
        ensures { OnOk result (to.new ≡ to.old ++ map (renamed (numbers_by self.now)) commands.now) }
    {
        for command in commands {
            to.push(self.command(*command))?;
        }
        Ok(())
    }
}

/// The index of a function's result, by that of its variable; None where the variable is no result.
fn result_index(function: &FunctionDef, variable: u32) -> Option<u32>
    ensures { MatchOption result ((length function.now.params ≤ variable) × (variable < length function.now.params + length function.now.results) → ⊥)
        (λ index. (variable ≡ length function.now.params + index) × (index < length function.now.results)) }
{
    let index = (variable as usize).checked_sub(function.params.len())?;
    if index < function.results.len() {
        Some(index as u32)
    } else {
        None
    }
}
