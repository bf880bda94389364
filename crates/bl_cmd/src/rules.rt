//! The rules on one command: which variables it may name, where it may go, whether the numbers that it names are in range, and
//! what has to stand before an access and before a write of a size.
ghost use Rattle.std.specs.Prelude.{◌≡◌, ◌≢◌, ◌<◌, ◌≤◌, ◌+◌, ◌↔◌, ℕ, suc, IfSome, IsTrue, MatchOption, Some, length};
ghost use Rattle.bl_program.specs.{Layout.entry_of, Sites.Among, declared.command.Mark.Mark};
ghost use Rattle.bl_cmd.specs.Verdicts.{BreaksRule, KeepsRules};
ghost use Rattle.bl_program.specs.Rules.{GoesTo, IsGrowth, IsReadable, IsSum, IsTested, IsWritable, Leaves, Rule4, Rule5, Rule6, Rule7, Rule8, assign, assigned_by, branch, operands_of};
ghost use Rattle.bl_cmd.specs.Tables.{HasTargets, IsApart, IsGrownAlone, IsGrownBy, IsPlace, IsTarget, IsTestedBy, ReadsEach};

use crate::place::Place;
use bl_base::{Pos, Var};
use bl_ops::Op;
use bl_program::{Command, Mark, Operand};

/// The number of the first of rules 4 to 8 that the command at the place breaks; None where it keeps them.
pub(crate) fn broken_rule(place: &Place, command: Command) -> Option<u8>
    requires { IsPlace place.now }
    ensures { MatchOption result (KeepsRules place.now.parts.now place.now.function place.now.position command)
        (BreaksRule place.now.parts.now place.now.function place.now.position command) }
{
    if !keeps_variables(place, command) {
        return Some(4);
    }
    if !keeps_targets(place, command) {
        return Some(5);
    }
    if !keeps_ranges(place, command) {
        return Some(6);
    }
    if !keeps_access(place, command) {
        return Some(7);
    }
    if !keeps_growth(place, command) {
        return Some(8);
    }
    None
}

/// Whether the command reads and writes only variables that it may.
fn keeps_variables(place: &Place, command: Command) -> bool
    requires { IsPlace place.now }
    ensures { IsTrue result ↔ Rule4 place.now.parts.now place.now.function command }
{
    may_read(place, command) && may_write(place, command)
}

/// Whether the command reads only variables that it may.
fn may_read(place: &Place, command: Command) -> bool
    requires { IsPlace place.now }
    ensures { IsTrue result ↔ ((x : ℕ) → Among (operands_of command) x → IsReadable place.now.parts.now place.now.function x) }
{
    reads_all(place, command)
}

/// Whether each operand of the command is a constant or a variable that it may read.
fn reads_all(place: &Place, command: Command) -> bool
    requires { IsPlace place.now }
    ensures { IsTrue result ↔ ReadsEach place.now (operands_of command) }
{
    match command {
        Command::Set { a, b, c, .. } => place.reads(a) && place.reads(b) && place.reads(c),
        Command::Load { address, .. } => place.reads(address),
        Command::Store { address, value, .. } => place.reads(address) && place.reads(value),
        Command::Test { cond, .. } => place.reads(cond),
        Command::Arg { value, .. } | Command::Out { value, .. } => place.reads(value),
        _ => true,
    }
}

/// Whether the command, if it is a Set or a Load, writes a variable that it may.
fn may_write(place: &Place, command: Command) -> bool
    requires { IsPlace place.now }
    ensures { IsTrue result ↔ IfSome (assigned_by command) (IsWritable place.now.parts.now place.now.function) }
{
    match command {
        Command::Set { to, .. } | Command::Load { to, .. } => place.is_writable(to),
        _ => true,
    }
}

/// Whether the command's targets are ones, and whether it may be the last one if it is.
fn keeps_targets(place: &Place, command: Command) -> bool
    requires { IsPlace place.now }
    ensures { IsTrue result ↔ Rule5 place.now.parts.now place.now.function place.now.position command }
{
    may_go(place, command) && may_end(place, command)
}

/// Whether the command goes only to positions that it may.
fn may_go(place: &Place, command: Command) -> bool
    requires { IsPlace place.now }
    ensures { IsTrue result ↔ ((target : ℕ) → GoesTo command target → IsTarget place.now target) }
{
    has_targets(place, command)
}

/// Whether each target of the command is one.
fn has_targets(place: &Place, command: Command) -> bool
    requires { IsPlace place.now }
    ensures { IsTrue result ↔ HasTargets place.now command }
{
    match command {
        Command::Test { yes, no, .. } => place.is_target(yes) && place.is_target(no),
        Command::Jump { to } => place.is_target(to),
        _ => true,
    }
}

/// Whether the command, if it is the function's last one, may be that.
fn may_end(place: &Place, command: Command) -> bool
    requires { IsPlace place.now }
    ensures { IsTrue result ↔ (suc place.now.position ≡ entry_of place.now.parts.now (suc place.now.function) → Leaves command) }
{
    match command {
        Command::Test { .. } | Command::Jump { .. } | Command::Ret | Command::Trap { .. } => true,
        _ => !place.is_last(),
    }
}

/// Whether the functions, indices and memories that the command names are in range, and its mark is one.
fn keeps_ranges(place: &Place, command: Command) -> bool
    requires { IsPlace place.now }
    ensures { IsTrue result ↔ Rule6 place.now.parts.now place.now.function command }
{
    match command {
        Command::Set { mark, .. } => is_mark(mark),
        Command::Load { mark, memory, .. } => is_mark(mark) && place.has_memory(memory),
        Command::Store { memory, .. } => place.has_memory(memory),
        Command::Arg {
            mark,
            function,
            index,
            ..
        } => is_mark(mark) && place.has_param(function, index),
        Command::Call { function } => place.has_function(function),
        Command::Out { mark, index, .. } => is_mark(mark) && place.has_result(index),
        _ => true,
    }
}

/// Whether the mark's depth is one.
fn is_mark(mark: Mark) -> bool
    ensures { IsTrue result ↔ (mark.depth ≤ 6) }
{
    mark.depth <= 6
}

/// Whether the command, if it is an access, stands behind its test.
fn keeps_access(place: &Place, command: Command) -> bool
    requires place { IsPlace place.now }
    requires ranges { Rule6 place.now.parts.now place.now.function command }
    ensures { IsTrue result ↔ Rule7 place.now.parts.now place.now.function place.now.position command }
{
    match command {
        Command::Load {
            kind,
            memory,
            offset,
            address,
            ..
        }
        | Command::Store {
            kind,
            memory,
            offset,
            address,
            ..
        } => {
            let bytes = u64::from(offset) + u64::from(kind.width());
            is_tested(place, address, memory, bytes)
        }
        _ => true,
    }
}

/// Whether the access at the place, to bytes of the memory that end so far behind the address, stands behind its test.
fn is_tested(place: &Place, address: Operand, memory: u32, bytes: u64) -> bool
    requires place { IsPlace place.now }
    requires exists { memory < length place.now.parts.now.memories }
    ensures { IsTrue result ↔ IsTested place.now.parts.now place.now.function place.now.position (record { address = address; memory = memory; bytes = bytes }) }
{
    if !place.is_behind(2) {
        return false;
    }
    let size = place.size_of(memory);
    let set = place.before(2);
    let Some(t) = assigned(set, Op::Outside, address, size, Operand::Const(bytes)) else {
        return false;
    };
    let Some(yes) = branched(place.before(1), t, place.position) else {
        return false;
    };
    is_tested_by(place, address, t, yes)
}

/// Whether the variable of a test and the other ways to it and to its access are as they have to be.
fn is_tested_by(place: &Place, address: Operand, t: Var, yes: Pos) -> bool
    requires place { IsPlace place.now }
    requires behind { entry_of place.now.parts.now place.now.function + 2 ≤ place.now.position }
    ensures { IsTrue result ↔ IsTestedBy place.now address t.0 yes.0 }
{
    place.is_local(t.0)
        && address != Operand::Var(t)
        && yes.0 as usize != place.position
        && place.is_passed(1)
        && place.is_guarded(0)
}

/// Whether the command, if it writes a size, is the last one of a growth.
fn keeps_growth(place: &Place, command: Command) -> bool
    requires { IsPlace place.now }
    ensures { IsTrue result ↔ Rule8 place.now.parts.now place.now.function place.now.position command }
{
    match command {
        Command::Set {
            op,
            to,
            a,
            b,
            c,
            ..
        } => match place.memory_of(to) {
            Some(memory) => is_grown(place, memory, op, a, b, c),
            None => true,
        },
        Command::Load { to, .. } => place.memory_of(to).is_none(),
        _ => true,
    }
}

/// Whether the Set at the place, of the memory's size to what the operator makes of the operands, is the last command of a growth.
fn is_grown(place: &Place, memory: u32, op: Op, a: Operand, b: Operand, c: Operand) -> bool
    requires place { IsPlace place.now }
    requires exists { memory < length place.now.parts.now.memories }
    ensures { IsTrue result ↔ IsSum place.now.parts.now memory op a c × IsGrowth place.now.parts.now place.now.function place.now.position memory b }
{
    is_sum(place, memory, op, a, c) && place.is_behind(4) && is_growth(place, memory, b)
}

/// Whether the operator adds something to the memory's size.
fn is_sum(place: &Place, memory: u32, op: Op, a: Operand, c: Operand) -> bool
    requires place { IsPlace place.now }
    requires exists { memory < length place.now.parts.now.memories }
    ensures { IsTrue result ↔ IsSum place.now.parts.now memory op a c }
{
    op == Op::I32Add && a == place.size_of(memory) && c == Operand::Const(0)
}

/// Whether the place is behind the first four commands of a growth of the memory by that delta.
fn is_growth(place: &Place, memory: u32, delta: Operand) -> bool
    requires place { IsPlace place.now }
    requires exists { memory < length place.now.parts.now.memories }
    requires behind { entry_of place.now.parts.now place.now.function + 4 ≤ place.now.position }
    ensures { IsTrue result ↔ IsGrowth place.now.parts.now place.now.function place.now.position memory delta }
{
    let size = place.size_of(memory);
    let zero = Operand::Const(0);
    let reserve = Operand::Const(place.reserve_of(memory));
    let Some(r) = assigned(place.before(4), Op::I32Sub, reserve, size, zero) else {
        return false;
    };
    let Some(t) = assigned(place.before(3), Op::I32GtU, delta, Operand::Var(r), zero) else {
        return false;
    };
    let Some(yes) = branched(place.before(2), t, place.position - 1) else {
        return false;
    };
    let Some(v) = assigned(place.before(1), Op::Move, size, zero, zero) else {
        return false;
    };
    is_grown_by(place, delta, r, t, v, yes)
}

/// Whether the variables of a growth and the other ways to its commands are as they have to be.
fn is_grown_by(place: &Place, delta: Operand, r: Var, t: Var, v: Var, yes: Pos) -> bool
    requires place { IsPlace place.now }
    requires behind { entry_of place.now.parts.now place.now.function + 4 ≤ place.now.position }
    ensures { IsTrue result ↔ IsGrownBy place.now delta r.0 t.0 v.0 yes.0 }
{
    is_apart(place, delta, r)
        && is_apart(place, delta, t)
        && is_apart(place, delta, v)
        && is_grown_alone(place, yes)
}

/// Whether the variable is one of the function's that isn't a result, and isn't the operand.
fn is_apart(place: &Place, operand: Operand, x: Var) -> bool
    requires { IsPlace place.now }
    ensures { IsTrue result ↔ IsApart place.now operand x.0 }
{
    place.is_local(x.0) && operand != Operand::Var(x)
}

/// Whether the other ways to the last four commands of a growth are as they have to be.
fn is_grown_alone(place: &Place, yes: Pos) -> bool
    requires place { IsPlace place.now }
    requires behind { entry_of place.now.parts.now place.now.function + 4 ≤ place.now.position }
    ensures { IsTrue result ↔ IsGrownAlone place.now yes.0 }
{
    yes.0 as usize != place.position - 1
        && place.is_passed(3)
        && place.is_passed(2)
        && place.is_guarded(1)
        && place.is_passed(0)
}

/// The variable that the command sets to what that operator makes of those operands; None where it does something else.
fn assigned(command: Command, op: Op, a: Operand, b: Operand, c: Operand) -> Option<Var>
    ensures { MatchOption result ((mark : Mark) (to : ℕ) → Some command ≡ assign mark op to a b c → ⊥)
        (λ to. (mark : Mark) × (Some command ≡ assign mark op to.0 a b c)) }
{
    match command {
        Command::Set {
            op: operator,
            to,
            a: first,
            b: second,
            c: third,
            ..
        } => {
            if is_operator(operator, op)
                && is_same(first, a)
                && is_same(second, b)
                && is_same(third, c)
            {
                Some(to)
            } else {
                None
            }
        }
        _ => None,
    }
}

/// Whether two operators are equal.
fn is_operator(one: Op, other: Op) -> bool
    ensures { IsTrue result ↔ (one ≡ other) }
{
    one == other
}

/// Whether two operands are equal.
fn is_same(one: Operand, other: Operand) -> bool
    ensures { IsTrue result ↔ (one ≡ other) }
{
    one == other
}

/// Where the command goes if the variable isn't 0, while it goes to that other position if it is; None where it does something
/// else.
fn branched(command: Command, x: Var, other: usize) -> Option<Pos>
    ensures { MatchOption result ((yes : ℕ) → Some command ≡ branch x.0 yes other → ⊥)
        (λ yes. Some command ≡ branch x.0 yes.0 other) }
{
    match command {
        Command::Test { cond, yes, no } => {
            if cond == Operand::Var(x) && no.0 as usize == other {
                Some(yes)
            } else {
                None
            }
        }
        _ => None,
    }
}
