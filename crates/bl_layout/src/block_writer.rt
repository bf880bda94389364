//! The instructions of one command.
ghost use Rattle.std.specs.Prelude.{◌≡◌, ◌+◌, ◌≤◌, ◌<◌, ◌↔◌, ◌++◌, ℕ, IfOk, IsTrue, OnOk, Some, length, slice_index};
ghost use Rattle.bl_program.specs.{Layout.base, Layout.command_at, Rules.GoesTo};
ghost use Rattle.bl_layout.specs.Blocks.{AreWritable, IsWritable, IsWritten, block_at, block_of};
ghost use Rattle.bl_layout.specs.Slots.{AreFew, placing_in};
ghost use Rattle.bl_seq.specs.Layouts.{IsLayout};

use crate::slots::Slots;
use bl_base::{NoMemory, Pos};
use bl_program::{Command, FIRST_ENTRY};
use bl_select::{push_jump, push_load, push_set, push_store, push_test};
use bl_seq::Layout;
use bl_x64::Instruction;

/// Whether a command has a template, and names only globals, sizes and variables of its function.
fn is_written(slots: Slots, command: Command) -> bool
    ensures { IsTrue result ↔ IsWritten slots command }
{
    match command {
        Command::Set { to, a, b, c, .. } => {
            slots.is_alive(to) && slots.is_source(a) && slots.is_source(b) && slots.is_source(c)
        }
        Command::Load { to, address, .. } => slots.is_alive(to) && slots.is_source(address),
        Command::Store { address, value, .. } => slots.is_source(address) && slots.is_source(value),
        Command::Test { cond, .. } => slots.is_source(cond),
        Command::Jump { .. } => true,
        _ => false,
    }
}

/// Whether the command at a position of a function can be written.
pub(crate) fn is_writable(layout: &Layout, position: usize, command: Command) -> bool
    requires { IsLayout layout.now }
    ensures { IsTrue result ↔ IsWritable layout.now.parts.now position command }
{
    let slots = Slots::at(layout, position);
    slots.are_few() && is_written(slots, command)
}

/// The first instruction of a target.
fn target(targets: &[u32], to: Pos) -> u32
    requires { to.0 < length targets.now }
    ensures { result ≡ slice_index targets.now to.0 }
{
    targets[to.0 as usize]
}

/// Appends the instructions of a command. The table has the first instruction of each position.
fn push_block(
    layout: &Layout,
    slots: Slots,
    targets: &[u32],
    command: Command,
    code: &mut Vec<Instruction>,
) -> Result<(), NoMemory>
    requires layout { IsLayout layout.now }
    requires few { AreFew slots }
    requires written { IsWritten slots command }
    requires targets { (to : ℕ) → GoesTo command to → to < length targets.now }
    ensures { OnOk result (code.new.items ≡ code.old.items ++ block_of (placing_in slots) (base layout.now.parts.now) (slice_index targets.now) command) }
{
    match command {
        Command::Set {
            mark,
            op,
            to,
            a,
            b,
            c,
        } => {
            let to = slots.location(to);
            let (a, b, c) = (slots.source(a), slots.source(b), slots.source(c));
            push_set(mark.protect, op, to, a, b, c, code)
        }
        Command::Load {
            mark,
            kind,
            memory,
            to,
            offset,
            address,
        } => {
            let to = slots.location(to);
            let place = layout.base(memory) as u64 + offset as u64;
            push_load(mark.protect, kind, to, place, slots.source(address), code)
        }
        Command::Store {
            kind,
            memory,
            offset,
            address,
            value,
        } => {
            let place = layout.base(memory) as u64 + offset as u64;
            push_store(
                kind,
                place,
                slots.source(address),
                slots.source(value),
                code,
            )
        }
        Command::Test { cond, yes, no } => {
            let (yes, no) = (target(targets, yes), target(targets, no));
            push_test(slots.source(cond), yes, no, code)
        }
        Command::Jump { to } => push_jump(target(targets, to), code),
        _ => Ok(()),
    }
}

/// Appends the instructions of the command at a position. A trap is a jump to itself.
pub(crate) fn push_at(
    layout: &Layout,
    targets: &[u32],
    position: usize,
    command: Command,
    code: &mut Vec<Instruction>,
) -> Result<(), NoMemory>
    requires layout { IsLayout layout.now }
    requires writable { AreWritable layout.now.parts.now }
    requires targets { length targets.now ≡ length layout.now.parts.now.commands + 1 }
    requires there { command_at layout.now.parts.now position ≡ Some command }
    ensures { OnOk result (code.new.items ≡ code.old.items ++ block_at layout.now.parts.now (slice_index targets.now) position command) }
{
    if position < FIRST_ENTRY as usize {
        return push_jump(targets[position], code);
    }
    let slots = Slots::at(layout, position);
    push_block(layout, slots, targets, command, code)
}

/// The number of instructions of the command at a position. The vector is overwritten.
pub(crate) fn count_at(
    layout: &Layout,
    targets: &[u32],
    position: usize,
    command: Command,
    block: &mut Vec<Instruction>,
) -> Result<u32, NoMemory>
    requires layout { IsLayout layout.now }
    requires writable { AreWritable layout.now.parts.now }
    requires targets { length targets.now ≡ length layout.now.parts.now.commands + 1 }
    requires there { command_at layout.now.parts.now position ≡ Some command }
    ensures count { IfOk result (λ count. count ≡ length (block_at layout.now.parts.now (slice_index targets.now) position command)) }
    ensures few { IfOk result (λ count. count ≤ 21) }
{
    block.clear();
    push_at(layout, targets, position, command, block)?;
    let count = block.len();
    prove!(count <= 21);
    Ok(count as u32)
}
