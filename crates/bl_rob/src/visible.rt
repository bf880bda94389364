//! What is visible behind entries of the buffer.
ghost use Rattle.std.specs.Prelude.{◌≡◌, ◌≤◌, length};
ghost use Rattle.bl_seq.specs.RegisterTrees.{register_at};
ghost use Rattle.bl_rob.specs.LastWriters.{is_target, target_of, value_of};
ghost use Rattle.bl_rob.specs.Machines.{guards, has_guard, has_store, is_at, is_guard, visible, visible_of};

use crate::entry::{Entry, Register, Source, Work};
use bl_seq::Registers;

impl Register {
    /// Whether it is the other one.
    fn is(self, x: Register) -> bool
        ensures { result ≡ is_at self x.depth x.var }
    {
        x.depth == self.depth && x.var == self.var
    }
}

impl Work {
    /// Whether it writes a register.
    fn writes(&self, x: Register) -> bool
        ensures { result ≡ is_target (target_of self.now) x }
    {
        match self {
            Work::Assign { to, .. }
            | Work::Load { to, .. }
            | Work::Held { to, .. }
            | Work::Done { to, .. } => to.is(x),
            _ => false,
        }
    }

    /// Its value, where it is done; a held one isn't.
    fn value(&self) -> Option<u64>
        ensures { result ≡ value_of self.now }
    {
        match self {
            Work::Done { value, .. } => Some(*value),
            _ => None,
        }
    }

    /// Whether it is a guess that wasn't judged yet.
    fn is_guard(&self) -> bool
        ensures { result ≡ is_guard self.now }
    {
        matches!(self, Work::Guard { .. })
    }
}

/// The value of a register behind these entries, where it is visible: the last one that writes it decides, and none before it is looked at.
pub fn visible(registers: &Registers, entries: &[Entry], x: Register) -> Option<u64>
    ensures { result ≡ visible (λ depth v. register_at registers.now depth v) entries.now x }
{
    let mut left = entries.len();
    while left > 0 {
        left -= 1;
        let entry = &entries[left];
        if entry.work.writes(x) {
            return entry.work.value();
        }
    }
    Some(registers.at(x.depth as usize, x.var))
}

/// The value of a source behind these entries, where it is visible.
pub fn visible_of(registers: &Registers, entries: &[Entry], source: Source) -> Option<u64>
    ensures { result ≡ visible_of (λ depth v. register_at registers.now depth v) entries.now source }
{
    match source {
        Source::Const(number) => Some(number),
        Source::Holds(x) => visible(registers, entries, x),
    }
}

/// Whether a store is among these entries.
pub fn has_store(entries: &[Entry]) -> bool
    ensures { result ≡ has_store entries.now }
{
    for entry in entries {
        if matches!(entry.work, Work::Store { .. } | Work::Ready { .. }) {
            return true;
        }
    }
    false
}

/// Whether a guard is among these entries.
pub fn has_guard(entries: &[Entry]) -> bool
    ensures { result ≡ has_guard entries.now }
{
    for entry in entries {
        if entry.work.is_guard() {
            return true;
        }
    }
    false
}

/// The guards among these entries: bit i says that the one at place i is a guard.
pub fn guards(entries: &[Entry]) -> u64
    requires { length entries.now ≤ 64 }
    ensures { result ≡ guards entries.now }
{
    let mut mask = 0;
    let mut left = entries.len();
    while left > 0 {
        left -= 1;
        mask = 2 * mask + u64::from(entries[left].work.is_guard());
    }
    mask
}
