//! A command's place in its program, and what is asked of the numbers that it names there.
ghost use Rattle.std.specs.Prelude.{◌≡◌, ◌≤◌, ◌<◌, ◌+◌, ◌-◌, ◌↔◌, ℕ, IsTrue, MatchOption, Some, length, option_map, suc, slice_get};
ghost use Rattle.bl_program.specs.Layout.{entry_of, first_of, params_of, results_of, size_of, statics, Holds};
ghost use Rattle.bl_program.specs.Rules.{IsGuarded, IsLocal, IsOwn, IsPassed, IsReadable, IsResult, IsWritable, variable};
ghost use Rattle.bl_cmd.specs.Tables.{IsPlace, IsTarget, ReadsOne};

use crate::tables::{Entrants, Tables};
use bl_base::{Pos, Var};
use bl_program::{Command, FIRST_ENTRY, FunctionDef, Operand, ProgramParts, owner_among};

/// A position of a function of a program.
#[derive(Clone, Copy)]
pub(crate) struct Place<'p> {
    /// The program.
    pub(crate) parts: &'p ProgramParts,
    /// Its tables.
    pub(crate) tables: &'p Tables,
    /// The number of the function.
    pub(crate) function: usize,
    /// The position.
    pub(crate) position: usize,
}

impl<'p> Place<'p> {
    /// The first variable of a function; the number of all variables behind the last one.
    fn first_of(&self, function: usize) -> u32
        requires place { IsPlace self.now }
        requires exists { function ≤ length self.now.parts.now.functions }
        ensures { result ≡ first_of self.now.parts.now function }
    {
        self.tables.firsts.as_slice()[function]
    }

    /// The entry of a function; the number of all commands behind the last one.
    fn entry_of(&self, function: usize) -> u32
        requires place { IsPlace self.now }
        requires exists { function ≤ length self.now.parts.now.functions }
        ensures { result ≡ entry_of self.now.parts.now function }
    {
        self.tables.entries.as_slice()[function]
    }

    /// The memory whose size that variable is, by its number; None where it is no size.
    pub(crate) fn memory_of(&self, x: Var) -> Option<u32>
        requires { IsPlace self.now }
        ensures { MatchOption result ((memory : ℕ) → memory < length self.now.parts.now.memories → x.0 ≡ size_of self.now.parts.now memory → ⊥)
            (λ memory. (memory < length self.now.parts.now.memories) × (x.0 ≡ size_of self.now.parts.now memory)) }
    {
        let globals = self.parts.globals.len() as u32;
        if globals <= x.0 && x.0 < self.first_of(0) {
            Some(x.0 - globals)
        } else {
            None
        }
    }

    /// The variable of a memory's size, in pages.
    pub(crate) fn size_of(&self, memory: u32) -> Operand
        requires place { IsPlace self.now }
        requires exists { memory < length self.now.parts.now.memories }
        ensures { result ≡ variable (size_of self.now.parts.now memory) }
    {
        Operand::Var(Var(self.parts.globals.len() as u32 + memory))
    }

    /// Whether the variable is no function's.
    fn is_static(&self, x: u32) -> bool
        requires { IsPlace self.now }
        ensures { IsTrue result ↔ (x < statics self.now.parts.now) }
    {
        x < self.first_of(0)
    }

    /// Whether the variable is one of the function's.
    fn is_own(&self, x: u32) -> bool
        requires { IsPlace self.now }
        ensures { IsTrue result ↔ IsOwn self.now.parts.now self.now.function x }
    {
        self.first_of(self.function) <= x && x < self.first_of(self.function + 1)
    }

    /// Whether the variable is a result of that function.
    fn is_result_of(&self, function: usize, x: u32) -> bool
        requires place { IsPlace self.now }
        requires exists { function < length self.now.parts.now.functions }
        ensures { IsTrue result ↔ IsResult self.now.parts.now function x }
    {
        let first = self.first_of(function);
        first <= x
            && is_result(
                &self.parts.functions.as_slice()[function],
                (x - first) as usize,
            )
    }

    /// The function whose variable that is; None where it is no function's.
    fn owner_of(&self, x: u32) -> Option<usize>
        requires { IsPlace self.now }
        ensures { MatchOption result ((any : ℕ) → IsOwn self.now.parts.now any x → ⊥)
            (λ owner. (owner < length self.now.parts.now.functions) × IsOwn self.now.parts.now owner x) }
    {
        owner_among(self.tables.firsts.as_slice(), x)
    }

    /// Whether the variable is a result of any function.
    fn is_any_result(&self, x: u32) -> bool
        requires { IsPlace self.now }
        ensures { IsTrue result ↔ ((any : ℕ) × IsResult self.now.parts.now any x) }
    {
        match self.owner_of(x) {
            Some(owner) => self.is_result_of(owner, x),
            None => false,
        }
    }

    /// Whether the variable is one of the function's and isn't a result.
    pub(crate) fn is_local(&self, x: u32) -> bool
        requires { IsPlace self.now }
        ensures { IsTrue result ↔ IsLocal self.now.parts.now self.now.function x }
    {
        self.is_own(x) && !self.is_result_of(self.function, x)
    }

    /// Whether the function's commands may write the variable by Set or Load.
    pub(crate) fn is_writable(&self, x: Var) -> bool
        requires { IsPlace self.now }
        ensures { IsTrue result ↔ IsWritable self.now.parts.now self.now.function x.0 }
    {
        self.is_static(x.0) || self.is_local(x.0)
    }

    /// Whether the function's commands may read the variable.
    fn is_readable(&self, x: u32) -> bool
        requires { IsPlace self.now }
        ensures { IsTrue result ↔ IsReadable self.now.parts.now self.now.function x }
    {
        self.is_static(x) || self.is_own(x) || self.is_any_result(x)
    }

    /// Whether the function's commands may have the operand.
    pub(crate) fn reads(&self, operand: Operand) -> bool
        requires { IsPlace self.now }
        ensures { IsTrue result ↔ ReadsOne self.now operand }
    {
        match operand {
            Operand::Var(x) => self.is_readable(x.0),
            Operand::Const(_) => true,
        }
    }

    /// Whether there is a memory of that number.
    pub(crate) fn has_memory(&self, memory: u32) -> bool
        ensures { IsTrue result ↔ (memory < length self.now.parts.now.memories) }
    {
        (memory as usize) < self.parts.memories.len()
    }

    /// The most pages that a memory grows to.
    pub(crate) fn reserve_of(&self, memory: u32) -> u64
        requires { memory < length self.now.parts.now.memories }
        ensures { option_map (λ defined. defined.reserve) (slice_get self.now.parts.now.memories memory) ≡ Some result }
    {
        u64::from(self.parts.memories.as_slice()[memory as usize].reserve)
    }

    /// Whether there is a function of that number.
    pub(crate) fn has_function(&self, function: u32) -> bool
        ensures { IsTrue result ↔ (function < length self.now.parts.now.functions) }
    {
        (function as usize) < self.parts.functions.len()
    }

    /// Whether there is a function of that number with a parameter of that index.
    pub(crate) fn has_param(&self, function: u32, index: u32) -> bool
        ensures { IsTrue result ↔ (function < length self.now.parts.now.functions) × (index < params_of self.now.parts.now function) }
    {
        match self.parts.functions.as_slice().get(function as usize) {
            Some(defined) => (index as usize) < defined.params.len(),
            None => false,
        }
    }

    /// Whether the function has a result of that index.
    pub(crate) fn has_result(&self, index: u32) -> bool
        ensures { IsTrue result ↔ (index < results_of self.now.parts.now self.now.function) }
    {
        match self.parts.functions.as_slice().get(self.function) {
            Some(defined) => (index as usize) < defined.results.len(),
            None => false,
        }
    }

    /// Whether the position is one of the function's.
    fn holds(&self, position: u32) -> bool
        requires { IsPlace self.now }
        ensures { IsTrue result ↔ Holds self.now.parts.now self.now.function position }
    {
        self.entry_of(self.function) <= position && position < self.entry_of(self.function + 1)
    }

    /// Whether the function's commands may go to the position.
    pub(crate) fn is_target(&self, to: Pos) -> bool
        requires { IsPlace self.now }
        ensures { IsTrue result ↔ IsTarget self.now to.0 }
    {
        to.0 < FIRST_ENTRY || self.holds(to.0)
    }

    /// Whether the position is the function's last one.
    pub(crate) fn is_last(&self) -> bool
        requires { IsPlace self.now }
        ensures { IsTrue result ↔ (suc self.now.position ≡ entry_of self.now.parts.now (suc self.now.function)) }
    {
        self.position + 1 == self.entry_of(self.function + 1) as usize
    }

    /// Whether so many positions of the function stand before this one.
    pub(crate) fn is_behind(&self, count: usize) -> bool
        requires place { IsPlace self.now }
        requires few { count ≤ 4 }
        ensures { IsTrue result ↔ (entry_of self.now.parts.now self.now.function + count ≤ self.now.position) }
    {
        self.entry_of(self.function) as usize + count <= self.position
    }

    /// The command so many positions before this one.
    pub(crate) fn before(&self, count: usize) -> Command
        requires place { IsPlace self.now }
        requires within { count ≤ self.now.position }
        ensures { slice_get self.now.parts.now.commands (self.now.position - count) ≡ Some result }
    {
        self.parts.commands.as_slice()[self.position - count]
    }

    /// Who goes to the position so many before this one.
    fn entrants_of(&self, count: usize) -> Option<Entrants>
        requires place { IsPlace self.now }
        requires within { count ≤ self.now.position }
        ensures { slice_get self.now.tables.now.entrants (self.now.position - count) ≡ Some result }
    {
        self.tables.entrants.as_slice()[self.position - count]
    }

    /// Whether nobody goes to the position so many before this one, which is behind the function's entry, but by going on.
    pub(crate) fn is_passed(&self, count: usize) -> bool
        requires place { IsPlace self.now }
        requires inside { entry_of self.now.parts.now self.now.function + count < self.now.position }
        ensures { IsTrue result ↔ IsPassed self.now.parts.now (self.now.position - count) }
    {
        self.entrants_of(count).is_none()
    }

    /// Whether only the command before goes to the position so many before this one, which is behind the function's entry.
    pub(crate) fn is_guarded(&self, count: usize) -> bool
        requires place { IsPlace self.now }
        requires inside { entry_of self.now.parts.now self.now.function + count < self.now.position }
        ensures { IsTrue result ↔ IsGuarded self.now.parts.now (self.now.position - count - 1) (self.now.position - count) }
    {
        match self.entrants_of(count) {
            Some(entrants) => {
                let before = self.position - count - 1;
                entrants.least as usize == before && entrants.greatest as usize == before
            }
            None => true,
        }
    }
}

/// Whether the variable of that index is one of the function's results.
fn is_result(function: &FunctionDef, index: usize) -> bool
    ensures { IsTrue result ↔ (length function.now.params ≤ index) × (index < length function.now.params + length function.now.results) }
{
    let params = function.params.len();
    params <= index && index - params < function.results.len()
}
