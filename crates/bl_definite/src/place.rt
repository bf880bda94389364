//! A function of a program, and its variables and positions.
ghost use Rattle.std.specs.Prelude.{◌≡◌, ◌<◌, ◌↔◌, ℕ, IsTrue, MatchOption, Some, length, option_map, slice_get, suc};
ghost use Rattle.bl_program.specs.Layout.{command_at, entry_of, first_of, params_of, results_of};
ghost use Rattle.bl_program.specs.Rules.{IsOwn, IsResult};
ghost use Rattle.bl_definite.specs.Facts.{IsKnownAtEntry};
ghost use Rattle.bl_definite.specs.Search.{IsParameter, IsPlace};

use crate::facts::Fact;
use crate::tables::Tables;
use bl_program::{Command, ProgramParts, owner_among};

/// A function of a program.
#[derive(Clone, Copy)]
pub(crate) struct Place<'p> {
    /// The program.
    pub(crate) parts: &'p ProgramParts,
    /// Its tables.
    pub(crate) tables: &'p Tables,
    /// The number of the function.
    pub(crate) function: usize,
}

impl<'p> Place<'p> {
    /// The function's first variable.
    pub(crate) fn first(&self) -> u32
        requires { IsPlace self.now }
        ensures { result ≡ first_of self.now.parts.now self.now.function }
    {
        self.tables.firsts.as_slice()[self.function]
    }

    /// The function's first position.
    pub(crate) fn entry(&self) -> usize
        requires { IsPlace self.now }
        ensures { result ≡ entry_of self.now.parts.now self.now.function }
    {
        self.tables.entries.as_slice()[self.function] as usize
    }

    /// The position behind the function's last one.
    pub(crate) fn end(&self) -> usize
        requires { IsPlace self.now }
        ensures { result ≡ entry_of self.now.parts.now (suc self.now.function) }
    {
        self.tables.entries.as_slice()[self.function + 1] as usize
    }

    /// How many commands the program has.
    pub(crate) fn count(&self) -> usize
        ensures { result ≡ length self.now.parts.now.commands }
    {
        self.parts.commands.len()
    }

    /// The command at the position.
    pub(crate) fn command_at(&self, position: usize) -> Command
        requires { position < length self.now.parts.now.commands }
        ensures { command_at self.now.parts.now position ≡ Some result }
    {
        self.parts.commands.as_slice()[position]
    }

    /// How many parameters a function has that exists.
    fn params_in(&self, function: usize) -> usize
        requires { function < length self.now.parts.now.functions }
        ensures { option_map (λ defined. length defined.params) (slice_get self.now.parts.now.functions function) ≡ Some result }
    {
        self.parts.functions.as_slice()[function].params.len()
    }

    /// How many parameters that function has; 0 if it doesn't exist.
    pub(crate) fn params_of(&self, function: usize) -> usize
        ensures { result ≡ params_of self.now.parts.now function }
    {
        if function < self.parts.functions.len() {
            self.params_in(function)
        } else {
            0
        }
    }

    /// How many results a function has that exists.
    fn results_in(&self, function: usize) -> usize
        requires { function < length self.now.parts.now.functions }
        ensures { option_map (λ defined. length defined.results) (slice_get self.now.parts.now.functions function) ≡ Some result }
    {
        self.parts.functions.as_slice()[function].results.len()
    }

    /// How many results that function has; 0 if it doesn't exist.
    pub(crate) fn results_of(&self, function: usize) -> usize
        ensures { result ≡ results_of self.now.parts.now function }
    {
        if function < self.parts.functions.len() {
            self.results_in(function)
        } else {
            0
        }
    }

    /// The function whose variable that is; None where it is no function's.
    pub(crate) fn owner_of(&self, x: u32) -> Option<usize>
        requires { IsPlace self.now }
        ensures { MatchOption result ((any : ℕ) → IsOwn self.now.parts.now any x → ⊥)
            (λ owner. (owner < length self.now.parts.now.functions) × IsOwn self.now.parts.now owner x) }
    {
        owner_among(self.tables.firsts.as_slice(), x)
    }

    /// Whether the variable is a result of that function, whose variable it is.
    pub(crate) fn is_result_of(&self, owner: usize, x: u32) -> bool
        requires place { IsPlace self.now }
        requires own { IsOwn self.now.parts.now owner x }
        requires exists { owner < length self.now.parts.now.functions }
        ensures { IsTrue result ↔ IsResult self.now.parts.now owner x }
    {
        let behind = (x - self.tables.firsts.as_slice()[owner]) as usize;
        let params = self.params_of(owner);
        params <= behind && behind - params < self.results_of(owner)
    }

    /// Whether the fact is true at the function's entry.
    pub(crate) fn is_known(&self, fact: Fact) -> bool
        requires { IsPlace self.now }
        ensures { IsTrue result ↔ IsKnownAtEntry self.now.parts.now self.now.function fact }
    {
        match fact {
            Fact::Own(x) => self.is_param(x),
            _ => false,
        }
    }

    /// Whether the variable is one of the function's parameters.
    fn is_param(&self, x: u32) -> bool
        requires { IsPlace self.now }
        ensures { IsTrue result ↔ IsParameter self.now.parts.now self.now.function x }
    {
        let first = self.first();
        first <= x && ((x - first) as usize) < self.params_of(self.function)
    }
}
