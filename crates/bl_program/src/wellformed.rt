//! Well-formed programs.
ghost use Rattle.std.specs.Prelude.{◌≡◌};
ghost use Rattle.bl_program.specs.{Programs.IsProgram, Rules.IsWellFormed};

use crate::definitions::ProgramParts;
use crate::program::Program;
use std::marker::Model;

/// A program that keeps the nine rules (`IsWellFormed`). Contracts see the program's parts.
#[derive(Debug, Drop)]
pub struct WellFormed {
    program: Program,
}

impl Model for WellFormed {
    ghost use Rattle.bl_program.specs.declared.definitions.ProgramParts.{ProgramParts};

    ghost Value = { ProgramParts };

    ghost use Rattle.bl_program.specs.Rules.{IsWellFormed};

    ghost view = { λ well. well.program };

    ghost invariant = { λ well. IsWellFormed well.program };
}

impl WellFormed {
    /// A program that has been found well-formed; takes no memory.
    pub fn of(program: Program) -> WellFormed
        requires { IsWellFormed program }
        ensures { result ≡ program }
    {
        WellFormed { program }
    }

    /// Parts that are those of a program and keep the rules, as one; takes no memory.
    pub fn from_parts(parts: ProgramParts) -> WellFormed
        requires program { IsProgram parts }
        requires rules { IsWellFormed parts }
        ensures { result ≡ parts }
    {
        WellFormed::of(Program::from_parts(parts))
    }

    /// The program, and that it keeps the rules; takes no memory.
    pub fn program(&self) -> &Program
        ensures same { result.now ≡ self.now }
        ensures rules { IsWellFormed self.now }
    {
        &self.program
    }

    /// The program, given back; takes no memory.
    pub fn into_program(self) -> Program
        ensures same { result ≡ self }
        ensures rules { IsWellFormed result }
    {
        self.program
    }
}
