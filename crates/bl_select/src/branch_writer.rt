//! The instructions of a Test and of a Jump.
ghost use Rattle.std.specs.Prelude.{◌≡◌, ◌++◌, OnOk};
ghost use Rattle.bl_select.specs.Templates.{jump_template, test_template};

use crate::location::Source;
use crate::operands::{load, test_zero};
use bl_base::NoMemory;
use bl_x64::{Condition, Instruction, Register, Size};

/// Appends the instructions of a Test (`test_template`, specs/Templates.antt). The targets are the numbers of instructions.
pub fn push_test(
    condition: Source,
    yes: u32,
    no: u32,
    code: &mut Vec<Instruction>,
) -> Result<(), NoMemory>
    ensures { OnOk result (code.new.items ≡ code.old.items ++ test_template condition yes no) }
{
    code.push(load(Size::Long, Register::Rax, condition))?;
    code.push(test_zero(Size::Long, Register::Rax))?;
    code.push(Instruction::JumpIf {
        condition: Condition::NotEqual,
        to: yes,
    })?;
    code.push(Instruction::Jump { to: no })?;
    Ok(())
}

/// Appends the instruction of a Jump (`jump_template`, specs/Templates.antt). The target is the number of an instruction.
pub fn push_jump(to: u32, code: &mut Vec<Instruction>) -> Result<(), NoMemory>
    ensures { OnOk result (code.new.items ≡ code.old.items ++ jump_template to) }
{
    code.push(Instruction::Jump { to })?;
    Ok(())
}
