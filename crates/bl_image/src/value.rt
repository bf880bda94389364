//! Readers of the small parts of several tables.
ghost use Rattle.std.specs.Prelude.{◌≡◌, ◌≤◌, length, IfSome, [], ◌∷◌};
ghost use Rattle.bl_program.specs.declared.command.Mark.{Mark};
ghost use Rattle.bl_leb.specs.Grammar.{byte};
ghost use Rattle.bl_format.specs.Grammar.{u32};
ghost use Rattle.bl_format.specs.Image.{value_type, label, operand, mark, operator, access, trap_kind};
ghost use Rattle.bl_image.specs.ReaderAnswers.{Finds, Reads};

use crate::error::{Malformed, ReadError};
use crate::read::{Find, Read, read_byte, read_found, read_u32, read_u64};
use bl_base::{Label, Pos, Trap, ValueType, Var};
use bl_ops::{AccessKind, Op, by_image_code};
use bl_program::{Mark, Operand};
use std::alloc::Global;

impl Find for Var {
    ghost spells = { λ x. u32 x.0 };

    fn find(bytes: &[u8], at: usize) -> Result<(Var, usize), Malformed> {
        let (number, place) = read_u32(bytes, at)?;
        Ok((Var(number), place))
    }
}

impl Find for Pos {
    ghost spells = { λ position. u32 position.0 };

    fn find(bytes: &[u8], at: usize) -> Result<(Pos, usize), Malformed> {
        let (number, place) = read_u32(bytes, at)?;
        Ok((Pos(number), place))
    }
}

impl Find for ValueType {
    ghost spells = { value_type };

    fn find(bytes: &[u8], at: usize) -> Result<(ValueType, usize), Malformed> {
        let (code, place) = read_byte(bytes, at)?;
        match code {
            0x7F => Ok((ValueType::I32, place)),
            0x7E => Ok((ValueType::I64, place)),
            _ => Err(Malformed),
        }
    }
}

impl Read for ValueType {
    ghost spells = { value_type };

    fn read(_alloc: Global, bytes: &[u8], at: usize) -> Result<(ValueType, usize), ReadError> {
        read_found(bytes, at)
    }
}

impl Find for Label {
    ghost spells = { label };

    fn find(bytes: &[u8], at: usize) -> Result<(Label, usize), Malformed> {
        let (code, place) = read_byte(bytes, at)?;
        match code {
            0x00 => Ok((Label::Public, place)),
            0x01 => Ok((Label::Secret, place)),
            _ => Err(Malformed),
        }
    }
}

impl Read for Label {
    ghost spells = { label };

    fn read(_alloc: Global, bytes: &[u8], at: usize) -> Result<(Label, usize), ReadError> {
        read_found(bytes, at)
    }
}

impl Find for Operand {
    ghost spells = { operand };

    fn find(bytes: &[u8], at: usize) -> Result<(Operand, usize), Malformed> {
        let (code, place) = read_byte(bytes, at)?;
        match code {
            0x00 => {
                let (number, end) = read_u32(bytes, place)?;
                Ok((Operand::Var(Var(number)), end))
            }
            0x01 => {
                let (number, end) = read_u64(bytes, place)?;
                Ok((Operand::Const(number), end))
            }
            _ => Err(Malformed),
        }
    }
}

/// The mark of that byte; None where the byte is that of none, as where the depth is 7.
fn mark_of(code: u8) -> Option<Mark>
    ensures found { IfSome result (λ one. mark one (code ∷ [])) }
    ensures only { (one : Mark) → mark one (code ∷ []) → result ≡ Some one }
{
    match code {
        0..=6 => Some(Mark {
            depth: code,
            protect: false,
        }),
        8..=14 => Some(Mark {
            depth: code - 8,
            protect: true,
        }),
        _ => None,
    }
}

impl Find for Mark {
    ghost spells = { mark };

    fn find(bytes: &[u8], at: usize) -> Result<(Mark, usize), Malformed> {
        let (code, place) = read_byte(bytes, at)?;
        match mark_of(code) {
            Some(mark) => Ok((mark, place)),
            None => Err(Malformed),
        }
    }
}

impl Find for Op {
    ghost spells = { operator };

    fn find(bytes: &[u8], at: usize) -> Result<(Op, usize), Malformed> {
        let (code, place) = read_byte(bytes, at)?;
        match by_image_code(code) {
            Some(op) => Ok((op, place)),
            None => Err(Malformed),
        }
    }
}

impl Find for AccessKind {
    ghost spells = { access };

    fn find(bytes: &[u8], at: usize) -> Result<(AccessKind, usize), Malformed> {
        let (code, place) = read_byte(bytes, at)?;
        match AccessKind::by_code(code) {
            Some(kind) => Ok((kind, place)),
            None => Err(Malformed),
        }
    }
}

impl Find for Trap {
    ghost spells = { trap_kind };

    fn find(bytes: &[u8], at: usize) -> Result<(Trap, usize), Malformed> {
        let (code, place) = read_byte(bytes, at)?;
        match Trap::by_code(code) {
            Some(kind) => Ok((kind, place)),
            None => Err(Malformed),
        }
    }
}
