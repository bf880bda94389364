//! Readers of the parts in front of the commands.
ghost use Rattle.bl_format.specs.Image.{global, memory, param, function, export, exports, demand};

use crate::error::{Malformed, ReadError};
use crate::read::{Find, Read, read_byte, read_each, read_found, read_u32, read_u64};
use crate::rising::Rows;
use bl_base::{Label, List, Text, ValueType};
use bl_program::{Demand, ExportDef, FunctionDef, GlobalDef, MemoryDef, ParamDef};
use std::alloc::Global;

impl Find for GlobalDef {
    ghost spells = { global };

    fn find(bytes: &[u8], at: usize) -> Result<(GlobalDef, usize), Malformed> {
        let ((kind, (label, first)), place) = <(ValueType, (Label, u64))>::find(bytes, at)?;
        Ok((GlobalDef { kind, label, first }, place))
    }
}

impl Read for GlobalDef {
    ghost spells = { global };

    fn read(_alloc: Global, bytes: &[u8], at: usize) -> Result<(GlobalDef, usize), ReadError> {
        read_found(bytes, at)
    }
}

impl Find for ParamDef {
    ghost spells = { param };

    fn find(bytes: &[u8], at: usize) -> Result<(ParamDef, usize), Malformed> {
        let ((kind, label), place) = <(ValueType, Label)>::find(bytes, at)?;
        Ok((ParamDef { kind, label }, place))
    }
}

impl Read for ParamDef {
    ghost spells = { param };

    fn read(_alloc: Global, bytes: &[u8], at: usize) -> Result<(ParamDef, usize), ReadError> {
        read_found(bytes, at)
    }
}

impl Read for FunctionDef {
    ghost spells = { function };

    fn read(alloc: Global, bytes: &[u8], at: usize) -> Result<(FunctionDef, usize), ReadError> {
        let ((params, (results, (vars, length))), place) = <(
            List<ParamDef>,
            (List<ValueType>, (u32, u32)),
        )>::read(alloc, bytes, at)?;
        let one = FunctionDef {
            params,
            results,
            vars,
            length,
        };
        Ok((one, place))
    }
}

impl Read for ExportDef {
    ghost spells = { export };

    fn read(alloc: Global, bytes: &[u8], at: usize) -> Result<(ExportDef, usize), ReadError> {
        let ((name, function), place) = <(Text, u32)>::read(alloc, bytes, at)?;
        Ok((ExportDef { name, function }, place))
    }
}

/// The exports of a program.
#[derive(Drop)]
pub struct Exports(pub List<ExportDef>);

impl Read for Exports {
    ghost spells = { λ these. exports these.0 };

    fn read(alloc: Global, bytes: &[u8], at: usize) -> Result<(Exports, usize), ReadError> {
        let (count, place) = read_u64(bytes, at)?;
        let (these, end) = read_each::<ExportDef>(alloc, bytes, place, count)?;
        Ok((Exports(these), end))
    }
}

impl Read for MemoryDef {
    ghost spells = { memory };

    fn read(alloc: Global, bytes: &[u8], at: usize) -> Result<(MemoryDef, usize), ReadError> {
        let ((pages, (reserve, (label, rows))), place) = <(u32, (u32, (Label, Rows)))>::read(
            alloc, bytes, at,
        )?;
        let one = MemoryDef {
            pages,
            reserve,
            label,
            rows: rows.0,
        };
        Ok((one, place))
    }
}

impl Find for Demand {
    ghost spells = { demand };

    fn find(bytes: &[u8], at: usize) -> Result<(Demand, usize), Malformed> {
        let (code, place) = read_byte(bytes, at)?;
        match code {
            0x00 => {
                let ((function, index), end) = <(u32, u32)>::find(bytes, place)?;
                Ok((Demand::Result { function, index }, end))
            }
            0x01 => {
                let (global, end) = read_u32(bytes, place)?;
                Ok((Demand::Global(global), end))
            }
            _ => Err(Malformed),
        }
    }
}

impl Read for Demand {
    ghost spells = { demand };

    fn read(_alloc: Global, bytes: &[u8], at: usize) -> Result<(Demand, usize), ReadError> {
        read_found(bytes, at)
    }
}
