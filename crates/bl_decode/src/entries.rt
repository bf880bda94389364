//! The entries of sections (WebAssembly 1.0, section 5.5).
ghost use Rattle.std.specs.Prelude.{◌≡◌, ◌<◌, ◌≤◌, ◌^◌, ◌↔◌, ℕ, IsTrue, length, sum_by, List as Listed};
ghost use Rattle.bl_wasm.specs.Types.{function_type, table_type, global_type};
ghost use Rattle.bl_wasm.specs.Sections.{import_kind, import_entry, global_entry, export_kind, export_entry, element_entry, local_run, code_entry, data_entry};
ghost use Rattle.bl_decode.specs.Laws.{function_type_prefix_free, table_type_prefix_free, global_type_prefix_free, import_kind_prefix_free, import_entry_prefix_free, global_entry_prefix_free, export_kind_prefix_free, export_entry_prefix_free, element_entry_prefix_free, local_run_prefix_free, function_code_prefix_free, code_entry_prefix_free, data_entry_prefix_free};

use crate::formats::{
    Byte, Bytes, Expressions, Memories, Mutabilities, Names, Then, ValueTypes, Vector,
};
use bl_code::{CodeError, Format, Index, read_byte, read_sized};
use bl_wasm::{
    Code, DataSegment, DefinedGlobal, ElementSegment, Export, ExportKind, FuncType, GlobalType,
    Import, ImportKind, Limits, LocalRun,
};
use std::alloc::Global;

/// A type of functions (section 5.3.3).
pub(crate) struct FunctionTypes;

impl Format for FunctionTypes {
    type Tree = FuncType;

    ghost spellings = { function_type };

    ghost prefix_free = { function_type_prefix_free };

    fn read(alloc: Global, bytes: &[u8], at: usize) -> Result<(FuncType, usize), CodeError> {
        let ((_, (params, results)), end) = Then::<
            Byte<0x60>,
            Then<Vector<ValueTypes>, Vector<ValueTypes>>,
        >::read(alloc, bytes, at)?;
        Ok((FuncType { params, results }, end))
    }
}

/// A type of tables (section 5.3.6).
pub(crate) struct Tables;

impl Format for Tables {
    type Tree = Limits;

    ghost spellings = { table_type };

    ghost prefix_free = { table_type_prefix_free };

    fn read(alloc: Global, bytes: &[u8], at: usize) -> Result<(Limits, usize), CodeError> {
        let ((_, limits), end) = Then::<Byte<0x70>, Memories>::read(alloc, bytes, at)?;
        Ok((limits, end))
    }
}

/// A type of globals (section 5.3.7).
pub(crate) struct GlobalTypes;

impl Format for GlobalTypes {
    type Tree = GlobalType;

    ghost spellings = { global_type };

    ghost prefix_free = { global_type_prefix_free };

    fn read(alloc: Global, bytes: &[u8], at: usize) -> Result<(GlobalType, usize), CodeError> {
        let ((kind, mutable), end) = Then::<ValueTypes, Mutabilities>::read(alloc, bytes, at)?;
        Ok((GlobalType { kind, mutable }, end))
    }
}

/// What is imported (section 5.5.5).
pub(crate) struct ImportKinds;

impl Format for ImportKinds {
    type Tree = ImportKind;

    ghost spellings = { import_kind };

    ghost prefix_free = { import_kind_prefix_free };

    fn read(alloc: Global, bytes: &[u8], at: usize) -> Result<(ImportKind, usize), CodeError> {
        let (code, place) = read_byte(bytes, at)?;
        match code {
            0x00 => {
                let (kind, end) = Index::read(alloc, bytes, place)?;
                Ok((ImportKind::Function(kind), end))
            }
            0x01 => {
                let (table, end) = Tables::read(alloc, bytes, place)?;
                Ok((ImportKind::Table(table), end))
            }
            0x02 => {
                let (memory, end) = Memories::read(alloc, bytes, place)?;
                Ok((ImportKind::Memory(memory), end))
            }
            0x03 => {
                let (global, end) = GlobalTypes::read(alloc, bytes, place)?;
                Ok((ImportKind::Global(global), end))
            }
            _ => Err(CodeError::Malformed),
        }
    }
}

/// An import (section 5.5.5).
pub(crate) struct Imports;

impl Format for Imports {
    type Tree = Import;

    ghost spellings = { import_entry };

    ghost prefix_free = { import_entry_prefix_free };

    fn read(alloc: Global, bytes: &[u8], at: usize) -> Result<(Import, usize), CodeError> {
        let ((from, (name, kind)), end) = Then::<Names, Then<Names, ImportKinds>>::read(
            alloc, bytes, at,
        )?;
        Ok((Import { from, name, kind }, end))
    }
}

/// A global with its initial value (section 5.5.9).
pub(crate) struct Globals;

impl Format for Globals {
    type Tree = DefinedGlobal;

    ghost spellings = { global_entry };

    ghost prefix_free = { global_entry_prefix_free };

    fn read(alloc: Global, bytes: &[u8], at: usize) -> Result<(DefinedGlobal, usize), CodeError> {
        let ((kind, value), end) = Then::<GlobalTypes, Expressions>::read(alloc, bytes, at)?;
        Ok((
            DefinedGlobal {
                kind,
                initial: value,
            },
            end,
        ))
    }
}

/// What is exported (section 5.5.10).
pub(crate) struct ExportKinds;

impl Format for ExportKinds {
    type Tree = ExportKind;

    ghost spellings = { export_kind };

    ghost prefix_free = { export_kind_prefix_free };

    fn read(_alloc: Global, bytes: &[u8], at: usize) -> Result<(ExportKind, usize), CodeError> {
        let (code, end) = read_byte(bytes, at)?;
        match code {
            0x00 => Ok((ExportKind::Function, end)),
            0x01 => Ok((ExportKind::Table, end)),
            0x02 => Ok((ExportKind::Memory, end)),
            0x03 => Ok((ExportKind::Global, end)),
            _ => Err(CodeError::Malformed),
        }
    }
}

/// An export (section 5.5.10).
pub(crate) struct Exports;

impl Format for Exports {
    type Tree = Export;

    ghost spellings = { export_entry };

    ghost prefix_free = { export_entry_prefix_free };

    fn read(alloc: Global, bytes: &[u8], at: usize) -> Result<(Export, usize), CodeError> {
        let ((name, (kind, index)), end) = Then::<Names, Then<ExportKinds, Index>>::read(
            alloc, bytes, at,
        )?;
        Ok((Export { name, kind, index }, end))
    }
}

/// An element segment (section 5.5.12).
pub(crate) struct Elements;

impl Format for Elements {
    type Tree = ElementSegment;

    ghost spellings = { element_entry };

    ghost prefix_free = { element_entry_prefix_free };

    fn read(alloc: Global, bytes: &[u8], at: usize) -> Result<(ElementSegment, usize), CodeError> {
        let ((table, (offset, functions)), end) = Then::<
            Index,
            Then<Expressions, Vector<Index>>,
        >::read(alloc, bytes, at)?;
        Ok((
            ElementSegment {
                table,
                offset,
                functions,
            },
            end,
        ))
    }
}

/// A run of locals of one type (section 5.5.13).
pub(crate) struct LocalRuns;

impl Format for LocalRuns {
    type Tree = LocalRun;

    ghost spellings = { local_run };

    ghost prefix_free = { local_run_prefix_free };

    fn read(alloc: Global, bytes: &[u8], at: usize) -> Result<(LocalRun, usize), CodeError> {
        let ((count, kind), end) = Then::<Index, ValueTypes>::read(alloc, bytes, at)?;
        Ok((LocalRun { count, kind }, end))
    }
}

/// The locals and the body of a function (section 5.5.13): its locals are fewer than 2^32.
pub(crate) struct Bodies;

impl Format for Bodies {
    type Tree = Code;

    ghost use Rattle.bl_wasm.specs.Sections.{function_code};

    ghost spellings = { function_code };

    ghost prefix_free = { function_code_prefix_free };

    fn read(alloc: Global, bytes: &[u8], at: usize) -> Result<(Code, usize), CodeError> {
        let ((locals, items), end) = Then::<Vector<LocalRuns>, Expressions>::read(
            alloc, bytes, at,
        )?;
        if !are_few(locals.as_slice()) {
            return Err(CodeError::Malformed);
        }
        Ok((Code { locals, items }, end))
    }
}

/// Whether the locals of the runs are fewer than 2^32.
fn are_few(runs: &[LocalRun]) -> bool
    ensures { IsTrue result ↔ (sum_by (λ run. run.count) runs.now < 2 ^ 32) }
{
    let mut count = 0u32;
    for run in runs {
        match count.checked_add(run.count) {
            Some(more) => count = more,
            None => return false,
        }
    }
    true
}

/// The code of a function (section 5.5.13).
pub(crate) struct Codes;

impl Format for Codes {
    type Tree = Code;

    ghost spellings = { code_entry };

    ghost prefix_free = { code_entry_prefix_free };

    fn read(alloc: Global, bytes: &[u8], at: usize) -> Result<(Code, usize), CodeError> {
        read_sized::<Bodies>(alloc, bytes, at)
    }
}

/// A data segment (section 5.5.14).
pub(crate) struct Segments;

impl Format for Segments {
    type Tree = DataSegment;

    ghost spellings = { data_entry };

    ghost prefix_free = { data_entry_prefix_free };

    fn read(alloc: Global, bytes: &[u8], at: usize) -> Result<(DataSegment, usize), CodeError> {
        let ((memory, (offset, bytes)), end) = Then::<Index, Then<Expressions, Bytes>>::read(
            alloc, bytes, at,
        )?;
        Ok((
            DataSegment {
                memory,
                offset,
                bytes,
            },
            end,
        ))
    }
}
