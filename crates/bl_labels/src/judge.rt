//! What is wrong with entries.
ghost use Rattle.std.specs.Prelude.{◌≡◌};
ghost use Rattle.bl_labels.specs.Faults.{fault as fault_of, first_broken as first_broken_of, spaces_of};
ghost use Rattle.bl_labels.specs.LabelAnswers.{Judges};

use crate::entry::Entry;
use crate::error::LabelError;
use crate::labels::Labels;
use crate::marks::Marks;
use crate::spaces::{Spaces, is_outside, params, results, spaces_in};
use bl_wasm::{FuncType, Module};
use std::alloc::Global;

/// The first of the rules that an entry breaks, in their order.
fn first_broken(outside: bool, on_import: bool, twice: bool, both: bool) -> Option<LabelError>
    ensures { result ≡ first_broken_of outside on_import twice both }
{
    if outside {
        Some(LabelError::OutOfRange)
    } else if on_import {
        Some(LabelError::OnImport)
    } else if twice {
        Some(LabelError::Twice)
    } else if both {
        Some(LabelError::Both)
    } else {
        None
    }
}

/// What is wrong with an entry, where those before it give such labels.
fn fault(types: &[FuncType], spaces: &Spaces, before: &Marks, entry: Entry) -> Option<LabelError>
    ensures { result ≡ fault_of types.now spaces.now before.now entry }
{
    match entry {
        Entry::SecretParam(param) => {
            let outside = param.index as usize >= params(types, spaces, param.function);
            let on_import = (param.function as usize) < spaces.imported_functions;
            let twice = before.is_secret_param(param.function, param.index as usize);
            first_broken(outside, on_import, twice, false)
        }
        Entry::SecretGlobal(global) => {
            let outside = is_outside(global, spaces.imported_globals, spaces.globals);
            let on_import = (global as usize) < spaces.imported_globals;
            let twice = before.is_secret_global(global);
            let both = before.is_demanded_global(global);
            first_broken(outside, on_import, twice, both)
        }
        Entry::SecretMemory(memory) => {
            let outside = is_outside(memory, spaces.imported_memories, spaces.memories);
            let on_import = (memory as usize) < spaces.imported_memories;
            let twice = before.is_secret_memory(memory);
            first_broken(outside, on_import, twice, false)
        }
        Entry::PublicResult(found) => {
            let outside = found.index as usize >= results(types, spaces, found.function);
            let on_import = (found.function as usize) < spaces.imported_functions;
            let twice = before.is_demanded_result(found.function, found.index as usize);
            first_broken(outside, on_import, twice, false)
        }
        Entry::PublicGlobal(global) => {
            let outside = is_outside(global, spaces.imported_globals, spaces.globals);
            let on_import = (global as usize) < spaces.imported_globals;
            let twice = before.is_demanded_global(global);
            let both = before.is_secret_global(global);
            first_broken(outside, on_import, twice, both)
        }
    }
}

/// The labels that entries give, or what is wrong with the first that something is wrong with.
pub(crate) fn judge(alloc: Global, wasm: &Module, entries: &[Entry]) -> Result<Labels, LabelError>
    ensures { Judges wasm.now entries.now result }
{
    let Ok(spaces) = spaces_in(alloc, wasm) else {
        return Err(LabelError::Memory);
    };
    let mut marks = Marks::none(alloc);
    for entry in entries {
        if let Some(error) = fault(wasm.types.as_slice(), &spaces, &marks, *entry) {
            return Err(error);
        }
        marks = match marks.with(*entry) {
            Ok(more) => more,
            Err(_) => return Err(LabelError::Memory),
        };
    }
    Ok(marks.into_labels())
}
