//! The entries of a section of labels.
ghost use Rattle.std.specs.Prelude.{◌≡◌, ◌≤◌, ℕ, length, List as Listed};
ghost use Rattle.bl_code.specs.ReaderAnswers.{Finds};
ghost use Rattle.bl_labels.specs.{Entries.entry, Entries.place, EntryLaws.entry_prefix_free};

use crate::labels::Place;
use bl_code::{CodeError, Format, Malformed, read_byte, read_u32};
use std::alloc::Global;

/// What an entry says.
#[derive(Clone, Copy, Debug)]
pub(crate) enum Entry {
    /// 00: a parameter is secret.
    SecretParam(Place),
    /// 01: a global is secret.
    SecretGlobal(u32),
    /// 02: a memory is secret.
    SecretMemory(u32),
    /// 03: a result is to stay public.
    PublicResult(Place),
    /// 04: a global is to stay public.
    PublicGlobal(u32),
}

/// Entries.
pub(crate) struct Entries;

impl Format for Entries {
    type Tree = Entry;

    ghost spellings = { entry };

    ghost prefix_free = { entry_prefix_free };

    fn read(_alloc: Global, bytes: &[u8], at: usize) -> Result<(Entry, usize), CodeError> {
        Ok(read_entry(bytes, at)?)
    }
}

/// Reads the indices of a function and of one of its parameters or results.
fn read_place(bytes: &[u8], at: usize) -> Result<(Place, usize), Malformed>
    requires { at ≤ length bytes.now }
    ensures { Finds place bytes.now at result }
{
    let (function, next) = read_u32(bytes, at)?;
    let (index, end) = read_u32(bytes, next)?;
    Ok((Place { function, index }, end))
}

/// Reads an entry.
fn read_entry(bytes: &[u8], at: usize) -> Result<(Entry, usize), Malformed>
    requires { at ≤ length bytes.now }
    ensures { Finds entry bytes.now at result }
{
    let (code, next) = read_byte(bytes, at)?;
    match code {
        0x00 => {
            let (param, end) = read_place(bytes, next)?;
            Ok((Entry::SecretParam(param), end))
        }
        0x01 => {
            let (global, end) = read_u32(bytes, next)?;
            Ok((Entry::SecretGlobal(global), end))
        }
        0x02 => {
            let (memory, end) = read_u32(bytes, next)?;
            Ok((Entry::SecretMemory(memory), end))
        }
        0x03 => {
            let (found, end) = read_place(bytes, next)?;
            Ok((Entry::PublicResult(found), end))
        }
        0x04 => {
            let (public, end) = read_u32(bytes, next)?;
            Ok((Entry::PublicGlobal(public), end))
        }
        _ => Err(Malformed),
    }
}
