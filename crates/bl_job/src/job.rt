//! What a command reads, and what it does where nothing fails.
ghost use Rattle.std.specs.Prelude.{◌≡◌, ◌∷◌, [], IfOk, map};
ghost use Rattle.bl_job.specs.WorkAnswers.{file_in, keep_in, read_in};

use crate::status::Status;
use bl_base::{NoMemory, Quantity};
use std::alloc::Global;

/// A file that a command reads.
#[derive(Clone, Copy, Debug)]
pub struct Read<'a> {
    /// Its name.
    pub name: &'a str,
    /// The quantity that its length is within.
    pub quantity: Quantity,
}

/// These files, in order.
pub fn list_reads<'a>(
    alloc: Global,
    files: &[(&'a str, Quantity)],
) -> Result<Vec<Read<'a>>, NoMemory>
    ensures { IfOk result (λ reads. map read_in reads.items ≡ map file_in files.now) }
{
    let mut reads = Vec::new(alloc);
    for file in files {
        reads.push(Read {
            name: file.0,
            quantity: file.1,
        })?;
    }
    Ok(reads)
}

/// A file that a command keeps.
#[derive(Debug, Drop)]
pub struct Keep<'a> {
    /// Its name.
    pub name: &'a str,
    /// Its bytes.
    pub bytes: Vec<u8>,
}

/// One file, which is kept.
pub fn one_kept<'a>(alloc: Global, name: &'a str, bytes: Vec<u8>) -> Result<Vec<Keep<'a>>, NoMemory>
    ensures { IfOk result (λ keeps. map keep_in keeps.items ≡ (name.now, bytes.items) ∷ []) }
{
    let mut keeps = Vec::new(alloc);
    keeps.push(Keep { name, bytes })?;
    Ok(keeps)
}

/// What a command does where nothing fails: it keeps files, in order, then prints a text, and ends with a status.
#[derive(Debug, Drop)]
pub struct Plan<'a> {
    /// The status.
    pub status: Status,
    /// The files.
    pub keeps: Vec<Keep<'a>>,
    /// The text.
    pub text: Vec<u8>,
}
