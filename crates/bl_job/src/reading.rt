//! One file of a shelf: a module in pieces, which are decoded as they are read, and any other file whole.
ghost use Rattle.std.specs.Prelude.{◌≡◌, ◌≤◌, [], Some, IfOk, length, unwrap_or};
ghost use Rattle.bl_base.specs.Quantity.{limit_of};
ghost use Rattle.bl_base.specs.declared.quantity.Quantity.TheVariants as quantity;
ghost use Rattle.bl_outside.specs.Shelf.{FetchFaults, most_asked};
ghost use Rattle.bl_job.specs.ShelfReads.{Feeds, IsWithin, NextPiece, Obtained};
ghost use Rattle.bl_job.specs.WorkAnswers.{read_in};

use crate::content::Content;
use crate::job::Read;
use bl_base::Quantity;
use bl_decode::Decoder;
use bl_outside::{Shelf, ShelfError};
use std::alloc::Global;

/// How many bytes of a module are asked for at once.
const PIECE: u64 = 65_536;

/// What a file has; none where it is too long.
pub fn read_file<F: Shelf>(
    alloc: Global,
    read: &Read<'_>,
    files: &mut F,
) -> Result<Option<Content>, ShelfError>
    requires { limit_of read.now.quantity ≤ most_asked }
    ensures files { F.files files.new ≡ F.files files.old }
    ensures obtained { Obtained (read_in read.now) (F.files files.old) (F.faults files.old) (F.faults files.new) result }
{
    match read.quantity {
        Quantity::Module => read_module(alloc, read.name, files),
        _ => read_whole(read, files),
    }
}

/// The bytes of a file; none where it is too long.
fn read_whole<F: Shelf>(read: &Read<'_>, files: &mut F) -> Result<Option<Content>, ShelfError>
    requires { limit_of read.now.quantity ≤ most_asked }
    ensures files { F.files files.new ≡ F.files files.old }
    ensures obtained { Obtained (read_in read.now) (F.files files.old) (F.faults files.old) (F.faults files.new) result }
{
    let most = read.quantity.limit();
    match files.fetch(read.name, most) {
        Ok(bytes) => Ok(within(bytes, most)),
        Err(error) => Err(error),
    }
}

/// Bytes, where they aren't too many.
fn within(bytes: Vec<u8>, most: u64) -> Option<Content>
    ensures { IsWithin most bytes.items result }
{
    if bytes.len() as u64 <= most {
        Some(Content::Bytes(bytes))
    } else {
        None
    }
}

/// A module, decoded as it is read; none where it is too long.
fn read_module<F: Shelf>(
    alloc: Global,
    name: &str,
    files: &mut F,
) -> Result<Option<Content>, ShelfError>
    ensures files { F.files files.new ≡ F.files files.old }
    ensures obtained { Obtained (record { name = name.now; quantity = quantity.Module }) (F.files files.old) (F.faults files.old) (F.faults files.new) result }
{
    let mut decoder = Decoder::new(alloc)?;
    match feed_all(alloc, name, files, &mut decoder) {
        Ok(true) => Ok(Some(Content::Module(decoder))),
        Ok(false) => Ok(None),
        Err(error) => Err(error),
    }
}

/// Feeds a new decoder the pieces of a module until one is short or they are too many; says whether all of it was fed and is short enough.
fn feed_all<F: Shelf>(
    alloc: Global,
    name: &str,
    files: &mut F,
    decoder: &mut Decoder,
) -> Result<bool, ShelfError>
    requires { decoder.now ≡ Some [] }
    ensures files { F.files files.new ≡ F.files files.old }
    ensures faults { FetchFaults result (F.faults files.old) (F.faults files.new) name.now }
    ensures fed { IfOk result (λ is_short. Feeds (F.files files.old) (record { name = name.now; quantity = quantity.Module }) decoder.new is_short) }
{
    let most = Quantity::Module.limit();
    while decoder.bytes().len() as u64 <= most {
        match feed_piece(alloc, name, files, decoder) {
            Ok(true) => return Ok(decoder.bytes().len() as u64 <= most),
            Ok(false) => {}
            Err(error) => return Err(error),
        }
    }
    Ok(false)
}

/// Feeds a decoder the next piece of a file; says whether it was the last one.
fn feed_piece<F: Shelf>(
    alloc: Global,
    name: &str,
    files: &mut F,
    decoder: &mut Decoder,
) -> Result<bool, ShelfError>
    requires { length (unwrap_or decoder.now []) ≤ limit_of quantity.Module }
    ensures files { F.files files.new ≡ F.files files.old }
    ensures faults { FetchFaults result (F.faults files.old) (F.faults files.new) name.now }
    ensures fed { IfOk result (λ is_last. NextPiece (F.files files.old) name.now decoder.old decoder.new is_last) }
{
    let from = decoder.bytes().len() as u64;
    match files.part(name, from, PIECE) {
        Ok(piece) => {
            decoder.feed(alloc, &piece)?;
            Ok((piece.len() as u64) < PIECE)
        }
        Err(error) => Err(error),
    }
}
