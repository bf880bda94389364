//! Readers of values that stand in images.
ghost use Rattle.std.specs.Prelude.{◌≡◌, ◌≤◌, ◌<◌, ◌^◌, ℕ, List as Listed, length};
ghost use Rattle.bl_leb.specs.Grammar.{◌⨾◌, given, exactly, byte};
ghost use Rattle.bl_format.specs.Grammar.{each, vec, u32, u64};
ghost use Rattle.bl_format.specs.Image.{text};
ghost use Rattle.bl_image.specs.ReaderAnswers.{Finds, Reads};

use crate::error::{Malformed, ReadError};
use bl_base::{List, Text};
use bl_leb::read_short;
use std::alloc::Global;

/// What stands in an image and takes no memory, with its reader.
pub trait Find: Drop {
    /// Its spellings.
    ghost spells: { Self → Listed ℕ → Type 0 };

    /// Reads what begins at `at`, a place of `bytes` or their length, and gives it with the place after its last byte.
    /// Malformed exactly where no spelling begins there.
    fn find(bytes: &[u8], at: usize) -> Result<(Self, usize), Malformed>
        requires { at ≤ length bytes.now }
        ensures { Finds spells bytes.now at result };
}

/// What stands in an image, with its reader.
pub trait Read: Drop {
    /// Its spellings.
    ghost spells: { Self → Listed ℕ → Type 0 };

    /// Reads what begins at `at`, a place of `bytes` or their length, and gives it with the place after its last byte.
    /// NotAnImage exactly where no spelling begins there.
    fn read(alloc: Global, bytes: &[u8], at: usize) -> Result<(Self, usize), ReadError>
        requires { at ≤ length bytes.now }
        ensures { Reads spells bytes.now at result };
}

/// Reads one byte.
pub fn read_byte(bytes: &[u8], at: usize) -> Result<(u8, usize), Malformed>
    requires { at ≤ length bytes.now }
    ensures { Finds byte bytes.now at result }
{
    match bytes.get(at) {
        Some(byte) => Ok((*byte, at + 1)),
        None => Err(Malformed),
    }
}

/// Reads a number below 2^64 in its shortest spelling.
pub fn read_u64(bytes: &[u8], at: usize) -> Result<(u64, usize), Malformed>
    requires { at ≤ length bytes.now }
    ensures { Finds u64 bytes.now at result }
{
    let (byte, place) = read_byte(bytes, at)?;
    if byte < 0x80 {
        return Ok((u64::from(byte), place));
    }
    read_any_u64(bytes, at)
}

/// Reads a number of whatever size.
fn read_any_u64(bytes: &[u8], at: usize) -> Result<(u64, usize), Malformed>
    requires { at ≤ length bytes.now }
    ensures { Finds u64 bytes.now at result }
{
    match read_short(bytes, at) {
        Some(found) => Ok(found),
        None => Err(Malformed),
    }
}

/// Reads a number below 2^32 in its shortest spelling.
pub fn read_u32(bytes: &[u8], at: usize) -> Result<(u32, usize), Malformed>
    requires { at ≤ length bytes.now }
    ensures { Finds u32 bytes.now at result }
{
    let (number, place) = read_u64(bytes, at)?;
    if number > u64::from(u32::MAX) {
        return Err(Malformed);
    }
    Ok((number as u32, place))
}

impl Find for u32 {
    ghost spells = { u32 };

    fn find(bytes: &[u8], at: usize) -> Result<(u32, usize), Malformed> {
        read_u32(bytes, at)
    }
}

impl Find for u64 {
    ghost spells = { u64 };

    fn find(bytes: &[u8], at: usize) -> Result<(u64, usize), Malformed> {
        read_u64(bytes, at)
    }
}

impl<A: Find, B: Find> Find for (A, B) {
    ghost spells = { λ both. A.spells both.0 ⨾ B.spells both.1 };

    fn find(bytes: &[u8], at: usize) -> Result<((A, B), usize), Malformed> {
        let (first, place) = A::find(bytes, at)?;
        let (second, end) = B::find(bytes, place)?;
        Ok(((first, second), end))
    }
}

/// Reads what takes no memory, among what takes some.
pub fn read_found<T: Find>(bytes: &[u8], at: usize) -> Result<(T, usize), ReadError>
    requires { at ≤ length bytes.now }
    ensures { Reads T.spells bytes.now at result }
{
    let (thing, place) = T::find(bytes, at)?;
    Ok((thing, place))
}

impl Read for u32 {
    ghost spells = { u32 };

    fn read(_alloc: Global, bytes: &[u8], at: usize) -> Result<(u32, usize), ReadError> {
        read_found(bytes, at)
    }
}

impl<A: Read, B: Read> Read for (A, B) {
    ghost spells = { λ both. A.spells both.0 ⨾ B.spells both.1 };

    fn read(alloc: Global, bytes: &[u8], at: usize) -> Result<((A, B), usize), ReadError> {
        let (first, place) = A::read(alloc, bytes, at)?;
        let (second, end) = B::read(alloc, bytes, place)?;
        Ok(((first, second), end))
    }
}

/// Reads as many things as `count` says, one after another from `at` on. No room is made before a thing is read.
pub fn read_each<T: Read>(
    alloc: Global,
    bytes: &[u8],
    at: usize,
    count: u64,
) -> Result<(List<T>, usize), ReadError>
    requires { at ≤ length bytes.now }
    ensures { Reads (λ things. given (length things ≡ count) (each T.spells things)) bytes.now at result }
{
    let mut things = List::new(alloc);
    let mut place = at;
    for _ in 0..count {
        let (thing, after) = T::read(alloc, bytes, place)?;
        things.push(thing)?;
        place = after;
    }
    Ok((things, place))
}

impl<T: Read> Read for List<T> {
    ghost spells = { vec T.spells };

    fn read(alloc: Global, bytes: &[u8], at: usize) -> Result<(List<T>, usize), ReadError> {
        let (count, place) = read_u32(bytes, at)?;
        read_each::<T>(alloc, bytes, place, u64::from(count))
    }
}

/// Copies so many bytes from a place on. NotAnImage exactly where there are fewer; no room is made then.
fn read_exactly(
    alloc: Global,
    bytes: &[u8],
    at: usize,
    count: u64,
) -> Result<(Text, usize), ReadError>
    requires { at ≤ length bytes.now }
    ensures { Reads (λ these. given (length these ≡ count) (exactly these)) bytes.now at result }
{
    if ((bytes.len() - at) as u64) < count {
        return Err(ReadError::NotAnImage);
    }
    let end = at + count as usize;
    let these = Text::copy_of(alloc, &bytes[at..end])?;
    Ok((these, end))
}

impl Read for Text {
    ghost spells = { text };

    fn read(alloc: Global, bytes: &[u8], at: usize) -> Result<(Text, usize), ReadError> {
        let (count, place) = read_u64(bytes, at)?;
        read_exactly(alloc, bytes, place, count)
    }
}
