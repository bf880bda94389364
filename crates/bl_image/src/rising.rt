//! Readers of things whose numbers rise: the rows of memories, and weights.
ghost use Rattle.std.specs.Prelude.{◌≡◌, ◌≤◌, ◌^◌, length};
ghost use Rattle.bl_leb.specs.Grammar.{◌⨾◌, exactly, given};
ghost use Rattle.bl_format.specs.{Grammar.gap, Grammar.rising, Image.rows, Image.weights};
ghost use Rattle.bl_image.specs.ReaderAnswers.{Finds, Reads};

use crate::error::{Malformed, ReadError};
use crate::read::{Read, read_u32, read_u64};
use bl_base::{List, Pos};
use bl_format::Numbered;
use bl_program::{MemRow, SiteWeight};
use std::alloc::Global;

/// What stands in an image behind a number that rises, with its reader.
pub trait FindBehind: Numbered {
    /// Reads what stands behind that number.
    fn read_behind(number: u32, bytes: &[u8], at: usize) -> Result<(Self, usize), Malformed>
        requires { at ≤ length bytes.now }
        ensures { Finds (λ one. given (Self.numbered one ≡ number) (Self.behind one)) bytes.now at result };
}

/// Reads sixteen bytes as they stand.
fn read_sixteen(bytes: &[u8], at: usize) -> Result<([u8; 16], usize), Malformed>
    requires { at ≤ length bytes.now }
    ensures { Finds (λ these. given (length these ≡ 16) (exactly these)) bytes.now at result }
{
    match bytes[at..].first_chunk::<16>() {
        Some(these) => Ok((*these, at + 16)),
        None => Err(Malformed),
    }
}

impl FindBehind for MemRow {
    fn read_behind(number: u32, bytes: &[u8], at: usize) -> Result<(MemRow, usize), Malformed> {
        let (bytes, place) = read_sixteen(bytes, at)?;
        Ok((MemRow { number, bytes }, place))
    }
}

impl FindBehind for SiteWeight {
    fn read_behind(number: u32, bytes: &[u8], at: usize) -> Result<(SiteWeight, usize), Malformed> {
        let (weight, place) = read_u64(bytes, at)?;
        let one = SiteWeight {
            at: Pos(number),
            weight,
        };
        Ok((one, place))
    }
}

/// Reads a number by how far it is from the least one that may stand there.
fn read_gap(least: u64, bytes: &[u8], at: usize) -> Result<(u32, usize), Malformed>
    requires place { at ≤ length bytes.now }
    requires small { least ≤ 2 ^ 32 }
    ensures { Finds (gap least) bytes.now at result }
{
    let (far, place) = read_u32(bytes, at)?;
    let number = least + u64::from(far);
    if number > u64::from(u32::MAX) {
        return Err(Malformed);
    }
    Ok((number as u32, place))
}

/// Reads a thing behind its number.
fn read_next<T: FindBehind>(least: u64, bytes: &[u8], at: usize) -> Result<(T, usize), Malformed>
    requires place { at ≤ length bytes.now }
    requires small { least ≤ 2 ^ 32 }
    ensures { Finds (λ one. gap least (T.numbered one) ⨾ T.behind one) bytes.now at result }
{
    let (number, place) = read_gap(least, bytes, at)?;
    T::read_behind(number, bytes, place)
}

/// Reads as many things as `count` says, one after another from `at` on. No room is made before a thing is read.
fn read_rising<T: FindBehind>(
    alloc: Global,
    bytes: &[u8],
    at: usize,
    count: u32,
) -> Result<(List<T>, usize), ReadError>
    requires { at ≤ length bytes.now }
    ensures { Reads (λ things. given (length things ≡ count) (rising T.numbered T.behind things)) bytes.now at result }
{
    let mut things = List::new(alloc);
    let mut place = at;
    let mut least = 0;
    for _ in 0..count {
        let (thing, after) = read_next::<T>(least, bytes, place)?;
        least = u64::from(thing.number()) + 1;
        things.push(thing)?;
        place = after;
    }
    Ok((things, place))
}

/// The rows of a memory.
#[derive(Drop)]
pub struct Rows(pub List<MemRow>);

impl Read for Rows {
    ghost spells = { λ these. rows these.0 };

    fn read(alloc: Global, bytes: &[u8], at: usize) -> Result<(Rows, usize), ReadError> {
        let (count, place) = read_u32(bytes, at)?;
        let (these, end) = read_rising::<MemRow>(alloc, bytes, place, count)?;
        Ok((Rows(these), end))
    }
}

/// The weights that a program lists.
#[derive(Drop)]
pub struct Weights(pub List<SiteWeight>);

impl Read for Weights {
    ghost spells = { λ these. weights these.0 };

    fn read(alloc: Global, bytes: &[u8], at: usize) -> Result<(Weights, usize), ReadError> {
        let (count, place) = read_u32(bytes, at)?;
        let (these, end) = read_rising::<SiteWeight>(alloc, bytes, place, count)?;
        Ok((Weights(these), end))
    }
}
