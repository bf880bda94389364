//! What a line of a start file says.
ghost use Rattle.std.specs.Prelude.{◌≡◌, ◌+◌, ◌^◌, IfOk, MatchOption, [], ◌∷◌};
ghost use Rattle.bl_text.specs.Digits.{decimal_below};
ghost use Rattle.bl_trace.specs.Lines.{words_of, limit_of, argument_of, lies_in, patch_by, patch_of, entry_by};

use crate::digits::read_hex;
use crate::entry::Entry;
use bl_base::{NoMemory, Patch, Text, ValueType};
use bl_text::{place_of, read_decimal};
use std::alloc::Global;

/// The bytes before the first space and those behind it; None where there is no space.
fn cut(text: &[u8]) -> Option<(&[u8], &[u8])>
    ensures { MatchOption result (words_of text.now ≡ text.now ∷ [])
        (λ parts. words_of text.now ≡ parts.0.now ∷ words_of parts.1.now) }
{
    let end = place_of(text, b' ');
    if end == text.len() {
        return None;
    }
    Some((&text[..end], &text[end + 1..]))
}

/// The greatest number of a type.
fn max_of(kind: ValueType) -> u64
    ensures { result + 1 ≡ limit_of kind }
{
    match kind {
        ValueType::I32 => u64::from(u32::MAX),
        ValueType::I64 => u64::MAX,
    }
}

/// The argument that stands behind `arg`, for a parameter of a type where one is left.
fn read_argument(operands: &[u8], kind: Option<ValueType>) -> Option<u64>
    ensures { result ≡ argument_of kind (words_of operands.now) }
{
    let kind = kind?;
    read_decimal(operands, max_of(kind))
}

/// Whether so many bytes from an offset lie in the first pages of a memory, if there is one.
fn is_inside(offset: u32, count: usize, pages: Option<u32>) -> bool
    ensures { result ≡ lies_in offset count pages }
{
    match pages {
        Some(pages) => u128::from(offset) + count as u128 <= u128::from(pages) * 65_536,
        None => false,
    }
}

/// The number of 32 bits that decimal digits write.
fn read_u32(word: &[u8]) -> Option<u32>
    ensures { result ≡ decimal_below (2 ^ 32) word.now }
{
    let value = read_decimal(word, u64::from(u32::MAX))?;
    Some(value as u32)
}

/// The patch of those bytes, where there is a byte and the patch lies in its memory's first pages.
fn patch_inside(memory: u32, offset: u32, bytes: Text, sizes: &[u32]) -> Option<Patch>
    ensures { result ≡ patch_by sizes.now (Some memory) (Some offset) (Some bytes) }
{
    if bytes.is_empty() {
        return None;
    }
    if !is_inside(offset, bytes.len(), sizes.get(memory as usize).copied()) {
        return None;
    }
    Some(Patch {
        memory,
        offset,
        bytes,
    })
}

/// The patch that stands behind `memory`.
fn read_patch(alloc: Global, operands: &[u8], sizes: &[u32]) -> Result<Option<Patch>, NoMemory>
    ensures { IfOk result (λ found. found ≡ patch_of sizes.now (words_of operands.now)) }
{
    let Some((memory, rest)) = cut(operands) else {
        return Ok(None);
    };
    let Some((offset, bytes)) = cut(rest) else {
        return Ok(None);
    };
    let (Some(memory), Some(offset)) = (read_u32(memory), read_u32(offset)) else {
        return Ok(None);
    };
    let Some(bytes) = read_hex(alloc, bytes)? else {
        return Ok(None);
    };
    Ok(patch_inside(memory, offset, bytes, sizes))
}

/// What a line says where the next argument is for a parameter of a type, if any is left; None where the line
/// is bad.
pub fn read_line(
    alloc: Global,
    line: &[u8],
    kind: Option<ValueType>,
    sizes: &[u32],
) -> Result<Option<Entry>, NoMemory>
    ensures { IfOk result (λ found. found ≡ entry_by kind sizes.now (words_of line.now)) }
{
    let Some((keyword, operands)) = cut(line) else {
        return Ok(None);
    };
    if keyword == b"arg".as_slice() {
        return Ok(read_argument(operands, kind).map(Entry::Argument));
    }
    if keyword == b"memory".as_slice() {
        return Ok(read_patch(alloc, operands, sizes)?.map(Entry::Contents));
    }
    Ok(None)
}
