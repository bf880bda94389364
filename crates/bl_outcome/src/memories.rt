//! Memories, as they are told at a run's end.
ghost use Rattle.std.specs.Prelude.{◌≡◌, ◌++◌, ◌∷◌, [], ◌↔◌, ◌+◌, ◌<◌, ◌^◌, codes, false, map, IfOk, IsTrue, slice_index};
ghost use Rattle.std.specs.{Fmt.decimal, Fmt.digits, List.flat_map};
ghost use Rattle.bl_base.specs.Runs.{memory_of};
ghost use Rattle.bl_outcome.specs.Lines.{line};
ghost use Rattle.bl_outcome.specs.Outcomes.{bytes_at, hex_text, initial_bytes, memories_text, memory_text, row_text, rows_text};

use bl_base::{NoMemory, Pages};
use std::alloc::Global;

/// A text with each memory behind it: its pages, and then the rows of 16 bytes that differ from those at the start. Linear in the
/// bytes of the memories.
pub(crate) fn with_memories(
    alloc: Global,
    mut text: Vec<u8>,
    initial_memories: &[Pages],
    memories: &[Pages],
) -> Result<Vec<u8>, NoMemory>
    ensures { IfOk result (λ all. all.items ≡ text.items ++ memories_text (map memory_of initial_memories.now) (map memory_of memories.now)) }
{
    for number in 0..memories.len() {
        let before = initial_bytes(initial_memories, number);
        push_memory(alloc, &mut text, number, before, &memories[number])?;
    }
    Ok(text)
}

/// The bytes of a memory at the start.
fn initial_bytes(initial_memories: &[Pages], number: usize) -> &[u8]
    ensures { result.now ≡ initial_bytes (map memory_of initial_memories.now) number }
{
    match initial_memories.get(number) {
        Some(memory) => memory.bytes.as_slice(),
        None => &[],
    }
}

/// Puts a memory behind the text.
fn push_memory(
    alloc: Global,
    text: &mut Vec<u8>,
    number: usize,
    before: &[u8],
    memory: &Pages,
) -> Result<(), NoMemory>
    ensures { IfOk result (λ _. text.new.items ≡ text.old.items ++ memory_text number before.now (memory_of memory.now)) }
{
    let head = memory_line(alloc, number, memory.pages)?;
    text.extend_from_slice(&head)?;
    push_rows(alloc, text, number, before, memory.bytes.as_slice())?;
    Ok(())
}

/// The line of a memory's pages.
fn memory_line(alloc: Global, number: usize, pages: u32) -> Result<Vec<u8>, NoMemory>
    ensures { IfOk result (λ text. text.items ≡ line (codes "memory " ++ decimal number ++ codes " pages " ++ decimal pages)) }
{
    let text = format!(in alloc; "memory {number} pages {pages}\n")?;
    Ok(text.into_bytes())
}

/// Puts the rows that differ behind the text.
fn push_rows(
    alloc: Global,
    text: &mut Vec<u8>,
    number: usize,
    before: &[u8],
    bytes: &[u8],
) -> Result<(), NoMemory>
    ensures { IfOk result (λ _. text.new.items ≡ text.old.items ++ rows_text number before.now bytes.now) }
{
    for row in 0..bytes.len() / 16 {
        push_row(alloc, text, number, before, bytes, 16 * row)?;
    }
    Ok(())
}

/// Puts the row from an offset on behind the text, if it differs.
fn push_row(
    alloc: Global,
    text: &mut Vec<u8>,
    number: usize,
    before: &[u8],
    bytes: &[u8],
    offset: usize,
) -> Result<(), NoMemory>
    requires { offset < 2 ^ 63 }
    ensures { IfOk result (λ _. text.new.items ≡ text.old.items ++ row_text number before.now bytes.now offset) }
{
    if is_same(before, bytes, offset, 16) {
        return Ok(());
    }
    text.extend_from_slice(&row_head(alloc, number, offset)?)?;
    push_hex(text, bytes, offset, 16)?;
    text.push(b'\n')?;
    Ok(())
}

/// What stands before the digits of a row.
fn row_head(alloc: Global, number: usize, offset: usize) -> Result<Vec<u8>, NoMemory>
    ensures { IfOk result (λ text. text.items ≡ codes "row " ++ decimal number ++ codes " " ++ decimal offset ++ codes " ") }
{
    let text = format!(in alloc; "row {number} {offset} ")?;
    Ok(text.into_bytes())
}

/// Whether two memories have the same bytes, so many from a place on.
fn is_same(before: &[u8], bytes: &[u8], from: usize, count: usize) -> bool
    requires { from + count < 2 ^ 64 }
    ensures { IsTrue result ↔ (bytes_at before.now from count ≡ bytes_at bytes.now from count) }
{
    for place in from..from + count {
        if byte_at(before, place) != byte_at(bytes, place) {
            return false;
        }
    }
    true
}

/// Puts the digits of so many bytes from a place on behind the text.
fn push_hex(text: &mut Vec<u8>, bytes: &[u8], from: usize, count: usize) -> Result<(), NoMemory>
    requires { from + count < 2 ^ 64 }
    ensures { IfOk result (λ _. text.new.items ≡ text.old.items ++ flat_map hex_text (bytes_at bytes.now from count)) }
{
    for place in from..from + count {
        push_byte(text, byte_at(bytes, place))?;
    }
    Ok(())
}

/// The byte at a place; past the end it is 0.
fn byte_at(bytes: &[u8], place: usize) -> u8
    ensures { result ≡ slice_index bytes.now place }
{
    match bytes.get(place) {
        Some(byte) => *byte,
        None => 0,
    }
}

/// Puts the two digits of a byte behind the text.
fn push_byte(text: &mut Vec<u8>, byte: u8) -> Result<(), NoMemory>
    ensures { IfOk result (λ _. text.new.items ≡ text.old.items ++ hex_text byte) }
{
    text.push(digit(byte / 16))?;
    text.push(digit(byte % 16))?;
    Ok(())
}

/// A digit of a number below 16.
fn digit(number: u8) -> u8
    requires { number < 16 }
    ensures { digits 16 false number ≡ result ∷ [] }
{
    if number < 10 {
        b'0' + number
    } else {
        b'a' + (number - 10)
    }
}
