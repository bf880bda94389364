//! Values (WebAssembly 1.0, section 5.2).
ghost use Rattle.std.specs.Prelude.{◌≡◌, ◌+◌, ◌≤◌, ◌<◌, ℕ, length, slice_range, IfOk, IfErr};
ghost use Rattle.bl_leb.specs.Grammar.{byte, given, exactly};
ghost use Rattle.bl_wasm.specs.Values.{u32, int, f32, f64, byte_vec, name};
ghost use Rattle.bl_code.specs.ReaderAnswers.{Finds, Reads};

use crate::error::{CodeError, Malformed};
use bl_base::Text;
use std::alloc::Global;

/// Reads one byte.
pub fn read_byte(bytes: &[u8], at: usize) -> Result<(u8, usize), Malformed>
    requires { at ≤ length bytes.now }
    ensures { Finds byte bytes.now at result }
{
    match bytes.get(at) {
        Some(byte) => Ok((*byte, at + 1)),
        None => Err(Malformed),
    }
}

/// Reads an unsigned number of 32 bits (section 5.2.2); each spelling of it is taken.
pub fn read_u32(bytes: &[u8], at: usize) -> Result<(u32, usize), Malformed>
    requires { at ≤ length bytes.now }
    ensures { Finds u32 bytes.now at result }
{
    match bytes.get(at) {
        Some(byte) if *byte < 0x80 => Ok((u32::from(*byte), at + 1)),
        _ => read_any_u32(bytes, at),
    }
}

/// Reads an unsigned number of 32 bits of any spelling.
fn read_any_u32(bytes: &[u8], at: usize) -> Result<(u32, usize), Malformed>
    requires { at ≤ length bytes.now }
    ensures { Finds u32 bytes.now at result }
{
    match bl_leb::read_u32(bytes, at) {
        Some(found) => Ok(found),
        None => Err(Malformed),
    }
}

/// Reads a number of 32 bits that is spelled as a signed one (section 5.2.2); gives the unsigned one with its bits.
pub fn read_i32(bytes: &[u8], at: usize) -> Result<(u32, usize), Malformed>
    requires { at ≤ length bytes.now }
    ensures { Finds (int 32) bytes.now at result }
{
    match bytes.get(at) {
        Some(byte) if *byte < 0x40 => Ok((u32::from(*byte), at + 1)),
        _ => read_any_i32(bytes, at),
    }
}

/// Reads a number of 32 bits of any spelling as a signed one.
fn read_any_i32(bytes: &[u8], at: usize) -> Result<(u32, usize), Malformed>
    requires { at ≤ length bytes.now }
    ensures { Finds (int 32) bytes.now at result }
{
    match bl_leb::read_i32(bytes, at) {
        Some((number, place)) => Ok((number.cast_unsigned(), place)),
        None => Err(Malformed),
    }
}

/// Reads a number of 64 bits that is spelled as a signed one (section 5.2.2); gives the unsigned one with its bits.
pub fn read_i64(bytes: &[u8], at: usize) -> Result<(u64, usize), Malformed>
    requires { at ≤ length bytes.now }
    ensures { Finds (int 64) bytes.now at result }
{
    match bytes.get(at) {
        Some(byte) if *byte < 0x40 => Ok((u64::from(*byte), at + 1)),
        _ => read_any_i64(bytes, at),
    }
}

/// Reads a number of 64 bits of any spelling as a signed one.
fn read_any_i64(bytes: &[u8], at: usize) -> Result<(u64, usize), Malformed>
    requires { at ≤ length bytes.now }
    ensures { Finds (int 64) bytes.now at result }
{
    match bl_leb::read_i64(bytes, at) {
        Some((number, place)) => Ok((number.cast_unsigned(), place)),
        None => Err(Malformed),
    }
}

/// Reads a float of 32 bits (section 5.2.3); gives its bits.
pub fn read_f32(bytes: &[u8], at: usize) -> Result<(u32, usize), Malformed>
    requires { at ≤ length bytes.now }
    ensures { Finds f32 bytes.now at result }
{
    match &bytes[at..] {
        [a, b, c, d, ..] => Ok((u32::from_le_bytes([*a, *b, *c, *d]), at + 4)),
        _ => Err(Malformed),
    }
}

/// Reads a float of 64 bits (section 5.2.3); gives its bits.
pub fn read_f64(bytes: &[u8], at: usize) -> Result<(u64, usize), Malformed>
    requires { at ≤ length bytes.now }
    ensures { Finds f64 bytes.now at result }
{
    match &bytes[at..] {
        [a, b, c, d, e, f, g, h, ..] => Ok((
            u64::from_le_bytes([*a, *b, *c, *d, *e, *f, *g, *h]),
            at + 8,
        )),
        _ => Err(Malformed),
    }
}

/// Copies so many bytes from a place on. Malformed exactly where there are fewer; takes no memory then.
pub fn read_exactly(
    alloc: Global,
    bytes: &[u8],
    at: usize,
    count: usize,
) -> Result<(Text, usize), CodeError>
    requires { at ≤ length bytes.now }
    ensures { Reads (λ these. given (length these ≡ count) (exactly these)) bytes.now at result }
{
    if bytes.len() - at < count {
        return Err(CodeError::Malformed);
    }
    let end = at + count;
    let these = Text::copy_of(alloc, &bytes[at..end])?;
    Ok((these, end))
}

/// Reads a vector of bytes (section 5.1.3).
pub fn read_bytes(alloc: Global, bytes: &[u8], at: usize) -> Result<(Text, usize), CodeError>
    requires { at ≤ length bytes.now }
    ensures { Reads byte_vec bytes.now at result }
{
    let (count, place) = read_u32(bytes, at)?;
    read_exactly(alloc, bytes, place, count as usize)
}

/// Reads a name (section 5.2.4): a vector of bytes that are UTF-8.
pub fn read_name(alloc: Global, bytes: &[u8], at: usize) -> Result<(Text, usize), CodeError>
    requires { at ≤ length bytes.now }
    ensures { Reads name bytes.now at result }
{
    let (text, place) = read_bytes(alloc, bytes, at)?;
    match std::str::from_utf8(text.as_slice()) {
        Ok(_) => Ok((text, place)),
        Err(_) => Err(CodeError::Malformed),
    }
}
