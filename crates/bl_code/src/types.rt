//! Types (WebAssembly 1.0, section 5.3).
ghost use Rattle.std.specs.Prelude.{◌≡◌, ◌≤◌, ℕ, List, [], ◌∷◌, length, IfSome, IfNone};
ghost use Rattle.bl_wasm.specs.Types.{value_type, block_type, limits};
ghost use Rattle.bl_code.specs.{ReaderAnswers.Finds, ReaderAnswers.behind, Types.maximum, Types.type_index};

use crate::error::Malformed;
use crate::values::{read_byte, read_u32};
use bl_wasm::{BlockType, Limits, WasmType};

/// The value type of that code; None where the byte is the code of none (section 5.3.1).
fn value_type_of(code: u8) -> Option<WasmType>
    ensures found { IfSome result (λ kind. value_type kind (code ∷ [])) }
    ensures none { IfNone result ((kind : _) (rest : List ℕ) → value_type kind (code ∷ rest) → ⊥) }
{
    match code {
        0x7F => Some(WasmType::I32),
        0x7E => Some(WasmType::I64),
        0x7D => Some(WasmType::F32),
        0x7C => Some(WasmType::F64),
        _ => None,
    }
}

/// Reads a value type (section 5.3.1).
pub fn read_value_type(bytes: &[u8], at: usize) -> Result<(WasmType, usize), Malformed>
    requires { at ≤ length bytes.now }
    ensures { Finds value_type bytes.now at result }
{
    let (code, place) = read_byte(bytes, at)?;
    match value_type_of(code) {
        Some(kind) => Ok((kind, place)),
        None => Err(Malformed),
    }
}

/// Reads a block type (section 5.3.2; version 2.0, section 5.4.1): 40, a value type, or the index of a type as a signed
/// number of 33 bits that isn't negative, in any spelling of it.
pub fn read_block_type(bytes: &[u8], at: usize) -> Result<(BlockType, usize), Malformed>
    requires { at ≤ length bytes.now }
    ensures { Finds block_type bytes.now at result }
{
    let (code, place) = read_byte(bytes, at)?;
    if code == 0x40 {
        return Ok((BlockType::Empty, place));
    }
    if let Some(kind) = value_type_of(code) {
        return Ok((BlockType::Value(kind), place));
    }
    let (index, end) = read_type_index(bytes, at)?;
    Ok((BlockType::Index(index), end))
}

/// Reads the index of a block's type.
fn read_type_index(bytes: &[u8], at: usize) -> Result<(u32, usize), Malformed>
    requires { at ≤ length bytes.now }
    ensures { Finds type_index bytes.now at result }
{
    let Some((number, place)) = bl_leb::read_s33(bytes, at) else {
        return Err(Malformed);
    };
    match u32::try_from(number) {
        Ok(index) => Ok((index, place)),
        Err(_) => Err(Malformed),
    }
}

/// Reads limits (section 5.3.4): 00 and the minimum, or 01, the minimum and the maximum.
pub fn read_limits(bytes: &[u8], at: usize) -> Result<(Limits, usize), Malformed>
    requires { at ≤ length bytes.now }
    ensures { Finds limits bytes.now at result }
{
    let (form, place) = read_byte(bytes, at)?;
    read_bounds(form, bytes, place)
}

/// Reads what stands behind the first byte of limits.
fn read_bounds(form: u8, bytes: &[u8], at: usize) -> Result<(Limits, usize), Malformed>
    requires { at ≤ length bytes.now }
    ensures { Finds (behind limits form) bytes.now at result }
{
    let (min, place) = read_u32(bytes, at)?;
    let (max, place) = read_max(form, bytes, place)?;
    Ok((Limits { min, max }, place))
}

/// Reads the maximum of limits of that first byte, where they have one.
fn read_max(form: u8, bytes: &[u8], at: usize) -> Result<(Option<u32>, usize), Malformed>
    requires { at ≤ length bytes.now }
    ensures { Finds (maximum form) bytes.now at result }
{
    match form {
        0x00 => Ok((None, at)),
        0x01 => {
            let (max, place) = read_u32(bytes, at)?;
            Ok((Some(max), place))
        }
        _ => Err(Malformed),
    }
}
