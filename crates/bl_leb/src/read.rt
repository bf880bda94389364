//! Numbers read from bytes.
ghost use Rattle.std.specs.Prelude.{ℕ, ℤ, ◌<◌, ◌≤◌, ◌^◌, length, IsTrue, IsFalse, IfSome, IfNone};
ghost use Rattle.bl_leb.specs.Numbers.{IsUnsigned, IsSigned, IsSignedByte, IsSignedNumber};
ghost use Rattle.bl_leb.specs.Spellings.{IsSpelledAt, IsShortest};

/// Reads the unsigned number of `width` bits that begins at `at`, by the two rules of the grammar; the
/// recursion goes as deep as the spelling is long, at most 10 bytes.
fn read_unsigned(bytes: &[u8], at: usize, width: u32) -> Option<(u64, usize)>
    requires within { at ≤ length bytes.now }
    requires fits { width ≤ 64 }
    ensures found { IfSome result (λ found. IsSpelledAt (IsUnsigned width) bytes.now at found.1 found.0) }
    ensures bounded { IfSome result (λ found. found.0 < 2 ^ width) }
    ensures none { IfNone result ((value place : ℕ) → ¬ IsSpelledAt (IsUnsigned width) bytes.now at place value) }
{
    let byte = *bytes.get(at)?;
    if byte < 1 << width.min(7) {
        return Some((u64::from(byte), at + 1));
    }
    if byte < 128 || width <= 7 {
        return None;
    }
    let (high, place) = read_unsigned(bytes, at + 1, width - 7)?;
    Some((128 * high + u64::from(byte - 128), place))
}

/// The number that a byte below 128 stands for where it is the last of a signed number of `width` bits; None
/// exactly where it is no such byte.
fn last_signed(byte: u8, width: u32) -> Option<i64>
    requires low { byte < 2 ^ 7 }
    requires signed { 0 < width }
    ensures found { IfSome result (λ value. IsSignedByte width byte value) }
    ensures none { IfNone result ((value : ℤ) → ¬ IsSignedByte width byte value) }
{
    let half = 1u8 << (width.min(7) - 1);
    if byte < half {
        return Some(i64::from(byte));
    }
    if byte < 128 - half {
        return None;
    }
    Some(i64::from(byte) - 128)
}

/// Reads the signed number of `width` bits that begins at `at`, by the rules of the grammar; the recursion
/// goes as deep as the spelling is long, at most 10 bytes.
fn read_signed(bytes: &[u8], at: usize, width: u32) -> Option<(i64, usize)>
    requires within { at ≤ length bytes.now }
    requires signed { 0 < width }
    requires fits { width ≤ 64 }
    ensures found { IfSome result (λ found. IsSpelledAt (IsSigned width) bytes.now at found.1 found.0) }
    ensures bounded { IfSome result (λ found. IsSignedNumber width found.0) }
    ensures none { IfNone result ((value : ℤ) (place : ℕ) → ¬ IsSpelledAt (IsSigned width) bytes.now at place value) }
{
    let byte = *bytes.get(at)?;
    if byte < 128 {
        let value = last_signed(byte, width)?;
        return Some((value, at + 1));
    }
    if width <= 7 {
        return None;
    }
    let (high, place) = read_signed(bytes, at + 1, width - 7)?;
    Some((128 * high + i64::from(byte - 128), place))
}

/// Reads the unsigned number of 32 bits whose spelling begins at `at`, a place of `bytes` or their length
/// (WebAssembly 1.0, section 5.2.2). Some holds the number and the place after its last byte. None comes
/// exactly where no spelling begins there: the bytes end before it does, or its fifth byte is above 0F.
pub fn read_u32(bytes: &[u8], at: usize) -> Option<(u32, usize)>
    requires { at ≤ length bytes.now }
    ensures found { IfSome result (λ found. IsSpelledAt (IsUnsigned 32) bytes.now at found.1 found.0) }
    ensures none { IfNone result ((value place : ℕ) → ¬ IsSpelledAt (IsUnsigned 32) bytes.now at place value) }
{
    let (value, place) = read_unsigned(bytes, at, 32)?;
    Some((value as u32, place))
}

/// Reads the signed number of 32 bits whose spelling begins at `at`, a place of `bytes` or their length
/// (WebAssembly 1.0, section 5.2.2). Some holds the number and the place after its last byte. None comes
/// exactly where no spelling begins there: the bytes end before it does, or its fifth byte is none of 00 to
/// 07 and 78 to 7F.
pub fn read_i32(bytes: &[u8], at: usize) -> Option<(i32, usize)>
    requires { at ≤ length bytes.now }
    ensures found { IfSome result (λ found. IsSpelledAt (IsSigned 32) bytes.now at found.1 found.0) }
    ensures none { IfNone result ((value : ℤ) (place : ℕ) → ¬ IsSpelledAt (IsSigned 32) bytes.now at place value) }
{
    let (value, place) = read_signed(bytes, at, 32)?;
    Some((value as i32, place))
}

/// Reads the signed number of 33 bits whose spelling begins at `at`, a place of `bytes` or their length
/// (WebAssembly 1.0, section 5.2.2; of block types in version 2.0, section 5.4.1). Some holds the number and the place after
/// its last byte. None comes exactly where no spelling begins there: the bytes end before it does, or its fifth byte is none
/// of 00 to 0F and 70 to 7F.
pub fn read_s33(bytes: &[u8], at: usize) -> Option<(i64, usize)>
    requires { at ≤ length bytes.now }
    ensures found { IfSome result (λ found. IsSpelledAt (IsSigned 33) bytes.now at found.1 found.0) }
    ensures none { IfNone result ((value : ℤ) (place : ℕ) → ¬ IsSpelledAt (IsSigned 33) bytes.now at place value) }
{
    read_signed(bytes, at, 33)
}

/// Reads the signed number of 64 bits whose spelling begins at `at`, a place of `bytes` or their length
/// (WebAssembly 1.0, section 5.2.2). Some holds the number and the place after its last byte. None comes
/// exactly where no spelling begins there: the bytes end before it does, or its tenth byte is neither 00 nor
/// 7F.
pub fn read_i64(bytes: &[u8], at: usize) -> Option<(i64, usize)>
    requires { at ≤ length bytes.now }
    ensures found { IfSome result (λ found. IsSpelledAt (IsSigned 64) bytes.now at found.1 found.0) }
    ensures none { IfNone result ((value : ℤ) (place : ℕ) → ¬ IsSpelledAt (IsSigned 64) bytes.now at place value) }
{
    read_signed(bytes, at, 64)
}

/// Whether a spelling of an unsigned number of 64 bits is the shortest: its last byte is no 0 behind another
/// byte.
fn is_shortest(spelling: &[u8]) -> bool
    ensures shortest { (value : ℕ) → IsTrue result →
        IsUnsigned 64 spelling.now value → IsShortest (IsUnsigned 64) spelling.now value }
    ensures longer { (value : ℕ) → IsFalse result → ¬ IsShortest (IsUnsigned 64) spelling.now value }
{
    if spelling.len() < 2 {
        return true;
    }
    spelling[spelling.len() - 1] != 0
}

/// Reads the unsigned number of 64 bits whose shortest spelling begins at `at`, a place of `bytes` or their
/// length. Some holds the number and the place after its last byte. None comes exactly where no shortest
/// spelling begins there; a longer spelling, whose last byte is a 0 behind another byte, is none.
pub fn read_short(bytes: &[u8], at: usize) -> Option<(u64, usize)>
    requires { at ≤ length bytes.now }
    ensures found { IfSome result (λ found. IsSpelledAt (IsShortest (IsUnsigned 64)) bytes.now at found.1 found.0) }
    ensures none { IfNone result ((value place : ℕ) → ¬ IsSpelledAt (IsShortest (IsUnsigned 64)) bytes.now at place value) }
{
    let (value, place) = read_unsigned(bytes, at, 64)?;
    if !is_shortest(&bytes[at..place]) {
        return None;
    }
    Some((value, place))
}
