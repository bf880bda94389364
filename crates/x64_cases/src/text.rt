//! Numbers and instructions as digits.
use bl_asm::encode;
use bl_base::NoMemory;
use bl_x64::Instruction;
use std::alloc::Global;

static DIGITS: [u8; 16] = [
    b'0', b'1', b'2', b'3', b'4', b'5', b'6', b'7', b'8', b'9', b'a', b'b', b'c', b'd', b'e', b'f',
];

/// Appends a word.
pub fn push_word(word: &str, text: &mut Vec<u8>) -> Result<(), NoMemory> {
    text.extend_from_slice(word.as_bytes())?;
    Ok(())
}

/// Appends a byte as two digits.
pub fn push_byte(byte: u8, text: &mut Vec<u8>) -> Result<(), NoMemory> {
    text.push(DIGITS[usize::from(byte / 16)])?;
    text.push(DIGITS[usize::from(byte % 16)])?;
    Ok(())
}

/// Appends bytes as digits.
pub fn push_bytes(bytes: &[u8], text: &mut Vec<u8>) -> Result<(), NoMemory> {
    for byte in bytes {
        push_byte(*byte, text)?;
    }
    Ok(())
}

/// Appends a number as 16 digits, and a space.
pub fn push_number(number: u64, text: &mut Vec<u8>) -> Result<(), NoMemory> {
    push_bytes(&number.to_be_bytes(), text)?;
    text.push(b' ')?;
    Ok(())
}

/// Appends the bytes of instructions as digits. The target of a jump is its distance.
pub fn push_code(alloc: Global, code: &[Instruction], text: &mut Vec<u8>) -> Result<(), NoMemory> {
    let mut bytes: Vec<u8> = Vec::new(alloc);
    for instruction in code {
        encode(*instruction, &mut bytes)?;
    }
    push_bytes(&bytes, text)
}

/// Appends a digit unless it is a leading zero. The answer says whether a digit is there now.
fn push_digit(digit: u8, begun: bool, text: &mut Vec<u8>) -> Result<bool, NoMemory> {
    if !begun && digit == 0 {
        return Ok(false);
    }
    text.push(DIGITS[usize::from(digit % 16)])?;
    Ok(true)
}

/// Appends a number that is not 0 as `0x` and digits, without leading zeros; for 0 only `0x`.
fn push_short(number: u64, text: &mut Vec<u8>) -> Result<(), NoMemory> {
    push_word("0x", text)?;
    let bytes = number.to_be_bytes();
    let mut begun = false;
    for byte in &bytes {
        begun = push_digit(*byte / 16, begun, text)?;
        begun = push_digit(*byte % 16, begun, text)?;
    }
    Ok(())
}

/// Appends a number as `0x` and digits, without leading zeros.
pub fn push_hexadecimal(number: u64, text: &mut Vec<u8>) -> Result<(), NoMemory> {
    if number == 0 {
        return push_word("0x0", text);
    }
    push_short(number, text)
}

/// Appends a number in two's complement with its sign.
pub fn push_signed(number: u32, text: &mut Vec<u8>) -> Result<(), NoMemory> {
    if number < 0x8000_0000 {
        text.push(b'+')?;
        return push_hexadecimal(u64::from(number), text);
    }
    text.push(b'-')?;
    push_hexadecimal(0x1_0000_0000 - u64::from(number), text)
}
