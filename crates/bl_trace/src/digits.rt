//! Words of hexadecimal digits.
ghost use Rattle.std.specs.Prelude.{◌≡◌, IfOk};
ghost use Rattle.bl_trace.specs.Digits.{byte_of, bytes_of_hex};

use bl_base::{NoMemory, Text};
use std::alloc::Global;

/// The byte that two hexadecimal digits write, the high one first.
fn read_byte(high: u8, low: u8) -> Option<u8>
    ensures { result ≡ byte_of high low }
{
    let high = char::from(high).to_digit(16)?;
    let low = char::from(low).to_digit(16)?;
    Some((16 * high + low) as u8)
}

/// The bytes that hexadecimal digits in either case write, two digits a byte; None where the word is anything
/// else.
pub fn read_hex(alloc: Global, word: &[u8]) -> Result<Option<Text>, NoMemory>
    ensures { IfOk result (λ found. found ≡ bytes_of_hex word.now) }
{
    let mut bytes = Vec::new(alloc);
    let mut i = 0;
    while i + 1 < word.len() {
        let Some(byte) = read_byte(word[i], word[i + 1]) else {
            return Ok(None);
        };
        bytes.push(byte)?;
        i += 2;
    }
    if i < word.len() {
        return Ok(None);
    }
    Ok(Some(Text::of(bytes)))
}
