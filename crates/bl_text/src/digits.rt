//! Numbers in decimal digits.
ghost use Rattle.std.specs.Prelude.{◌≡◌, ◌+◌, ◌≤◌, IfSome};
ghost use Rattle.bl_text.specs.Digits.{decimal_below};

/// The number that decimal digits write, one or more of them, leading zeros among them; None where the word is
/// anything else or the number is above `max`.
pub fn read_decimal(word: &[u8], max: u64) -> Option<u64>
    ensures number { result ≡ decimal_below (max + 1) word.now }
    ensures within { IfSome result (λ value. value ≤ max) }
{
    if word.is_empty() {
        return None;
    }
    let mut value = 0u64;
    for byte in word {
        let digit = char::from(*byte).to_digit(10)?;
        let next = 10 * u128::from(value) + u128::from(digit);
        if next > u128::from(max) {
            return None;
        }
        value = next as u64;
    }
    Some(value)
}
