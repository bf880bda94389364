//! The numbers of a `gen`, as words say them.
ghost use Rattle.std.specs.Prelude.{◌≡◌};
ghost use Rattle.bl_words.specs.Requests.{seed_of, size_of};

use bl_base::Quantity;
use bl_text::read_decimal;

/// A number below 2^64 in one to twenty decimal digits, without a sign.
pub fn read_seed(word: &str) -> Option<u64>
    ensures { result ≡ seed_of word.now }
{
    match read_decimal(word.as_bytes(), u64::MAX) {
        Some(seed) if word.len() < 21 => Some(seed),
        _ => None,
    }
}

/// A number from 1 to the most functions of a module, in one to five decimal digits, without a sign.
pub fn read_size(word: &str) -> Option<u32>
    ensures { result ≡ size_of word.now }
{
    match read_decimal(word.as_bytes(), Quantity::Functions.limit()) {
        Some(size) if size > 0 && word.len() < 6 => Some(size as u32),
        _ => None,
    }
}
