//! What a number of JSON is for a certificate.
ghost use Rattle.std.specs.Prelude.{◌≡◌, ◌<◌, ◌==◌, IsTrue, false, is_some, length, option_and_then, slice_index, true};
ghost use Rattle.serde_json.specs.Find.{as_u64};
ghost use Rattle.serde_json.specs.Read.{float_of, number_from, number_of};

use fast_float::Numeral;

/// The number below 2^64 that digits alone write; none for one with a sign, a point or an exponent.
pub(crate) fn whole_number(text: &str) -> Option<u64>
    ensures { result ≡ option_and_then as_u64 (number_of text.now) }
{
    let bytes = text.as_bytes();
    if has_minus(bytes) {
        return None;
    }
    unsigned_number(&Numeral::scan(bytes))
}

/// The same of what has no minus.
#[tactic(auto, using(crate::proofs::NumberTexts::float_is_none))]
fn unsigned_number(numeral: &Numeral<'_>) -> Option<u64>
    ensures { result ≡ option_and_then as_u64 (number_from false numeral.now) }
{
    match numeral.to_u64() {
        Some(number) => Some(number),
        None => None,
    }
}

/// Whether a number is one of `serde_json`: a whole one of 64 bits, or one that isn't too large for a float of them.
pub(crate) fn is_in_range(text: &str) -> bool
    ensures { result ≡ is_some (number_of text.now) }
{
    let bytes = text.as_bytes();
    if has_minus(bytes) {
        return is_negative_in_range(&Numeral::scan(&bytes[1..]));
    }
    is_unsigned_in_range(&Numeral::scan(bytes))
}

/// The same of what has no minus.
fn is_unsigned_in_range(numeral: &Numeral<'_>) -> bool
    ensures { result ≡ is_some (number_from false numeral.now) }
{
    match numeral.to_u64() {
        Some(_) => true,
        None => is_finite(false, numeral),
    }
}

/// The same of what stands behind a minus.
fn is_negative_in_range(numeral: &Numeral<'_>) -> bool
    ensures { result ≡ is_some (number_from true numeral.now) }
{
    if let Some(number) = numeral.to_i64(true) {
        if number < 0 {
            return true;
        }
    }
    is_finite(true, numeral)
}

/// Whether the nearest float is finite.
fn is_finite(negative: bool, numeral: &Numeral<'_>) -> bool
    ensures { result ≡ is_some (float_of negative numeral.now) }
{
    numeral.to_float::<f64>(negative).is_finite()
}

/// Whether a minus stands first.
fn has_minus(bytes: &[u8]) -> bool
    ensures value { result ≡ (slice_index bytes.now 0 == 45) }
    ensures some { IsTrue result → 0 < length bytes.now }
{
    !bytes.is_empty() && bytes[0] == b'-'
}
