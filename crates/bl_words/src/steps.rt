//! The most steps of a run, and of a drive, as words say them.
ghost use Rattle.std.specs.Prelude.{◌≡◌};
ghost use Rattle.bl_words.specs.Requests.{number_of_steps, steps_of, drive_steps_of};
ghost use Rattle.bl_words.specs.Words.{text_in};

use bl_base::Quantity;
use bl_text::read_decimal;

/// The most steps of an `interp`, a `run` or a `predict` that doesn't say them.
const DEFAULT_STEPS: u64 = 1_000_000;

/// The greatest number of steps that may be asked for.
const GREATEST_STEPS: u64 = 4_294_967_295;

/// The most steps, by the value of `--steps`.
pub fn most_steps(value: Option<&str>) -> Option<u64>
    ensures { result ≡ steps_of (text_in value.entry) }
{
    match value {
        None => Some(DEFAULT_STEPS),
        Some(value) => read_steps(value),
    }
}

/// The most steps of a `predict`, by the value of `--steps`: at most as many as a trace file may have lines.
pub fn most_drive_steps(value: Option<&str>) -> Option<u64>
    ensures { result ≡ drive_steps_of (text_in value.entry) }
{
    match most_steps(value) {
        Some(steps) if steps <= Quantity::Directives.limit() => Some(steps),
        _ => None,
    }
}

/// A number from 1 to 4,294,967,295 in one to ten decimal digits, without a sign.
fn read_steps(word: &str) -> Option<u64>
    ensures { result ≡ number_of_steps word.now }
{
    match read_decimal(word.as_bytes(), GREATEST_STEPS) {
        Some(steps) if steps > 0 && word.len() < 11 => Some(steps),
        _ => None,
    }
}
