//! The values of options.
ghost use Rattle.std.specs.Prelude.{◌≡◌, option_map};
ghost use Rattle.clap.specs.Walk.{texts};
ghost use Rattle.bl_words.specs.{Requests.is_value as may_be_value, Requests.value_of as value_among, Words.text_in};

/// The value of an option, by all that it is given: at most one may stand, and it isn't empty and doesn't begin with `-`.
pub fn value_of<'a>(values: &[&'a str]) -> Option<Option<&'a str>>
    ensures { option_map text_in result ≡ value_among (texts values.now) }
{
    match values {
        [] => Some(None),
        [value] => {
            if is_value(*value) {
                return Some(Some(*value));
            }
            None
        }
        _ => None,
    }
}

/// Whether a word may be a value: it isn't empty and doesn't begin with `-`.
fn is_value(word: &str) -> bool
    ensures { result ≡ may_be_value word.now }
{
    match word.as_bytes() {
        [first, ..] => *first != 45,
        [] => false,
    }
}
