//! The text on two runs.
ghost use Rattle.std.specs.Prelude.{◌≡◌, ◌++◌, IfOk};
ghost use Rattle.std.specs.List.{flat_map};
ghost use Rattle.bl_rob.specs.CallResults.{seen_in};
ghost use Rattle.bl_twin.specs.TwinComparisons.{agreement_text, comparison_by, compared, ending_text, numbered, shown_text, twin_text_by};

use crate::comparison::{Comparison, Shown, common_front, compared, shown_behind};
use crate::sight::Sight;
use bl_base::{NoMemory, Text};
use bl_rob::Observed;
use std::alloc::Global;

/// A comparison of two runs, and the text on it.
#[derive(Debug, Drop)]
pub struct Compared {
    /// How what is observed of the two runs compares.
    pub comparison: Comparison,
    /// The text.
    pub text: Text,
}

/// Compares what is observed of two runs, and tells it: a line on whether the starts agree in public, the lines of the observations
/// that both runs begin with, and then `equal K` with the number of directives; `stuck K` where both refuse the directive at place
/// K, from 1; or `differ K` and what each run shows there, which is the line of its observation, or `stuck`. Linear in the
/// observations.
pub fn compare<O: Sight>(
    alloc: Global,
    agree: bool,
    one: &Observed<O>,
    other: &Observed<O>,
) -> Result<Compared, NoMemory>
    ensures comparison { IfOk result (λ compared. compared.comparison ≡ comparison_by O.alike (seen_in one.now) (seen_in other.now)) }
    ensures text { IfOk result (λ compared. compared.text ≡ twin_text_by O.alike O.line agree (seen_in one.now) (seen_in other.now)) }
{
    let made = one.made.as_slice();
    let count = common_front(made, other.made.as_slice());
    let first = shown_behind(one, count);
    let second = shown_behind(other, count);
    let mut text = first_line(alloc, agree)?;
    push_observations(alloc, &mut text, &made[..count])?;
    push_ending(alloc, &mut text, count, first, second)?;
    Ok(Compared {
        comparison: compared(first, second),
        text: Text::of(text),
    })
}

/// The line on whether the starts agree in public.
fn first_line(alloc: Global, agree: bool) -> Result<Vec<u8>, NoMemory>
    ensures { IfOk result (λ line. line.items ≡ agreement_text agree) }
{
    if agree {
        return Ok(b"public agree\n".to_vec(alloc)?);
    }
    Ok(b"public differ\n".to_vec(alloc)?)
}

/// Puts the lines of observations behind a text.
fn push_observations<O: Sight>(
    alloc: Global,
    text: &mut Vec<u8>,
    observations: &[O],
) -> Result<(), NoMemory>
    ensures { IfOk result (λ _. text.new.items ≡ text.old.items ++ flat_map O.line observations.now) }
{
    for observation in observations {
        observation.print(alloc, text)?;
    }
    Ok(())
}

/// Puts the last line or lines behind a text, where so many observations are common and each run shows that behind them.
fn push_ending<O: Sight>(
    alloc: Global,
    text: &mut Vec<u8>,
    count: usize,
    one: Shown<O>,
    other: Shown<O>,
) -> Result<(), NoMemory>
    ensures { IfOk result (λ _. text.new.items ≡ text.old.items ++ ending_text O.line (compared one other) count one other) }
{
    match compared(one, other) {
        Comparison::Equal => push_numbered(alloc, text, "equal ", count as u128)?,
        Comparison::Stuck => push_numbered(alloc, text, "stuck ", count as u128 + 1)?,
        Comparison::Differ => {
            push_numbered(alloc, text, "differ ", count as u128 + 1)?;
            push_shown(alloc, text, one)?;
            push_shown(alloc, text, other)?;
        }
    }
    Ok(())
}

/// Puts a line of a word and a number behind a text. The place behind any count of observations fits.
fn push_numbered(
    alloc: Global,
    text: &mut Vec<u8>,
    word: &str,
    number: u128,
) -> Result<(), NoMemory>
    ensures { IfOk result (λ _. text.new.items ≡ text.old.items ++ numbered word.now number) }
{
    let line = format!(in alloc; "{word}{number}\n")?;
    text.extend_from_slice(line.as_bytes())?;
    Ok(())
}

/// Puts the line of what a run shows behind a text.
fn push_shown<O: Sight>(alloc: Global, text: &mut Vec<u8>, shown: Shown<O>) -> Result<(), NoMemory>
    ensures { IfOk result (λ _. text.new.items ≡ text.old.items ++ shown_text O.line shown) }
{
    match shown {
        Shown::Seen(observation) => observation.print(alloc, text),
        Shown::Stuck => Ok(text.extend_from_slice(b"stuck\n")?),
        Shown::Over => Ok(()),
    }
}
