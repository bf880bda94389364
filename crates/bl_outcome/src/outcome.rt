//! How a run ended, as it is told.
ghost use Rattle.std.specs.Prelude.{◌≡◌, ◌++◌, IfOk, codes, map};
ghost use Rattle.std.specs.Fmt.{decimal};
ghost use Rattle.bl_base.specs.{Trap.text_of, Runs.memory_of, Runs.outcome_of};
ghost use Rattle.bl_outcome.specs.Lines.{line};
ghost use Rattle.bl_outcome.specs.Outcomes.{outcome_text, type_word, value_text, values_text};

use crate::memories::with_memories;
use bl_base::{NoMemory, Pages, Run, Trap, ValueType};
use std::alloc::Global;

/// The text of a run that was given so many steps: a line of its results, each with its type and unsigned, or of the trap, and then
/// each memory; or a line of the steps that were spent. `kinds` are the types of the results, `initial_memories` the memories at the
/// start. Linear in the results and in the bytes of the memories.
pub fn outcome_text(
    alloc: Global,
    kinds: &[ValueType],
    initial_memories: &[Pages],
    steps: u64,
    run: &Run,
) -> Result<Vec<u8>, NoMemory>
    ensures { IfOk result (λ text. text.items ≡ outcome_text kinds.now (map memory_of initial_memories.now) steps (outcome_of run.now)) }
{
    match run {
        Run::Returned { values, memories } => {
            let text = returned_line(alloc, kinds, values.as_slice())?;
            with_memories(alloc, text, initial_memories, memories.as_slice())
        }
        Run::Trapped { kind, memories } => {
            let text = trapped_line(alloc, *kind)?;
            with_memories(alloc, text, initial_memories, memories.as_slice())
        }
        Run::Spent => spent_line(alloc, steps),
    }
}

/// The line of the results.
fn returned_line(alloc: Global, kinds: &[ValueType], values: &[u64]) -> Result<Vec<u8>, NoMemory>
    ensures { IfOk result (λ text. text.items ≡ line (codes "returned" ++ values_text kinds.now values.now)) }
{
    let mut text = "returned".as_bytes().to_vec(alloc)?;
    for (kind, value) in kinds.iter().zip(values) {
        push_value(alloc, &mut text, *kind, *value)?;
    }
    text.push(b'\n')?;
    Ok(text)
}

/// Puts a result behind the text: its type and its value.
fn push_value(
    alloc: Global,
    text: &mut Vec<u8>,
    kind: ValueType,
    value: u64,
) -> Result<(), NoMemory>
    ensures { IfOk result (λ _. text.new.items ≡ text.old.items ++ value_text kind value) }
{
    let piece = format!(in alloc; " {} {value}", type_word(kind))?;
    text.extend_from_slice(piece.as_bytes())?;
    Ok(())
}

/// The word of a type.
fn type_word(kind: ValueType) -> &'static str
    ensures { result.now ≡ type_word kind }
{
    match kind {
        ValueType::I32 => "i32",
        ValueType::I64 => "i64",
    }
}

/// The line of a trap.
fn trapped_line(alloc: Global, kind: Trap) -> Result<Vec<u8>, NoMemory>
    ensures { IfOk result (λ text. text.items ≡ line (codes "trapped " ++ text_of kind)) }
{
    let text = format!(in alloc; "trapped {}\n", kind.text())?;
    Ok(text.into_bytes())
}

/// The line of a run that had not ended.
fn spent_line(alloc: Global, steps: u64) -> Result<Vec<u8>, NoMemory>
    ensures { IfOk result (λ text. text.items ≡ line (codes "spent " ++ decimal steps)) }
{
    let text = format!(in alloc; "spent {steps}\n")?;
    Ok(text.into_bytes())
}
