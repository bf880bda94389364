//! Numbers of types: equal types have one number.
ghost use Rattle.std.specs.Prelude.{◌≡◌, ◌++◌, IfOk, OnOk, map, unwrap_or};
ghost use Rattle.bl_wasm.specs.Exports.{value_named};
ghost use Rattle.bl_wasm.specs.TypeNumbers.{letter, spelled, type_numbers, with_number};

use crate::linked::Signature;
use crate::named::Named;
use bl_base::{List, NoMemory, ValueType};
use std::alloc::Global;

/// The number of a text; where it had none, the next one, which it has then.
fn number(known: &mut Named<usize>, text: Vec<u8>, next: usize) -> Result<usize, NoMemory>
    ensures value { IfOk result (λ number. number ≡ unwrap_or (value_named text.items known.old) next) }
    ensures after { OnOk result (known.new ≡ with_number (value_named text.items known.old) text.items next known.old) }
{
    if let Some(number) = known.get(&text) {
        return Ok(number);
    }
    known.add(text, next)?;
    Ok(next)
}

/// For each type the number of the first one that is equal to it (`type_numbers`). Linear in the types.
pub fn number_types(alloc: Global, types: &[Signature]) -> Result<List<usize>, NoMemory>
    ensures { IfOk result (λ numbers. numbers ≡ type_numbers types.now) }
{
    let mut known = Named::new(alloc);
    let mut numbers = Vec::new(alloc);
    for (i, kind) in types.iter().enumerate() {
        let text = text_of(alloc, kind)?;
        let number = number(&mut known, text, i)?;
        numbers.push(number)?;
    }
    Ok(List::of(numbers))
}

/// A type as a text.
fn text_of(alloc: Global, kind: &Signature) -> Result<Vec<u8>, NoMemory>
    ensures { IfOk result (λ text. text.items ≡ spelled kind.now) }
{
    let mut text = Vec::new(alloc);
    push_letters(&mut text, kind.params.as_slice())?;
    text.push(b':')?;
    push_letters(&mut text, kind.results.as_slice())?;
    Ok(text)
}

/// Puts a letter for each of these types behind a text.
fn push_letters(text: &mut Vec<u8>, types: &[ValueType]) -> Result<(), NoMemory>
    ensures { OnOk result (text.new.items ≡ text.old.items ++ map letter types.now) }
{
    for kind in types {
        match kind {
            ValueType::I32 => text.push(b'i')?,
            ValueType::I64 => text.push(b'l')?,
        }
    }
    Ok(())
}
