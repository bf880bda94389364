//! Expressions (WebAssembly 1.0, section 5.4.6).
ghost use Rattle.std.specs.Prelude.{◌≡◌, ◌≤◌, ◌↔◌, [], Some, None, List as Listed, length, reverse, IsTrue, IsErrOf, OnOk};
ghost use Rattle.std.specs.Option.{option_map};
ghost use Rattle.bl_wasm.specs.{Instructions.expression, declared.instruction.Instr.TheVariants.End};
ghost use Rattle.bl_wasm.specs.OpenConstructs.{Construct, open_behind};
ghost use Rattle.bl_code.specs.{Constructs.kept, ReaderAnswers.Reads};

use crate::error::CodeError;
use crate::instruction::read_instr;
use bl_base::List;
use bl_wasm::Instr;
use std::alloc::Global;

/// A construct that has begun and not ended.
#[derive(Clone, Copy)]
enum Open {
    /// An if whose `else` may come.
    BeforeElse,
    /// A block, a loop, or an if behind its `else`.
    Other,
}

/// Reads the expression whose spelling begins at `at`, a place of `bytes` or their length: items that nest, and an `end`
/// (section 5.4.6). Ok gives the items without that `end`, and the place after it. Malformed comes exactly where no
/// expression begins there: an item isn't read, an `else` stands anywhere but in an if before its `else`, or the bytes
/// end before it does. It reads no byte more than twice, goes down no deeper the more constructs are open, and keeps no more items
/// and open constructs than there are bytes.
pub fn read_expression(
    alloc: Global,
    bytes: &[u8],
    at: usize,
) -> Result<(List<Instr>, usize), CodeError>
    requires { at ≤ length bytes.now }
    ensures { Reads expression bytes.now at result }
{
    let mut items = List::new(alloc);
    let mut constructs = Vec::new(alloc);
    let mut place = at;
    loop {
        let (item, after) = read_instr(alloc, bytes, place)?;
        if is_last(&constructs, &item) {
            return Ok((items, after));
        }
        nest(&mut constructs, &item)?;
        items.push(item)?;
        place = after;
    }
}

/// Whether the item is the `end` of the expression: an `end` while no construct is open.
fn is_last(constructs: &[Open], item: &Instr) -> bool
    ensures { IsTrue result ↔ ((constructs.now ≡ []) × (item.now ≡ End)) }
{
    constructs.is_empty() && matches!(item, Instr::End)
}

/// Opens what the item begins, and closes what it ends. Malformed exactly where it may not stand.
fn nest(constructs: &mut Vec<Open>, item: &Instr) -> Result<(), CodeError>
    ensures ok { (open_ones : Listed Construct) → kept open_ones ≡ reverse constructs.old.items →
        OnOk result (option_map kept (open_behind item.now open_ones) ≡ Some (reverse constructs.new.items)) }
    ensures malformed { (open_ones : Listed Construct) → kept open_ones ≡ reverse constructs.old.items →
        IsErrOf result CodeError.Malformed → open_behind item.now open_ones ≡ None }
{
    match item {
        Instr::Block(_) | Instr::Loop(_) => constructs.push(Open::Other)?,
        Instr::If(_) => constructs.push(Open::BeforeElse)?,
        Instr::Else => {
            let Some(Open::BeforeElse) = constructs.pop() else {
                return Err(CodeError::Malformed);
            };
            constructs.push(Open::Other)?;
        }
        Instr::End => {
            if constructs.pop().is_none() {
                return Err(CodeError::Malformed);
            }
        }
        _ => {}
    }
    Ok(())
}
