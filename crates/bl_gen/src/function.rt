//! The code of the functions.
ghost use Rattle.std.specs.Prelude.{◌≡◌, ◌≤◌, ◌<◌, ◌++◌, IfOk};
ghost use Rattle.bl_gen.specs.GeneratedModule.{call_before, function, item, items, item_kind};

use crate::number::push_number;
use bl_base::NoMemory;

/// Puts function i behind some bytes.
#[tactic(auto, unfolding(crate::specs::GeneratedModule::function))]
pub(crate) fn push_function(to: &mut Vec<u8>, seed: u64, i: u32) -> Result<(), NoMemory>
    ensures { IfOk result (λ _. to.new.items ≡ to.old.items ++ function seed i) }
{
    to.extend_from_slice(&[0x01, 0x01, 0x7F])?;
    push_items(to, seed, i, 8)?;
    push_call(to, i)?;
    to.extend_from_slice(&[0x20, 0x01, 0x0B])?;
    Ok(())
}

/// Puts the first items of function i behind some bytes.
fn push_items(to: &mut Vec<u8>, seed: u64, i: u32, count: u64) -> Result<(), NoMemory>
    requires { count ≤ 8 }
    ensures { IfOk result (λ _. to.new.items ≡ to.old.items ++ items seed i count) }
{
    for j in 0..count {
        push_item(to, kind(seed, i, j))?;
    }
    Ok(())
}

/// The kind of item j of function i. The sum doesn't wrap, since only the seed's last two bits are added.
fn kind(seed: u64, i: u32, j: u64) -> u64
    requires { j < 8 }
    ensures { result ≡ item_kind seed i j }
{
    (seed % 4 + u64::from(i) + j * (j + 1) / 2) % 4
}

/// Puts an item of a kind behind some bytes.
#[tactic(auto, unfolding(crate::specs::GeneratedModule::item))]
fn push_item(to: &mut Vec<u8>, kind: u64) -> Result<(), NoMemory>
    ensures { IfOk result (λ _. to.new.items ≡ to.old.items ++ item kind) }
{
    if kind == 0 {
        to.extend_from_slice(&[0x20, 0x00, 0x28, 0x02, 0x00, 0x21, 0x01])?;
    } else if kind == 1 {
        to.extend_from_slice(&[0x20, 0x01, 0x28, 0x02, 0x00, 0x21, 0x01])?;
    } else if kind == 2 {
        to.extend_from_slice(&[0x03, 0x40, 0x20, 0x01, 0x28, 0x02, 0x00, 0x21, 0x00, 0x0B])?;
    } else {
        to.extend_from_slice(&[0x20, 0x00, 0x20, 0x01, 0x6A, 0x21, 0x01])?;
    }
    Ok(())
}

/// Puts the call of the function before function i behind some bytes; nothing where there is none.
#[tactic(auto, unfolding(crate::specs::GeneratedModule::call_before))]
fn push_call(to: &mut Vec<u8>, i: u32) -> Result<(), NoMemory>
    ensures { IfOk result (λ _. to.new.items ≡ to.old.items ++ call_before i) }
{
    if i > 0 {
        to.extend_from_slice(&[0x20, 0x01, 0x10])?;
        push_number(to, u64::from(i - 1))?;
        to.extend_from_slice(&[0x21, 0x01])?;
    }
    Ok(())
}
