//! Lines of observations.
ghost use Rattle.std.specs.Prelude.{◌≡◌, ◌++◌, ◌∷◌, [], ◌<◌, ◌≤◌, OnErr, OnOk, IfOk, codes};
ghost use Rattle.std.specs.{Fmt.decimal, List.flat_map, List.range_with_len};
ghost use Rattle.bl_trace.specs.Observations.{guard_text, guards_text, observation_text};

use bl_base::NoMemory;
use bl_rob::Observation;
use std::alloc::Global;

/// Puts the line of an observation behind a text: `none`; `read ADDRESS` or `write ADDRESS`; `divide A B`; `rollback N`; or `fail`.
/// Where guards stand before the entry of a read, a write or a division, ` guards` and their places follow, rising. A refusal
/// leaves the text as it was.
pub fn print_observation(
    alloc: Global,
    to: &mut Vec<u8>,
    observation: &Observation,
) -> Result<(), NoMemory>
    ensures ok { OnOk result (to.new.items ≡ to.old.items ++ observation_text observation.now) }
    ensures err { OnErr result (to.new.items ≡ to.old.items) }
{
    match observation {
        Observation::Nothing => to.extend_from_slice(b"none\n")?,
        _ => to.extend_from_slice(&line_of(alloc, observation)?)?,
    }
    Ok(())
}

/// The line of an observation.
fn line_of(alloc: Global, observation: &Observation) -> Result<Vec<u8>, NoMemory>
    ensures { IfOk result (λ line. line.items ≡ observation_text observation.now) }
{
    match observation {
        Observation::Nothing => Ok(b"none\n".to_vec(alloc)?),
        Observation::Read { address, guards } => {
            let text = format!(in alloc; "read {address}")?;
            guarded(alloc, text.into_bytes(), *guards)
        }
        Observation::Write { address, guards } => {
            let text = format!(in alloc; "write {address}")?;
            guarded(alloc, text.into_bytes(), *guards)
        }
        Observation::Divide { a, b, guards } => guarded(alloc, division(alloc, *a, *b)?, *guards),
        Observation::Rollback(place) => {
            let text = format!(in alloc; "rollback {place}\n")?;
            Ok(text.into_bytes())
        }
        Observation::Fail => Ok(b"fail\n".to_vec(alloc)?),
    }
}

/// A division, without the guards.
fn division(alloc: Global, a: u64, b: u64) -> Result<Vec<u8>, NoMemory>
    ensures { IfOk result (λ text. text.items ≡ codes "divide " ++ decimal a ++ codes " " ++ decimal b) }
{
    let text = format!(in alloc; "divide {a} {b}")?;
    Ok(text.into_bytes())
}

/// The line that begins with a text, with the guards of a mask behind it.
pub fn guarded(alloc: Global, mut text: Vec<u8>, mask: u64) -> Result<Vec<u8>, NoMemory>
    ensures { IfOk result (λ line. line.items ≡ text.items ++ guards_text mask ++ 10 ∷ []) }
{
    if mask == 0 {
        text.push(b'\n')?;
        return Ok(text);
    }
    text.extend_from_slice(b" guards")?;
    push_guards(alloc, &mut text, mask, 64)?;
    text.push(b'\n')?;
    Ok(text)
}

/// Puts the places of the guards of a mask, of those below one, behind a text.
fn push_guards(alloc: Global, text: &mut Vec<u8>, mask: u64, count: u32) -> Result<(), NoMemory>
    requires { count ≤ 64 }
    ensures { IfOk result (λ _. text.new.items ≡ text.old.items ++ flat_map (guard_text mask) (range_with_len 0 count)) }
{
    for place in 0..count {
        push_guard(alloc, text, mask, place)?;
    }
    Ok(())
}

/// Puts a place behind a text, where a guard of a mask stands there.
fn push_guard(alloc: Global, text: &mut Vec<u8>, mask: u64, place: u32) -> Result<(), NoMemory>
    requires { place < 64 }
    ensures { IfOk result (λ _. text.new.items ≡ text.old.items ++ guard_text mask place) }
{
    if (mask >> place) & 1 == 0 {
        return Ok(());
    }
    let piece = format!(in alloc; " {place}")?;
    text.extend_from_slice(piece.as_bytes())?;
    Ok(())
}
