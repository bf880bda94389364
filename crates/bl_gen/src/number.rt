//! Numbers, and what stands behind its size.
ghost use Rattle.std.specs.Prelude.{◌≡◌, ◌++◌, IfOk};
ghost use Rattle.bl_gen.specs.GeneratedModule.{leb, section, sized};

use bl_base::NoMemory;
use bl_leb::push_u64;

/// Puts the shortest spelling of a number behind some bytes.
pub(crate) fn push_number(to: &mut Vec<u8>, number: u64) -> Result<(), NoMemory>
    ensures { IfOk result (λ _. to.new.items ≡ to.old.items ++ leb number) }
{
    push_u64(to, number)
}

/// Puts contents behind some bytes, and before them their size.
pub(crate) fn push_sized(to: &mut Vec<u8>, contents: &[u8]) -> Result<(), NoMemory>
    ensures { IfOk result (λ _. to.new.items ≡ to.old.items ++ sized contents.now) }
{
    push_number(to, contents.len() as u64)?;
    to.extend_from_slice(contents)?;
    Ok(())
}

/// Puts a section behind some bytes.
pub(crate) fn push_section(to: &mut Vec<u8>, id: u8, contents: &[u8]) -> Result<(), NoMemory>
    ensures { IfOk result (λ _. to.new.items ≡ to.old.items ++ section id contents.now) }
{
    to.push(id)?;
    push_sized(to, contents)
}
