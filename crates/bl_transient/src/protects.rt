//! The protects that stand in a program.
ghost use Rattle.std.specs.Prelude.{◌≡◌, ℕ, IfOk, length};
ghost use Rattle.std.specs.FinSet as fin;
ghost use Rattle.bl_program.specs.Sites.{is_protected};

use bl_base::{NoMemory, Pos, SiteSet};
use bl_program::{ProgramParts, mark_at};
use std::alloc::Global;

/// Whether a protect stands at a position. Takes no memory.
pub fn is_protected(parts: &ProgramParts, at: usize) -> bool
    ensures { result ≡ is_protected parts.now at }
{
    match mark_at(parts, at) {
        Some(mark) => mark.protect,
        None => false,
    }
}

/// The protected sites of a program of so many commands.
pub fn own_protects(alloc: Global, parts: &ProgramParts, commands: u32) -> Result<SiteSet, NoMemory>
    requires { commands ≡ length parts.now.commands }
    ensures { IfOk result (λ set. (s : ℕ) → fin.contains set s ≡ is_protected parts.now s) }
{
    let mut set = SiteSet::new(alloc);
    for s in 0..commands {
        if is_protected(parts, s as usize) {
            set.insert(Pos(s))?;
        }
    }
    Ok(set)
}
