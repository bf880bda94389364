//! A program's sites and protects.
ghost use Rattle.std.specs.Prelude.{◌≡◌, ◌+◌, ◌++◌, ◌<◌, ◌^◌, [], ◌∷◌, IfOk, if◌then◌else◌, is_some, length};
ghost use Rattle.bl_report.specs.{SiteTables.is_protect, Reports.protects, Reports.site_count};

use bl_base::NoMemory;
use bl_program::{Mark, ProgramParts, mark_at};
use std::alloc::Global;

/// A program's sites, which are the commands that write a variable whose value can be protected.
#[derive(Debug, Drop)]
pub(crate) struct Sites {
    /// How many there are.
    pub(crate) count: usize,
    /// The positions of those that are protected, rising.
    pub(crate) protects: Vec<u32>,
}

/// A program's sites, in one pass over its commands.
pub(crate) fn sites_of(alloc: Global, parts: &ProgramParts) -> Result<Sites, NoMemory>
    requires { length parts.now.commands < 2 ^ 32 }
    ensures count { IfOk result (λ sites. sites.count ≡ site_count parts.now) }
    ensures protects { IfOk result (λ sites. sites.protects.items ≡ protects parts.now) }
{
    let mut sites = Sites {
        count: 0,
        protects: Vec::new(alloc),
    };
    for at in 0..parts.commands.len() {
        note_mark(&mut sites, at as u32, mark_at(parts, at))?;
    }
    Ok(sites)
}

/// Counts the site that has the mark at a position, where it has one, and keeps the position where it is protected.
fn note_mark(sites: &mut Sites, at: u32, mark: Option<Mark>) -> Result<(), NoMemory>
    requires { sites.now.count < 2 ^ 32 }
    ensures count { IfOk result (λ _. sites.new.count ≡ sites.old.count + (if is_some mark then 1 else 0)) }
    ensures protects { IfOk result (λ _. sites.new.protects.items ≡ sites.old.protects.items ++ (if is_protect mark then at ∷ [] else [])) }
{
    if let Some(mark) = mark {
        sites.count += 1;
        if mark.protect {
            sites.protects.push(at)?;
        }
    }
    Ok(())
}
