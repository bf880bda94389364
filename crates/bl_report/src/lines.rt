//! The lines of protects.
ghost use Rattle.std.specs.Prelude.{◌≡◌, ◌++◌, All, IfOk};
ghost use Rattle.std.specs.{Fmt.decimal, List.flat_map};
ghost use Rattle.bl_program.specs.Sites.{IsSite};
ghost use Rattle.bl_report.specs.SiteTables.{IsFirst};
ghost use Rattle.bl_report.specs.Reports.{bare_protect_line, bare_protect_text, place_text, protect_line, protect_text};

use crate::first::first_paths;
use bl_base::{NoMemory, Pos};
use bl_graph::FlowPath;
use bl_program::{WellFormed, site_weight};
use itoa::Buffer;
use std::alloc::Global;

/// Puts the lines of the protects at these sites behind a text; does nothing where there are none.
pub(crate) fn push_protects(
    alloc: Global,
    text: &mut Vec<u8>,
    program: &WellFormed,
    paths: &[FlowPath],
    sites: &[u32],
) -> Result<(), NoMemory>
    requires { All (IsSite program.now) sites.now }
    ensures { IfOk result (λ _. text.new.items ≡ text.old.items ++ flat_map (protect_text program.now paths.now) sites.now) }
{
    if sites.is_empty() {
        return Ok(());
    }
    let firsts = first_paths(alloc, program.program().parts().commands.len(), paths)?;
    for site in sites {
        let first = firsts[*site as usize];
        push_protect(text, program, paths, first, *site)?;
    }
    Ok(())
}

/// Puts the line of the protect at a site behind a text, where the first path that takes it has that index; nothing where none does.
fn push_protect(
    text: &mut Vec<u8>,
    program: &WellFormed,
    paths: &[FlowPath],
    first: Option<usize>,
    site: u32,
) -> Result<(), NoMemory>
    requires site { IsSite program.now site }
    requires first { IsFirst paths.now paths.now site first }
    ensures { IfOk result (λ _. text.new.items ≡ text.old.items ++ protect_text program.now paths.now site) }
{
    if let Some(index) = first {
        let weight = site_weight(program, Pos(site));
        push_line(text, site, weight, &paths[index])?;
    }
    Ok(())
}

/// Puts the line of a protect behind a text, with the site's weight and a path that takes it.
fn push_line(text: &mut Vec<u8>, site: u32, weight: u64, path: &FlowPath) -> Result<(), NoMemory>
    ensures { IfOk result (λ _. text.new.items ≡ text.old.items ++ protect_line site weight path.now) }
{
    text.extend_from_slice(b"protect ")?;
    push_number(text, u64::from(site))?;
    text.extend_from_slice(b" weight ")?;
    push_number(text, weight)?;
    text.extend_from_slice(b" path")?;
    push_places(text, path.sites.as_slice())?;
    text.extend_from_slice(b" sink ")?;
    push_number(text, u64::from(path.sink.0))?;
    text.extend_from_slice(b"\n")?;
    Ok(())
}

/// Puts the lines of the protects at these sites behind a text, each with its weight alone.
pub(crate) fn push_bare_protects(
    text: &mut Vec<u8>,
    program: &WellFormed,
    sites: &[u32],
) -> Result<(), NoMemory>
    requires { All (IsSite program.now) sites.now }
    ensures { IfOk result (λ _. text.new.items ≡ text.old.items ++ flat_map (bare_protect_text program.now) sites.now) }
{
    for site in sites {
        push_bare_protect(text, *site, site_weight(program, Pos(*site)))?;
    }
    Ok(())
}

/// Puts the line of a protect behind a text, with the site's weight alone.
fn push_bare_protect(text: &mut Vec<u8>, site: u32, weight: u64) -> Result<(), NoMemory>
    ensures { IfOk result (λ _. text.new.items ≡ text.old.items ++ bare_protect_line site weight) }
{
    text.extend_from_slice(b"protect ")?;
    push_number(text, u64::from(site))?;
    text.extend_from_slice(b" weight ")?;
    push_number(text, weight)?;
    text.extend_from_slice(b"\n")?;
    Ok(())
}

/// Puts positions behind a text, each behind a space.
pub(crate) fn push_places(text: &mut Vec<u8>, sites: &[Pos]) -> Result<(), NoMemory>
    ensures { IfOk result (λ _. text.new.items ≡ text.old.items ++ flat_map (λ s. place_text s.0) sites.now) }
{
    for site in sites {
        push_place(text, site.0)?;
    }
    Ok(())
}

/// Puts a position behind a text.
fn push_place(text: &mut Vec<u8>, place: u32) -> Result<(), NoMemory>
    ensures { IfOk result (λ _. text.new.items ≡ text.old.items ++ place_text place) }
{
    text.extend_from_slice(b" ")?;
    push_number(text, u64::from(place))
}

/// Puts a number behind a text. Its digits take no memory of their own.
fn push_number(text: &mut Vec<u8>, number: u64) -> Result<(), NoMemory>
    ensures { IfOk result (λ _. text.new.items ≡ text.old.items ++ decimal number) }
{
    let mut buffer = Buffer::new();
    text.extend_from_slice(buffer.format(number).as_bytes())?;
    Ok(())
}
