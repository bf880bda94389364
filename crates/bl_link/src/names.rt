//! The names of exports in the tree.
ghost use Rattle.std.specs.Prelude.{◌≡◌, ◌++◌, ℕ, List as Listed, filter_map, map, IfOk};
ghost use Rattle.bl_wasm.specs.Exports.{AreDistinct};
ghost use Rattle.bl_link.specs.{Links.exported as exported_of, Links.pair, ExportNames.qualified as qualified_of, OwnNames.own};
ghost use Rattle.bl_link.specs.{IndexSpaces.space as space_of, Stores.AreApart};

use crate::all_names::AllNames;
use crate::rename::number;
use crate::store::{External, Spaces};
use bl_base::{List, NoMemory, Text};
use bl_wasm::{Export, ExportKind, Exports, Named};
use std::alloc::Global;

/// The name of an export behind its part's: a solidus parts them. Takes as many bytes as it has.
pub(crate) fn qualified(alloc: Global, part: &[u8], name: &[u8]) -> Result<Vec<u8>, NoMemory>
    ensures { IfOk result (λ whole. whole.items ≡ qualified_of part.now name.now) }
{
    let room = part.len().saturating_add(name.len()).saturating_add(1);
    let mut whole = Vec::with_capacity(alloc, room)?;
    whole.extend_from_slice(part)?;
    whole.push(b'/')?;
    whole.extend_from_slice(name)?;
    Ok(whole)
}

/// The space of a kind.
fn space(spaces: &Spaces, kind: ExportKind) -> &List<u32>
    ensures { result.now ≡ space_of spaces.now kind }
{
    match kind {
        ExportKind::Function => &spaces.functions,
        ExportKind::Table => &spaces.tables,
        ExportKind::Memory => &spaces.memories,
        ExportKind::Global => &spaces.globals,
    }
}

/// What is exported, by its number in the tree.
fn external(spaces: &Spaces, entry: &Export) -> External
    ensures { (name : Listed ℕ) → (exported_of name spaces.now entry.now).1 ≡ result }
{
    External {
        kind: entry.kind,
        number: number(space(spaces, entry.kind), entry.index),
    }
}

/// The exports of a part by their own names.
fn own_names(
    alloc: Global,
    spaces: &Spaces,
    entries: &[Export],
) -> Result<Named<External>, NoMemory>
    requires { AreApart (λ entry. entry.name) entries.now }
    ensures { IfOk result (λ names. names ≡ map (own spaces.now) entries.now) }
{
    let mut names = Named::new(alloc);
    for entry in entries {
        let name = Text::copy_of(alloc, entry.name.as_slice())?.into_vec();
        names.add(name, external(spaces, entry))?;
    }
    Ok(names)
}

/// The exports of all parts, behind those of the parts before.
pub(crate) fn with_names(
    alloc: Global,
    before: AllNames,
    part: &[u8],
    spaces: &Spaces,
    entries: &[Export],
) -> Result<AllNames, NoMemory>
    requires { AreApart (λ value. value.0) (before ++ map (exported_of part.now spaces.now) entries.now) }
    ensures { IfOk result (λ names. names ≡ before ++ map (exported_of part.now spaces.now) entries.now) }
{
    let mut names = before;
    let own = own_names(alloc, spaces, entries)?;
    names.add(Text::copy_of(alloc, part)?, own)?;
    Ok(names)
}

/// The exported functions of all parts, behind those of the parts before.
pub(crate) fn with_functions(
    alloc: Global,
    before: Exports,
    part: &[u8],
    spaces: &Spaces,
    entries: &[Export],
) -> Result<Exports, NoMemory>
    requires { AreDistinct (before ++ filter_map (λ entry. pair (exported_of part.now spaces.now entry)) entries.now) }
    ensures { IfOk result (λ all. all ≡ before ++ filter_map (λ entry. pair (exported_of part.now spaces.now entry)) entries.now) }
{
    let mut exports = before;
    for entry in entries {
        if entry.kind == ExportKind::Function {
            let name = qualified(alloc, part, entry.name.as_slice())?;
            exports.add(name, number(&spaces.functions, entry.index))?;
        }
    }
    Ok(exports)
}
