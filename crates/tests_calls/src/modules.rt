//! Modules by their sections, and calls on them.
use crate::calls::{end_alike, ends};
use crate::shelves::{shelf_of, stands};
use bl_base::{List, NoMemory};
use bl_outside::MemoryShelf;
use std::alloc::Global;
use tests_samples::EMPTY;

/// The line of a call that hardens the module `m.wasm`.
pub const HARDEN: &str = "blade harden i.img i.json m.wasm";

/// The line of a call that lowers it.
pub const LOWER: &str = "blade lower i.img m.wasm";

/// The line of a call that runs function `f` of its image from a start file.
pub const RUN: &str = "blade run i.img m/f start";

/// The line of a call that interprets that function.
pub const INTERP: &str = "blade interp m/f start m.wasm";

/// The module of some sections behind the magic and the version.
pub fn module_of(alloc: Global, sections: &[u8]) -> Result<Vec<u8>, NoMemory> {
    let mut bytes = EMPTY.to_vec(alloc)?;
    bytes.extend_from_slice(sections)?;
    Ok(bytes)
}

/// The size of a custom section `blade.labels` of those bytes, which is spelled in one byte; None where there are none.
fn size_of(labels: &[u8]) -> Option<u8> {
    if labels.is_empty() || labels.len() > 100 {
        return None;
    }
    u8::try_from(labels.len() + 13).ok()
}

/// Puts the module of some sections, with a custom section `blade.labels` of those bytes behind them; with none where there are no bytes.
pub fn put_labelled(
    alloc: Global,
    shelf: &mut MemoryShelf,
    name: &str,
    sections: &[u8],
    labels: &[u8],
) -> Result<(), NoMemory> {
    let mut bytes = module_of(alloc, sections)?;
    if let Some(size) = size_of(labels) {
        bytes.extend_from_slice(&[0x00, size])?;
        bytes.extend_from_slice(b"\x0Cblade.labels")?;
        bytes.extend_from_slice(labels)?;
    }
    shelf.put(name, &bytes)
}

/// A shelf with the module `m.wasm` of some sections, with such labels.
pub fn labelled_shelf(
    alloc: Global,
    sections: &[u8],
    labels: &[u8],
) -> Result<MemoryShelf, NoMemory> {
    let mut shelf = MemoryShelf::new(alloc, List::new(alloc));
    put_labelled(alloc, &mut shelf, "m.wasm", sections, labels)?;
    Ok(shelf)
}

/// Puts the module of some sections on a shelf, without labels.
pub fn put_module(
    alloc: Global,
    shelf: &mut MemoryShelf,
    name: &str,
    sections: &[u8],
) -> Result<(), NoMemory> {
    let module = module_of(alloc, sections)?;
    shelf.put(name, &module)
}

/// A shelf with modules, each of some sections, and a start file.
pub fn shelf_with(
    alloc: Global,
    modules: &[(&str, &[u8])],
    start: &str,
) -> Result<MemoryShelf, NoMemory> {
    let mut shelf = MemoryShelf::new(alloc, List::new(alloc));
    for (name, sections) in modules {
        put_module(alloc, &mut shelf, *name, *sections)?;
    }
    shelf.put("start", start.as_bytes())?;
    Ok(shelf)
}

/// Whether a call on a module ends so, and an image is kept where the status is 0.
pub fn is_told(
    alloc: Global,
    module: &[u8],
    line: &str,
    status: u8,
    text: &str,
) -> Result<bool, NoMemory> {
    let mut shelf = shelf_of(alloc, &[("m.wasm", module)])?;
    let ended = ends(alloc, &mut shelf, line, status, text)?;
    Ok(ended && stands(&shelf, "i.img") == (status == 0))
}

/// Whether that holds for the module of some sections.
fn is_told_of(
    alloc: Global,
    sections: &[u8],
    line: &str,
    status: u8,
    text: &str,
) -> Result<bool, NoMemory> {
    let module = module_of(alloc, sections)?;
    is_told(alloc, &module, line, status, text)
}

/// A line, sections of the module, the status and the text.
pub type Told = (&'static str, &'static [u8], u8, &'static str);

/// How many calls end so before the first that doesn't.
pub fn told(alloc: Global, cases: &[Told]) -> Result<u32, NoMemory> {
    let mut passed = 0u32;
    for (line, sections, status, text) in cases {
        if !is_told_of(alloc, *sections, *line, *status, *text)? {
            break;
        }
        passed = passed.wrapping_add(1);
    }
    Ok(passed)
}

/// Whether the module of some sections is interpreted so.
pub fn interprets(
    alloc: Global,
    sections: &[u8],
    start: &str,
    status: u8,
    text: &str,
) -> Result<bool, NoMemory> {
    let mut shelf = shelf_with(alloc, &[("m.wasm", sections)], start)?;
    ends(alloc, &mut shelf, INTERP, status, text)
}

/// Whether a module is lowered and hardened, and each image and the module itself end so.
fn images_end_alike(
    alloc: Global,
    shelf: &mut MemoryShelf,
    status: u8,
    text: &str,
) -> Result<bool, NoMemory> {
    let lowered = end_alike(alloc, shelf, [LOWER, RUN, INTERP], status, text)?;
    let hardened = end_alike(alloc, shelf, [HARDEN, RUN, INTERP], status, text)?;
    Ok(lowered && hardened)
}

/// Whether that holds for the module of some sections.
fn runs_alike(
    alloc: Global,
    sections: &[u8],
    start: &str,
    status: u8,
    text: &str,
) -> Result<bool, NoMemory> {
    let mut shelf = shelf_with(alloc, &[("m.wasm", sections)], start)?;
    images_end_alike(alloc, &mut shelf, status, text)
}

/// Sections of a module, a start file, the status and the text.
pub type Run = (&'static [u8], &'static str, u8, &'static str);

/// How many modules run alike before the first that doesn't.
pub fn alike(alloc: Global, runs: &[Run]) -> Result<u32, NoMemory> {
    let mut passed = 0u32;
    for (sections, start, status, text) in runs {
        if !runs_alike(alloc, *sections, *start, *status, *text)? {
            break;
        }
        passed = passed.wrapping_add(1);
    }
    Ok(passed)
}
