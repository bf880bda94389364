//! Label sections that break a rule, which was read off by hand: each breaks the one that stands above it, of those in FORMATS.
use bl_base::NoMemory;
use bl_outside::MemoryShelf;
use std::alloc::Global;
use std::test::Fail;
use tests_calls::{ends, labelled_shelf, put_labelled, stands};

/// A function of type [i32] -> [] that is imported, a memory of a page and a global; and no function.
const IMPORTED: &[u8] =
    b"\x01\x05\x01`\x01\x7F\0\x02\x0E\x01\x04host\x05print\0\0\x05\x03\x01\0\x01\x06\x06\x01\x7F\x01A\0\x0B";

/// A memory of a page that can't grow.
const MEMORY: &[u8] = b"\x05\x04\x01\x01\x01\x01";

/// A function that adds without operands.
const UNTYPED: &[u8] = b"\x01\x04\x01`\0\0\x03\x02\x01\0\x0A\x05\x01\x03\0j\x0B";

/// The sections of a module, the bytes of its label section behind the name, and the line of the refusal.
static CASES: [(&[u8], &[u8], &str); 18] = [
    // The version is 0, or 3, or is missing.
    (MEMORY, b"\0\0", "labels: m malformed\n"),
    (MEMORY, b"\x03\0", "labels: m malformed\n"),
    (b"\0\x0D\x0Cblade.labels", b"", "labels: m malformed\n"),
    // Demands are of version 2, entries of code 5 of none, and nothing stands behind the entries.
    (IMPORTED, b"\x01\x01\x04\0", "labels: m malformed\n"),
    (IMPORTED, b"\x02\x01\x05\0", "labels: m malformed\n"),
    (MEMORY, b"\x01\x01\x02\0\0", "labels: m malformed\n"),
    (MEMORY, b"\x01\x02\x02\0", "labels: m malformed\n"),
    // A memory, a global that is demanded, and the whole section.
    (MEMORY, b"\x01\x02\x02\0\x02\0", "labels: m twice\n"),
    (IMPORTED, b"\x02\x02\x04\0\x04\0", "labels: m twice\n"),
    (
        b"\0\x0F\x0Cblade.labels\0\0",
        b"\x01\0",
        "labels: m twice\n",
    ),
    // A global of a module without one, a memory, a function, a parameter, a result.
    (MEMORY, b"\x01\x01\x01\0", "labels: m out of range\n"),
    (MEMORY, b"\x01\x01\x02\x01", "labels: m out of range\n"),
    (IMPORTED, b"\x01\x01\0\x01\0", "labels: m out of range\n"),
    (IMPORTED, b"\x01\x01\0\0\x01", "labels: m out of range\n"),
    (IMPORTED, b"\x02\x01\x03\0\0", "labels: m out of range\n"),
    // A parameter of a function that is imported.
    (IMPORTED, b"\x01\x01\0\0\0", "labels: m on import\n"),
    // A global that is declared secret and demanded public.
    (IMPORTED, b"\x02\x02\x01\0\x04\0", "labels: m both\n"),
    (IMPORTED, b"\x02\x02\x04\0\x01\0", "labels: m both\n"),
];

/// Whether a module with those labels is refused with that line, and nothing is kept.
fn is_refused(alloc: Global, sections: &[u8], labels: &[u8], text: &str) -> Result<bool, NoMemory> {
    let mut shelf = labelled_shelf(alloc, sections, labels)?;
    let refused = ends(alloc, &mut shelf, "blade harden i c m.wasm", 10, text)?;
    Ok(refused && !stands(&shelf, "i") && !stands(&shelf, "c"))
}

/// How many cases pass before the first that doesn't.
fn refused(alloc: Global) -> Result<u32, NoMemory> {
    let mut passed = 0u32;
    for (sections, labels, text) in &CASES {
        if !is_refused(alloc, *sections, *labels, *text)? {
            break;
        }
        passed = passed.wrapping_add(1);
    }
    Ok(passed)
}

#[test]
fn a_section_that_breaks_a_rule_is_named_and_nothing_is_kept(rt: HostRuntime) -> Result<(), Fail> {
    assert_eq!(rt; refused(rt.alloc())?, 18);
    Ok(())
}

/// The sections and labels of the modules `m.wasm` and `n.wasm`, and the status and the line of the refusal.
type Pair = (
    (&'static [u8], &'static [u8]),
    (&'static [u8], &'static [u8]),
    u8,
    &'static str,
);

static LINES: [&str; 3] = [
    "blade harden i c m.wasm n.wasm",
    "blade lower i m.wasm n.wasm",
    "blade interp m/f s m.wasm n.wasm",
];

static PAIRS: [Pair; 4] = [
    // The first module can't be linked, and labels are read before.
    (
        (IMPORTED, b""),
        (MEMORY, b"\x01\x02\x02\0\x02\0"),
        10,
        "labels: n twice\n",
    ),
    // The labels of the first module are read first.
    (
        (MEMORY, b"\x01\x01\x01\0"),
        (MEMORY, b"\0"),
        10,
        "labels: m out of range\n",
    ),
    // All modules are validated before.
    (
        (MEMORY, b"\0"),
        (UNTYPED, b""),
        6,
        "invalid: n function 0\n",
    ),
    // Labels that keep the rules.
    (
        (IMPORTED, b"\x01\x02\x02\0\x01\0"),
        (MEMORY, b"\x02\0"),
        9,
        "link: m import 0 unknown\n",
    ),
];

/// Whether each command that reads modules refuses so the one on the shelf and the second one of a case, and nothing is kept.
fn all_refuse(alloc: Global, shelf: &mut MemoryShelf, case: &Pair) -> Result<bool, NoMemory> {
    let (_, second, status, text) = *case;
    put_labelled(alloc, shelf, "n.wasm", second.0, second.1)?;
    shelf.put("s", b"")?;
    for line in &LINES {
        if !ends(alloc, shelf, *line, status, text)? {
            return Ok(false);
        }
    }
    Ok(!stands(shelf, "i") && !stands(shelf, "c"))
}

/// Whether that holds for both modules of a case.
fn are_refused(alloc: Global, case: &Pair) -> Result<bool, NoMemory> {
    let (sections, labels) = case.0;
    let mut shelf = labelled_shelf(alloc, sections, labels)?;
    all_refuse(alloc, &mut shelf, case)
}

/// How many pairs pass before the first that doesn't.
fn pairs_refused(alloc: Global) -> Result<u32, NoMemory> {
    let mut passed = 0u32;
    for case in &PAIRS {
        if !are_refused(alloc, case)? {
            break;
        }
        passed = passed.wrapping_add(1);
    }
    Ok(passed)
}

#[test]
fn labels_are_read_behind_validation_and_before_linking(rt: HostRuntime) -> Result<(), Fail> {
    assert_eq!(rt; pairs_refused(rt.alloc())?, 4);
    Ok(())
}
