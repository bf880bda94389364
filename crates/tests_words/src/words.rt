//! Words that ask for nothing, and names of modules, read off by hand from the rules of words in docs/CLI.md.
use bl_base::NoMemory;
use std::alloc::Global;
use std::test::Fail;
use tests_calls::{ends, shelf_of, status_of};

/// A line, and whether its words ask for an `interp`.
static STEPS: [(&str, bool); 27] = [
    ("blade interp m/f s m.wasm", true),
    ("blade interp --steps=7 m/f s m.wasm", true),
    ("blade interp m/f --steps 7 s m.wasm", true),
    ("blade interp m/f s m.wasm --steps 0000000001", true),
    ("blade interp m/f s m.wasm --steps=4294967295", true),
    ("blade interp m/f s m.wasm --steps=4294967296", false),
    ("blade interp m/f s m.wasm --steps 00000000001", false),
    ("blade interp m/f s m.wasm --steps 0", false),
    ("blade interp m/f s m.wasm --steps=0", false),
    ("blade interp m/f s m.wasm --steps=", false),
    ("blade interp m/f s m.wasm --steps=+1", false),
    ("blade interp m/f s m.wasm --steps=-1", false),
    ("blade interp m/f s m.wasm --steps=1x", false),
    ("blade interp m/f s m.wasm --steps -1", false),
    ("blade interp m/f s m.wasm --steps --", false),
    ("blade interp m/f s m.wasm --steps", false),
    ("blade interp --steps 7 m/f s m.wasm --steps 7", false),
    ("blade interp --step=7 m/f s m.wasm", false),
    ("blade interp -- --steps s m.wasm", true),
    ("blade interp m/f s --steps=7 -- m.wasm", true),
    ("blade interp m/f s m.wasm -- --steps=7", true),
    ("blade interp - m -- --", true),
    ("blade interp m/f s", false),
    ("blade interp m/f s a.wasm b.wasm", true),
    ("blade interp m/f s a.wasm b/a", false),
    ("blade Interp m/f s m.wasm", false),
    ("blade --steps=7 interp m/f s m.wasm", false),
];

/// A line, and whether its words ask for a `harden`.
static HARDENS: [(&str, bool); 5] = [
    ("blade harden a b m.wasm", true),
    ("blade harden -- --steps -7 m.wasm", true),
    ("blade harden a a m.wasm", false),
    ("blade harden --steps=7 a b m.wasm", false),
    ("blade harden a b m.wasm --steps 7", false),
];

/// A line, and whether its words ask for a `harden` or a `run` with a count file.
static COUNTS: [(&str, bool); 27] = [
    ("blade harden --counts c a b m.wasm", true),
    ("blade harden a b m.wasm --counts=c", true),
    ("blade harden a --counts c b m.wasm", true),
    ("blade harden --counts=m.wasm a b m.wasm", true),
    ("blade harden -- --counts c m.wasm", true),
    ("blade harden --counts a a b m.wasm", false),
    ("blade harden --counts=b a b m.wasm", false),
    ("blade harden --counts  a b m.wasm", false),
    ("blade harden --counts= a b m.wasm", false),
    ("blade harden --counts - a b m.wasm", false),
    ("blade harden --counts=- a b m.wasm", false),
    ("blade harden --counts=-c a b m.wasm", false),
    ("blade harden --counts c --counts=d a b m.wasm", false),
    ("blade harden a b m.wasm --counts", false),
    ("blade harden --counts -- c a b m.wasm", false),
    ("blade harden --count=c a b m.wasm", false),
    ("blade run --counts c i m/f s", true),
    ("blade run i m/f s --counts=s", true),
    ("blade run --counts c --steps 7 i m/f s", true),
    ("blade run --counts i i m/f s", false),
    ("blade run --counts=c i m/f s --counts c", false),
    ("blade lower --counts c i m.wasm", false),
    ("blade interp --counts c m/f s m.wasm", false),
    ("blade spec --counts=c i m/f t s", false),
    ("blade verify --counts c i b", false),
    ("blade twin --counts c i m/f t s o", false),
    ("blade gen --counts c 0 1", false),
];

/// The status of a call on an empty shelf.
fn status_without_files(alloc: Global, line: &str) -> Result<u8, NoMemory> {
    let mut shelf = shelf_of(alloc, &[])?;
    status_of(alloc, &mut shelf, line)
}

/// How many lines are requests or not, as said, before the first that isn't so. A request reads a file that isn't there.
fn told(alloc: Global, lines: &[(&str, bool)]) -> Result<u32, NoMemory> {
    let mut passed = 0u32;
    for (line, is_request) in lines {
        let status = status_without_files(alloc, *line)?;
        if status != (if *is_request { 3 } else { 2 }) {
            break;
        }
        passed = passed.wrapping_add(1);
    }
    Ok(passed)
}

#[test]
fn steps_stand_at_most_once_among_the_arguments_of_interp(rt: HostRuntime) -> Result<(), Fail> {
    assert_eq!(rt; told(rt.alloc(), &STEPS)?, 27);
    Ok(())
}

#[test]
fn harden_takes_no_steps(rt: HostRuntime) -> Result<(), Fail> {
    assert_eq!(rt; told(rt.alloc(), &HARDENS)?, 5);
    Ok(())
}

#[test]
fn a_count_file_stands_at_most_once_and_apart_from_what_is_written(
    rt: HostRuntime,
) -> Result<(), Fail> {
    assert_eq!(rt; told(rt.alloc(), &COUNTS)?, 27);
    Ok(())
}

/// The name of a file without bytes, the line, and the text.
static NAMES: [(&str, &str, &str); 3] = [
    (
        "a.wasm/d\u{e9}.wasm.wasm",
        "blade harden i c a.wasm/d\u{e9}.wasm.wasm",
        "malformed: d\u{e9}.wasm\n",
    ),
    ("../wasm", "blade harden i c ../wasm", "malformed: wasm\n"),
    ("a/", "blade harden i c a/", "malformed: \n"),
];

/// Whether a file without bytes is named so.
fn is_named(alloc: Global, name: &str, line: &str, text: &str) -> Result<bool, NoMemory> {
    let mut shelf = shelf_of(alloc, &[(name, b"")])?;
    ends(alloc, &mut shelf, line, 5, text)
}

/// How many files pass before the first that doesn't.
fn named(alloc: Global) -> Result<u32, NoMemory> {
    let mut passed = 0u32;
    for (name, line, text) in &NAMES {
        if !is_named(alloc, *name, *line, *text)? {
            break;
        }
        passed = passed.wrapping_add(1);
    }
    Ok(passed)
}

#[test]
fn a_module_is_named_by_its_file_without_one_ending(rt: HostRuntime) -> Result<(), Fail> {
    assert_eq!(rt; named(rt.alloc())?, 3);
    Ok(())
}
