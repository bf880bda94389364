//! Lists of modules that import from one another, and modules with memories and tables. What node gives of them is printed by `oracles/lists.js`.
use bl_base::NoMemory;
use bl_outside::{MemoryShelf, MemorySink};
use std::alloc::Global;
use std::test::Fail;
use tests_calls::{
    Case, LOWER, RUN, Run, alike, both_end, end_alike, ends, passed, say, shelf_with, stands,
};
use tests_samples::{ADD_ONE, BYTES_OF_BYTES, GROW_AND_STORE, SLOTS, SUM};

/// A memory, a table, two globals and a function that doubles, all of which are exported.
const BASE: [u8; 93] = [
    0x01, 0x06, 0x01, 0x60, 0x01, 0x7F, 0x01, 0x7F, 0x03, 0x02, 0x01, 0x00, 0x04, 0x05, 0x01, 0x70,
    0x01, 0x03, 0x03, 0x05, 0x04, 0x01, 0x01, 0x01, 0x02, 0x06, 0x0B, 0x02, 0x7F, 0x01, 0x41, 0x05,
    0x0B, 0x7F, 0x00, 0x41, 0x08, 0x0B, 0x07, 0x15, 0x05, 0x01, 0x6D, 0x02, 0x00, 0x01, 0x74, 0x01,
    0x00, 0x01, 0x67, 0x03, 0x00, 0x01, 0x63, 0x03, 0x01, 0x01, 0x64, 0x00, 0x00, 0x09, 0x07, 0x01,
    0x00, 0x41, 0x00, 0x0B, 0x01, 0x00, 0x0A, 0x09, 0x01, 0x07, 0x00, 0x20, 0x00, 0x41, 0x02, 0x6C,
    0x0B, 0x0B, 0x0A, 0x01, 0x00, 0x41, 0x00, 0x0B, 0x04, 0x01, 0x02, 0x03, 0x04,
];

/// Imports all of them from `a`: a function that adds to a global and doubles it, an element and data behind what stands there.
const MIDDLE: [u8; 106] = [
    0x01, 0x0A, 0x02, 0x60, 0x00, 0x01, 0x7F, 0x60, 0x01, 0x7F, 0x01, 0x7F, 0x02, 0x25, 0x05, 0x01,
    0x61, 0x01, 0x63, 0x03, 0x7F, 0x00, 0x01, 0x61, 0x01, 0x64, 0x00, 0x01, 0x01, 0x61, 0x01, 0x6D,
    0x02, 0x00, 0x01, 0x01, 0x61, 0x01, 0x67, 0x03, 0x7F, 0x01, 0x01, 0x61, 0x01, 0x74, 0x01, 0x70,
    0x01, 0x02, 0x04, 0x03, 0x02, 0x01, 0x01, 0x07, 0x0D, 0x03, 0x01, 0x73, 0x00, 0x01, 0x01, 0x6D,
    0x02, 0x00, 0x01, 0x74, 0x01, 0x00, 0x09, 0x07, 0x01, 0x00, 0x41, 0x01, 0x0B, 0x01, 0x01, 0x0A,
    0x0F, 0x01, 0x0D, 0x00, 0x20, 0x00, 0x23, 0x01, 0x6A, 0x24, 0x01, 0x23, 0x01, 0x10, 0x00, 0x0B,
    0x0B, 0x08, 0x01, 0x00, 0x23, 0x00, 0x0B, 0x02, 0x0A, 0x0B,
];

/// Imports from `a` and `b`: calls both functions by the table and by name, grows the memory and stores in it.
const LAST: [u8; 106] = [
    0x01, 0x06, 0x01, 0x60, 0x01, 0x7F, 0x01, 0x7F, 0x02, 0x1F, 0x04, 0x01, 0x62, 0x01, 0x74, 0x01,
    0x70, 0x01, 0x03, 0x03, 0x01, 0x62, 0x01, 0x73, 0x00, 0x00, 0x01, 0x61, 0x01, 0x67, 0x03, 0x7F,
    0x01, 0x01, 0x62, 0x01, 0x6D, 0x02, 0x01, 0x01, 0x02, 0x03, 0x02, 0x01, 0x00, 0x07, 0x05, 0x01,
    0x01, 0x66, 0x00, 0x01, 0x0A, 0x34, 0x01, 0x32, 0x00, 0x41, 0x90, 0x80, 0x04, 0x20, 0x00, 0x41,
    0x00, 0x11, 0x00, 0x00, 0x20, 0x00, 0x41, 0x01, 0x11, 0x00, 0x00, 0x6A, 0x20, 0x00, 0x10, 0x00,
    0x6A, 0x41, 0x01, 0x40, 0x00, 0x6A, 0x41, 0x00, 0x28, 0x02, 0x08, 0x6A, 0x36, 0x02, 0x00, 0x23,
    0x00, 0x41, 0x90, 0x80, 0x04, 0x28, 0x02, 0x00, 0x6A, 0x0B,
];

/// The calls on three modules.
const CHAINED: [&str; 3] = [
    "blade lower i.img a.wasm b.wasm d/c",
    "blade run i.img c/f start",
    "blade interp c/f start a.wasm b.wasm d/c",
];

/// Whether the three modules run to that text, lowered and interpreted.
fn is_chained(alloc: Global, start: &str, text: &str) -> Result<bool, NoMemory> {
    let modules: [(&str, &[u8]); 3] = [("a.wasm", &BASE), ("b.wasm", &MIDDLE), ("d/c", &LAST)];
    let mut shelf = shelf_with(alloc, &modules, start)?;
    end_alike(alloc, &mut shelf, CHAINED, 0, text)
}

#[test]
fn three_modules_in_a_chain_run_alike_interpreted_and_lowered(rt: HostRuntime) -> Result<(), Fail> {
    let text =
        "returned i32 2922\nmemory 0 pages 2\nrow 0 65552 570b0000000000000000000000000000\n";
    assert!(rt; is_chained(rt.alloc(), "arg 7\n", text)?);
    let text =
        "returned i32 2842\nmemory 0 pages 2\nrow 0 65552 170b0000000000000000000000000000\n";
    assert!(rt; is_chained(rt.alloc(), "arg 4294967295\n", text)?);
    Ok(())
}

/// A memory of one page that grows to two, and a function that grows it.
const GROWTH: [u8; 35] = [
    0x01, 0x06, 0x01, 0x60, 0x01, 0x7F, 0x01, 0x7F, 0x03, 0x02, 0x01, 0x00, 0x05, 0x04, 0x01, 0x01,
    0x01, 0x02, 0x07, 0x05, 0x01, 0x01, 0x66, 0x00, 0x00, 0x0A, 0x08, 0x01, 0x06, 0x00, 0x20, 0x00,
    0x40, 0x00, 0x0B,
];

/// Two loads behind one another, the first 4294967295 bytes further.
const FAR: [u8; 42] = [
    0x01, 0x06, 0x01, 0x60, 0x01, 0x7F, 0x01, 0x7F, 0x03, 0x02, 0x01, 0x00, 0x05, 0x03, 0x01, 0x00,
    0x01, 0x07, 0x05, 0x01, 0x01, 0x66, 0x00, 0x00, 0x0A, 0x10, 0x01, 0x0E, 0x00, 0x20, 0x00, 0x28,
    0x02, 0xFF, 0xFF, 0xFF, 0xFF, 0x0F, 0x28, 0x02, 0x00, 0x0B,
];

static RUNS: [Run; 10] = [
    (
        &FAR,
        "arg 1\n",
        16,
        "trapped out of bounds memory access\nmemory 0 pages 1\n",
    ),
    (&GROWTH, "arg 0\n", 0, "returned i32 1\nmemory 0 pages 1\n"),
    (&GROWTH, "arg 1\n", 0, "returned i32 1\nmemory 0 pages 2\n"),
    (
        &GROWTH,
        "arg 2\n",
        0,
        "returned i32 4294967295\nmemory 0 pages 1\n",
    ),
    (
        &GROW_AND_STORE,
        "arg 1\n",
        0,
        "returned i32 1\nmemory 0 pages 2\nrow 0 65536 01000000000000000000000000000000\n",
    ),
    (
        &GROW_AND_STORE,
        "arg 2\n",
        16,
        "trapped out of bounds memory access\nmemory 0 pages 1\n",
    ),
    (&SLOTS, "arg 2\n", 0, "returned i32 9\n"),
    (&SLOTS, "arg 1\n", 16, "trapped uninitialized element\n"),
    (
        &SLOTS,
        "arg 0\n",
        16,
        "trapped indirect call type mismatch\n",
    ),
    (&SLOTS, "arg 3\n", 16, "trapped undefined element\n"),
];

#[test]
fn modules_with_memories_and_tables_run_alike_interpreted_and_lowered(
    rt: HostRuntime,
) -> Result<(), Fail> {
    assert_eq!(rt; alike(rt.alloc(), &RUNS)?, 10);
    Ok(())
}

/// Whether the module of a C compiler is lowered with that line, and its image runs to that text.
fn sums(alloc: Global, start: &str, line: &str, text: &str) -> Result<bool, NoMemory> {
    let mut shelf = shelf_with(alloc, &[("m.wasm", &SUM)], start)?;
    let lines = (LOWER, "blade run i.img m/sum start");
    both_end(alloc, &mut shelf, lines, 0, (line, text))
}

#[test]
fn a_module_of_a_c_compiler_sums_words(rt: HostRuntime) -> Result<(), Fail> {
    let text = "returned i32 6\nmemory 0 pages 2\n";
    assert!(rt; sums(rt.alloc(), "arg 1024\narg 3\n", "commands 37\n", text)?);
    Ok(())
}

/// A memory of one page alone.
const PAGE: [u8; 6] = [0x05, 0x04, 0x01, 0x01, 0x01, 0x01];

/// Whether those two modules, with memories of their own, end so.
fn ends_apart(alloc: Global, start: &str, status: u8, text: &str) -> Result<bool, NoMemory> {
    let modules: [(&str, &[u8]); 2] = [("main.wasm", &BYTES_OF_BYTES), ("vault.wasm", &PAGE)];
    let mut shelf = shelf_with(alloc, &modules, start)?;
    let line = "blade interp main/f start main.wasm vault.wasm";
    ends(alloc, &mut shelf, line, status, text)
}

#[test]
fn each_module_has_its_own_memory(rt: HostRuntime) -> Result<(), Fail> {
    let text = "trapped out of bounds memory access\nmemory 0 pages 1\nmemory 1 pages 1\n";
    assert!(rt; ends_apart(rt.alloc(), "arg 65536\nmemory 1 0 05\n", 16, text)?);
    Ok(())
}

/// Imports a global that `a` exports, and a memory that it doesn't.
const UNKNOWN: [u8; 17] = [
    0x02, 0x0F, 0x02, 0x01, 0x61, 0x01, 0x67, 0x03, 0x7F, 0x01, 0x01, 0x61, 0x01, 0x78, 0x02, 0x00,
    0x01,
];

/// Imports a memory of at most one page, where that of `a` grows to two.
const MISMATCHED: [u8; 11] = [
    0x02, 0x09, 0x01, 0x01, 0x61, 0x01, 0x6D, 0x02, 0x01, 0x01, 0x01,
];

/// Elements past the end of the table of `a`, and data past the end of its memory.
const ELEMENT: [u8; 62] = [
    0x01, 0x05, 0x01, 0x60, 0x00, 0x01, 0x7F, 0x02, 0x10, 0x02, 0x01, 0x61, 0x01, 0x74, 0x01, 0x70,
    0x00, 0x01, 0x01, 0x61, 0x01, 0x6D, 0x02, 0x00, 0x01, 0x03, 0x02, 0x01, 0x00, 0x09, 0x08, 0x01,
    0x00, 0x41, 0x02, 0x0B, 0x02, 0x00, 0x00, 0x0A, 0x06, 0x01, 0x04, 0x00, 0x41, 0x09, 0x0B, 0x0B,
    0x0D, 0x02, 0x00, 0x41, 0x00, 0x0B, 0x01, 0x01, 0x00, 0x41, 0x7F, 0x0B, 0x01, 0x01,
];

/// No data at the end of the memory of `a`, and then two bytes of which one is past it.
const DATA: [u8; 29] = [
    0x02, 0x08, 0x01, 0x01, 0x61, 0x01, 0x6D, 0x02, 0x00, 0x01, 0x0B, 0x11, 0x02, 0x00, 0x41, 0x80,
    0x80, 0x04, 0x0B, 0x00, 0x00, 0x41, 0xFF, 0xFF, 0x03, 0x0B, 0x02, 0x01, 0x02,
];

/// Imports `print` of `host`, a function.
const HOST: [u8; 22] = [
    0x01, 0x04, 0x01, 0x60, 0x00, 0x00, 0x02, 0x0E, 0x01, 0x04, 0x68, 0x6F, 0x73, 0x74, 0x05, 0x70,
    0x72, 0x69, 0x6E, 0x74, 0x00, 0x00,
];

/// Sections of a module behind `a`, and the text.
static UNLINKED: [(&[u8], &str); 5] = [
    (&UNKNOWN, "link: m import 1 unknown\n"),
    (&MISMATCHED, "link: m import 0 mismatch\n"),
    (&ELEMENT, "link: m element\n"),
    (&DATA, "link: m data\n"),
    (&HOST, "link: m import 0 unknown\n"),
];

/// The calls on two modules that make an image.
const IMAGED: (&str, &str) = (
    "blade lower i.img a.wasm m.wasm",
    "blade harden i.img i.json a.wasm m.wasm",
);

/// Whether the last of the two modules on the shelf is named so by those calls and interpreted, and nothing is kept.
fn names_module(alloc: Global, shelf: &mut MemoryShelf, text: &str) -> Result<bool, NoMemory> {
    let interp = "blade interp a/d start a.wasm m.wasm";
    let interpreted = ends(alloc, shelf, interp, 9, text)?;
    let imaged = both_end(alloc, shelf, IMAGED, 9, (text, text))?;
    Ok(interpreted && imaged && !stands(shelf, "i.img") && !stands(shelf, "i.json"))
}

/// Whether that holds for the module of some sections.
fn is_unlinked(alloc: Global, sections: &[u8], text: &str) -> Result<bool, NoMemory> {
    let modules: [(&str, &[u8]); 2] = [("a.wasm", &BASE), ("m.wasm", sections)];
    let mut shelf = shelf_with(alloc, &modules, "")?;
    names_module(alloc, &mut shelf, text)
}

/// How many modules pass before the first that doesn't.
fn unlinked(alloc: Global) -> Result<u32, NoMemory> {
    let mut passed = 0u32;
    for (sections, text) in &UNLINKED {
        if !is_unlinked(alloc, *sections, *text)? {
            break;
        }
        passed = passed.wrapping_add(1);
    }
    Ok(passed)
}

#[test]
fn modules_that_are_not_linked_are_named_with_the_reason(rt: HostRuntime) -> Result<(), Fail> {
    assert_eq!(rt; unlinked(rt.alloc())?, 5);
    Ok(())
}

/// A memory that may grow without a maximum, which counts as 256 pages of the 1,024 that all may have.
const UNBOUNDED: [u8; 5] = [0x05, 0x03, 0x01, 0x00, 0x00];

/// Whether a list of modules with such a memory each is lowered to that text.
fn are_unbounded(alloc: Global, line: &str, status: u8, text: &str) -> Result<bool, NoMemory> {
    let modules: [(&str, &[u8]); 5] = [
        ("a", &UNBOUNDED),
        ("b", &UNBOUNDED),
        ("c", &UNBOUNDED),
        ("d", &UNBOUNDED),
        ("e", &UNBOUNDED),
    ];
    let mut shelf = shelf_with(alloc, &modules, "")?;
    ends(alloc, &mut shelf, line, status, text)
}

#[test]
fn all_memories_may_grow_to_1024_pages_together(rt: HostRuntime) -> Result<(), Fail> {
    let four = "blade lower i.img a b c d";
    assert!(rt; are_unbounded(rt.alloc(), four, 0, "commands 7\n")?);
    let five = "blade lower i.img a b c d e";
    assert!(rt; are_unbounded(rt.alloc(), five, 8, "limit: reserve 1280\n")?);
    Ok(())
}

/// Calls the function of the module `inc` twice.
const TWICE: [u8; 44] = [
    0x01, 0x06, 0x01, 0x60, 0x01, 0x7F, 0x01, 0x7F, 0x02, 0x0B, 0x01, 0x03, 0x69, 0x6E, 0x63, 0x03,
    0x69, 0x6E, 0x63, 0x00, 0x00, 0x03, 0x02, 0x01, 0x00, 0x07, 0x05, 0x01, 0x01, 0x66, 0x00, 0x01,
    0x0A, 0x0A, 0x01, 0x08, 0x00, 0x20, 0x00, 0x10, 0x00, 0x10, 0x00, 0x0B,
];

/// Whether a call ends with status 0, and what it prints begins so.
fn begins(
    alloc: Global,
    shelf: &mut MemoryShelf,
    line: &str,
    head: &[u8],
) -> Result<bool, NoMemory> {
    let mut out = MemorySink::new(alloc, None);
    let status = say(alloc, shelf, line, &mut out)?;
    Ok(status == 0 && out.bytes().starts_with(head))
}

/// Whether the two modules on the shelf are hardened, and the image then runs to that text.
fn hardens_and_runs(
    alloc: Global,
    shelf: &mut MemoryShelf,
    line: &str,
    head: &[u8],
    text: &str,
) -> Result<bool, NoMemory> {
    let hardened = begins(alloc, shelf, line, head)?;
    let ran = ends(alloc, shelf, RUN, 0, text)?;
    Ok(hardened && ran)
}

/// Whether that holds for the module that calls that of `inc`, and that one.
fn is_hardened(alloc: Global, line: &str, head: &[u8], text: &str) -> Result<bool, NoMemory> {
    let modules: [(&str, &[u8]); 2] = [("inc.wasm", &ADD_ONE[8..]), ("m.wasm", &TWICE)];
    let mut shelf = shelf_with(alloc, &modules, "arg 40\n")?;
    hardens_and_runs(alloc, &mut shelf, line, head, text)
}

#[test]
fn harden_takes_modules_that_can_be_linked(rt: HostRuntime) -> Result<(), Fail> {
    let line = "blade harden i.img i.json inc.wasm m.wasm";
    assert!(rt; is_hardened(rt.alloc(), line, b"functions 2\n", "returned i32 42\n")?);
    Ok(())
}

/// Lines of which no module stands on the shelf.
static COUNTED: [Case; 6] = [
    (
        "blade lower i a b c d e f g h i",
        b"",
        None,
        8,
        "limit: modules 9\n",
    ),
    (
        "blade interp a/f s a b c d e f g h i j",
        b"",
        None,
        8,
        "limit: modules 10\n",
    ),
    (
        "blade harden i c a b a.wasm",
        b"",
        None,
        2,
        "usage: blade COMMAND ARGUMENTS\n",
    ),
    (
        "blade lower i a b c d e f g h d/h",
        b"",
        None,
        2,
        "usage: blade COMMAND ARGUMENTS\n",
    ),
    (
        "blade lower i a b c d e f g h",
        b"",
        None,
        3,
        "read fault: a\n",
    ),
    (
        "blade interp a/f start a b",
        b"",
        None,
        3,
        "read fault: a\n",
    ),
];

#[test]
fn nine_modules_are_too_many_and_two_of_one_name_are_no_request(
    rt: HostRuntime,
) -> Result<(), Fail> {
    assert_eq!(rt; passed(rt.alloc(), "inc.wasm", &ADD_ONE, &COUNTED)?, 6);
    Ok(())
}
