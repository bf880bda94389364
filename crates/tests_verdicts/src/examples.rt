//! The counts in the reports are those of `companions/blade-explain --list`, which follows the rules of lowering and knows nothing of the program;
//! weights, paths and chains are read off its list of commands by hand. Where several chains or paths are right, each is taken that
//! takes no position twice.
use crate::modules::{COMPARE, LIST, LOOKUP, MASKED, MASKED_SSA, QUARTER};
use bl_base::NoMemory;
use bl_outside::{MemoryShelf, MemorySink};
use std::alloc::Global;
use std::test::Fail;
use tests_calls::{ends, is_joined, say, shelf_of, status_of};

/// Whether the bytes are those of a head, of one of some middles, and of a tail.
fn is_one_of(bytes: &[u8], head: &str, middles: &[&str], tail: &str) -> bool {
    for middle in middles {
        if is_joined(bytes, &[head, *middle, tail]) {
            return true;
        }
    }
    false
}

/// A module, the head of its report, what may stand behind that, and the head of what `verify` says.
type Case = (&'static [u8], &'static str, &'static [&'static str]);

/// Of the lookup, the index is read at 8, reaches the sum at 12, and that is tested in 14 and is the address in 15.
///
/// Of the masked one, the chains begin where local 0 is read as a counter, at 19 for the address of 24, which is tested in 23, and
/// at 33 for the end of the loop in 39; where it is read as the index, at 10, it reaches a select, and no sink. In single assignment the
/// counters are other locals. No value that is loaded reaches a sink, so nothing is protected.
///
/// In the comparison and the quarter round the addresses are sums of parameters and of a counter; what is loaded is stored or returned.
///
/// Of the list, the pointer that is loaded in 29, in one loop, is the condition in 31, so no other site will do; it comes back by 30.
static CASES: [Case; 6] = [
    (
        &LOOKUP,
        "functions 1\ncommands 18\nsites 8\nprotects 0 weight 0\nconstant-time no parameter 0 0 through ",
        &["8 10 12 end 15", "8 10 12 13 end 14"],
    ),
    (
        &MASKED,
        "functions 1\ncommands 45\nsites 31\nprotects 0 weight 0\nconstant-time no parameter 0 0 through ",
        &["19 21 end 24", "19 21 22 end 23", "33 35 38 end 39"],
    ),
    (
        &MASKED_SSA,
        "functions 1\ncommands 65\nsites 49\nprotects 0 weight 0\nconstant-time ",
        &["yes"],
    ),
    (
        &COMPARE,
        "functions 1\ncommands 44\nsites 29\nprotects 0 weight 0\nconstant-time ",
        &["yes"],
    ),
    (
        &QUARTER,
        "functions 1\ncommands 77\nsites 56\nprotects 0 weight 0\nconstant-time ",
        &["yes"],
    ),
    (
        &LIST,
        "functions 1\ncommands 37\nsites 18\nprotects 1 weight 10\nprotect 29 weight 10 path 29 ",
        &[
            "sink 31\nconstant-time yes",
            "30 10 sink 11\nconstant-time yes",
            "30 19 20 sink 21\nconstant-time yes",
            "30 19 sink 22\nconstant-time yes",
            "30 26 27 sink 28\nconstant-time yes",
            "30 26 sink 29\nconstant-time yes",
        ],
    ),
];

/// The line of a call on the module `m.wasm`, which keeps `i` and `c`.
const HARDEN: &str = "blade harden i c m.wasm";

/// Whether the report of the module among the files is that head, one of those middles, and the end of the line.
fn reports(
    alloc: Global,
    files: &mut MemoryShelf,
    head: &str,
    middles: &[&str],
) -> Result<bool, NoMemory> {
    let mut out = MemorySink::new(alloc, None);
    let status = say(alloc, files, HARDEN, &mut out)?;
    Ok(status == 0 && is_one_of(out.bytes(), head, middles, "\n"))
}

/// Whether that holds for a module.
fn is_reported(
    alloc: Global,
    module: &[u8],
    head: &str,
    middles: &[&str],
) -> Result<bool, NoMemory> {
    let mut files = shelf_of(alloc, &[("m.wasm", module)])?;
    reports(alloc, &mut files, head, middles)
}

/// How many reports pass before the first that doesn't.
fn reported(alloc: Global) -> Result<u32, NoMemory> {
    let mut passed = 0u32;
    for (module, head, middles) in &CASES {
        if !is_reported(alloc, *module, *head, *middles)? {
            break;
        }
        passed = passed.wrapping_add(1);
    }
    Ok(passed)
}

#[test]
fn reports_of_modules_that_clang_made(rt: HostRuntime) -> Result<(), Fail> {
    assert_eq!(rt; reported(rt.alloc())?, 6);
    Ok(())
}

/// Whether the image of the module among the files is made, and passes with its own certificate.
fn hardens_and_passes(
    alloc: Global,
    files: &mut MemoryShelf,
    text: &str,
) -> Result<bool, NoMemory> {
    let hardened = status_of(alloc, files, HARDEN)?;
    let verified = ends(alloc, files, "blade verify i c", 0, text)?;
    Ok(hardened == 0 && verified)
}

/// Whether that holds for a module.
fn passes(alloc: Global, module: &[u8], text: &str) -> Result<bool, NoMemory> {
    let mut files = shelf_of(alloc, &[("m.wasm", module)])?;
    hardens_and_passes(alloc, &mut files, text)
}

static PASSING: [&[u8]; 4] = [&MASKED_SSA, &COMPARE, &QUARTER, &LIST];

/// How many of those pass before the first that doesn't.
fn passing(alloc: Global, text: &str) -> Result<u32, NoMemory> {
    let mut passed = 0u32;
    for module in &PASSING {
        if !passes(alloc, *module, text)? {
            break;
        }
        passed = passed.wrapping_add(1);
    }
    Ok(passed)
}

/// Whether that is said of an image of the one module, which is made so, with the certificate of the other one.
fn makes_and_fails(
    alloc: Global,
    files: &mut MemoryShelf,
    made: &str,
    text: &str,
) -> Result<bool, NoMemory> {
    let hardened = status_of(alloc, files, "blade harden j d n.wasm")?;
    let image = status_of(alloc, files, made)?;
    let verified = ends(alloc, files, "blade verify i d", 1, text)?;
    Ok(hardened == 0 && image == 0 && verified)
}

/// Whether that holds for the list and the lookup.
fn fails(alloc: Global, made: &str, text: &str) -> Result<bool, NoMemory> {
    let mut files = shelf_of(alloc, &[("m.wasm", &LIST), ("n.wasm", &LOOKUP)])?;
    makes_and_fails(alloc, &mut files, made, text)
}

#[test]
fn hardened_images_pass_and_one_with_another_certificate_does_not(
    rt: HostRuntime,
) -> Result<(), Fail> {
    let text = "certificate yes\nstable yes\nconstant-time yes\nsafe yes\n";
    assert_eq!(rt; passing(rt.alloc(), text)?, 4);
    // The lookup's certificate has no paths, so nothing pays for the protect of the list.
    let text = "certificate no 5 0\nstable yes\nconstant-time yes\nsafe yes\n";
    assert!(rt; fails(rt.alloc(), HARDEN, text)?);
    // Lowered without its protect, the list tests in 11 a copy of the pointer that may come from the load.
    let text = "certificate yes\nstable no 11\nconstant-time yes\nsafe no\n";
    assert!(rt; fails(rt.alloc(), "blade lower i m.wasm", text)?);
    Ok(())
}

/// Makes the lowered image `k` and the hardened one `i` of the module among the files.
fn prepare(alloc: Global, files: &mut MemoryShelf) -> Result<(), NoMemory> {
    let _lowered = status_of(alloc, files, "blade lower k m.wasm")?;
    let _hardened = status_of(alloc, files, HARDEN)?;
    Ok(())
}

/// `interp` of a module, `run` of its lowered image and `run` of its hardened one, by its export.
static QUARTERS: [&str; 3] = [
    "blade interp m/quarter s m.wasm",
    "blade run k m/quarter s",
    "blade run i m/quarter s",
];

static LOOKUPS: [&str; 3] = [
    "blade interp m/lookup s m.wasm",
    "blade run k m/lookup s",
    "blade run i m/lookup s",
];

static MASKEDS: [&str; 3] = [
    "blade interp m/masked s m.wasm",
    "blade run k m/masked s",
    "blade run i m/masked s",
];

static COMPARES: [&str; 3] = [
    "blade interp m/compare s m.wasm",
    "blade run k m/compare s",
    "blade run i m/compare s",
];

static LISTS: [&str; 3] = [
    "blade interp m/list s m.wasm",
    "blade run k m/list s",
    "blade run i m/list s",
];

/// Whether each of those calls prints that text, where the images of the module among the files are made before.
fn all_end(
    alloc: Global,
    files: &mut MemoryShelf,
    calls: &[&str],
    text: &str,
) -> Result<bool, NoMemory> {
    prepare(alloc, files)?;
    for words in calls {
        if !ends(alloc, files, *words, 0, text)? {
            return Ok(false);
        }
    }
    Ok(true)
}

/// Whether that holds for a module and a start file.
fn all_print(
    alloc: Global,
    module: &[u8],
    calls: &[&str],
    start: &str,
    text: &str,
) -> Result<bool, NoMemory> {
    let mut files = shelf_of(alloc, &[("m.wasm", module), ("s", start.as_bytes())])?;
    all_end(alloc, &mut files, calls, text)
}

/// The words before and after are those of section 2.1.1 of RFC 8439, the least byte first.
#[test]
fn the_quarter_round_of_the_rfc(rt: HostRuntime) -> Result<(), Fail> {
    let start = "arg 1024\nmemory 0 1024 1111111104030201436F8D9B67452301\n";
    let text = "returned\nmemory 0 pages 2\nrow 0 1024 f4922aeacef81ccb2e478145bbc48158\n";
    assert!(rt; all_print(rt.alloc(), &QUARTER, &QUARTERS, start, text)?);
    Ok(())
}

/// Bits of the argument above the lowest four don't count. In the sources of both lookups entry 9 of the table is 15.
#[test]
fn the_lookup_gives_entries_of_the_table(rt: HostRuntime) -> Result<(), Fail> {
    let text = "returned i32 15\nmemory 0 pages 2\n";
    assert!(rt; all_print(rt.alloc(), &LOOKUP, &LOOKUPS, "arg 41\n", text)?);
    Ok(())
}

/// Entry 1 of the table is 14, and entry 15 is 4.
#[test]
fn the_masked_lookup_gives_entries_of_the_table(rt: HostRuntime) -> Result<(), Fail> {
    let text = "returned i32 14\nmemory 0 pages 2\n";
    assert!(rt; all_print(rt.alloc(), &MASKED, &MASKEDS, "arg 33\n", text)?);
    let text = "returned i32 4\nmemory 0 pages 2\n";
    assert!(rt; all_print(rt.alloc(), &MASKED_SSA, &MASKEDS, "arg 15\n", text)?);
    Ok(())
}

/// Two tags that are equal, two whose last bytes differ, and a byte behind two that are equal.
static TAGS: [(&str, &str); 3] = [
    (
        "arg 1024\narg 2048\nmemory 0 1024 000102030405060708090A0B0C0D0E0F\nmemory 0 2048 000102030405060708090A0B0C0D0E0F\n",
        "returned i32 1\nmemory 0 pages 2\n",
    ),
    (
        "arg 1024\narg 2048\nmemory 0 1024 000102030405060708090A0B0C0D0E0F\nmemory 0 2048 000102030405060708090A0B0C0D0E8F\n",
        "returned i32 0\nmemory 0 pages 2\n",
    ),
    (
        "arg 1024\narg 2048\nmemory 0 1040 01\n",
        "returned i32 1\nmemory 0 pages 2\n",
    ),
];

/// How many comparisons pass before the first that doesn't.
fn compared(alloc: Global) -> Result<u32, NoMemory> {
    let mut passed = 0u32;
    for (start, text) in &TAGS {
        if !all_print(alloc, &COMPARE, &COMPARES, *start, *text)? {
            break;
        }
        passed = passed.wrapping_add(1);
    }
    Ok(passed)
}

#[test]
fn comparisons_of_tags(rt: HostRuntime) -> Result<(), Fail> {
    assert_eq!(rt; compared(rt.alloc())?, 3);
    Ok(())
}

/// The list is 5 at 64, then 7 at 80, then 11 at 96.
#[test]
fn the_sum_of_a_list(rt: HostRuntime) -> Result<(), Fail> {
    let three =
        "arg 64\nmemory 0 64 0500000050000000\nmemory 0 80 0700000060000000\nmemory 0 96 0B000000\n";
    let sum = "returned i32 23\nmemory 0 pages 2\n";
    assert!(rt; all_print(rt.alloc(), &LIST, &LISTS, three, sum)?);
    let zero = "returned i32 0\nmemory 0 pages 2\n";
    assert!(rt; all_print(rt.alloc(), &LIST, &LISTS, "arg 0\n", zero)?);
    Ok(())
}

/// Lines, each so many times.
fn lines(alloc: Global, counted: &[(&str, u32)]) -> Result<String, NoMemory> {
    let mut text = String::new(alloc);
    for (line, count) in counted {
        for _time in 0..*count {
            text.push_str(*line)?;
            text.push_str("\n")?;
        }
    }
    Ok(text)
}

/// Whether `twin` says that of a trace among the files, where the hardened image of their module is made before.
fn hardens_and_twins(
    alloc: Global,
    files: &mut MemoryShelf,
    words: &str,
    status: u8,
    text: &str,
) -> Result<bool, NoMemory> {
    let _hardened = status_of(alloc, files, HARDEN)?;
    ends(alloc, files, words, status, text)
}

/// Whether that holds for a module, a trace, and the starts of the indices 3 and 5.
fn is_answered<'a>(
    alloc: Global,
    module: &'a [u8],
    trace: &'a str,
    words: &str,
    status: u8,
    text: &str,
) -> Result<bool, NoMemory> {
    let mut files = shelf_of(
        alloc,
        &[
            ("m.wasm", module),
            ("t", trace.as_bytes()),
            ("s", b"arg 3"),
            ("r", b"arg 5"),
        ],
    )?;
    hardens_and_twins(alloc, &mut files, words, status, text)
}

/// Whether that holds for lines, each so many times.
fn twins(
    alloc: Global,
    module: &[u8],
    trace: &[(&str, u32)],
    words: &str,
    status: u8,
    text: &[(&str, u32)],
) -> Result<bool, NoMemory> {
    let trace = lines(alloc, trace)?;
    let text = lines(alloc, text)?;
    is_answered(alloc, module, trace.as_str(), words, status, text.as_str())
}

/// The trace of the lookup, and what is said of it.
static LOOKUP_TRACE: [(&str, u32); 9] = [
    ("fetch", 7),
    ("fetch 0", 1),
    ("fetch", 1),
    ("exec 1", 1),
    ("exec 2", 1),
    ("exec 3", 1),
    ("exec 4", 1),
    ("exec 5", 1),
    ("exec 8", 1),
];

static LOOKUP_TEXT: [(&str, u32); 3] = [
    ("public agree", 1),
    ("none", 14),
    ("differ 15\nread 1027 guards 7\nread 1029 guards 7", 1),
];

/// The trace of the masked one, and what is said of it.
static MASKED_TRACE: [(&str, u32); 9] = [
    ("fetch", 28),
    ("fetch 0", 1),
    ("fetch", 1),
    ("exec 18", 1),
    ("exec 19", 1),
    ("exec 24", 1),
    ("exec 25", 1),
    ("exec 26", 1),
    ("exec 29", 1),
];

static MASKED_TEXT: [(&str, u32); 3] = [
    ("public agree", 1),
    ("none", 35),
    ("read 1024 guards 28\nequal 36", 1),
];

/// Whether the lookup tells the indices apart.
fn are_told_apart(alloc: Global, words: &str) -> Result<bool, NoMemory> {
    twins(alloc, &LOOKUP, &LOOKUP_TRACE, words, 1, &LOOKUP_TEXT)
}

/// Whether the masked one doesn't.
fn are_equal(alloc: Global, words: &str) -> Result<bool, NoMemory> {
    twins(alloc, &MASKED_SSA, &MASKED_TRACE, words, 0, &MASKED_TEXT)
}

/// The load is executed before the test of its bounds, which is entry 7 of the one and 28 of the other; the table stands at 1,024.
#[test]
fn two_secrets_are_told_apart_by_the_lookup_and_not_by_the_masked_one(
    rt: HostRuntime,
) -> Result<(), Fail> {
    assert!(rt; are_told_apart(rt.alloc(), "blade twin i m/lookup t s r")?);
    assert!(rt; are_equal(rt.alloc(), "blade twin i m/masked t s r")?);
    Ok(())
}
