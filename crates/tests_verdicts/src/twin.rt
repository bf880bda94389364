//! Two runs of an image by the same directives, from starts that differ in a secret or in public.
//!
//! The lines are computed by hand from the rules of the machine with a buffer, and `oracles/traces.py` prints the same. Entry 1 of it is the move of the
//! parameter, 3 and 6 are the guards of the two loads, 4 and 7 the loads. Refusals follow from the order of errors in docs/CLI.md.
use bl_base::NoMemory;
use bl_outside::MemoryShelf;
use std::alloc::Global;
use std::test::Fail;
use tests_calls::{ends, holds, module_of, shelf_of, status_of};
use tests_samples::{BYTES_OF_BYTES, NO_PATHS};

/// The sections of a module with one load, of eight bytes.
static EIGHT_BYTES: [u8; 36] = [
    0x01, 0x06, 0x01, 0x60, 0x01, 0x7F, 0x01, 0x7E, 0x03, 0x02, 0x01, 0x00, 0x05, 0x04, 0x01, 0x01,
    0x01, 0x01, 0x07, 0x05, 0x01, 0x01, 0x66, 0x00, 0x00, 0x0A, 0x09, 0x01, 0x07, 0x00, 0x20, 0x00,
    0x29, 0x03, 0x00, 0x0B,
];

/// A module of a secret memory of one page.
static VAULT: [u8; 33] = [
    0x00, 0x61, 0x73, 0x6D, 0x01, 0x00, 0x00, 0x00, 0x05, 0x04, 0x01, 0x01, 0x01, 0x01, 0x00, 0x11,
    0x0C, 0x62, 0x6C, 0x61, 0x64, 0x65, 0x2E, 0x6C, 0x61, 0x62, 0x65, 0x6C, 0x73, 0x01, 0x01, 0x02,
    0x00,
];

/// Directives that read by both loads while the tests before them wait.
const AHEAD: &str =
    "fetch\nfetch\nfetch\nfetch 0\nfetch\nfetch\nfetch 0\nfetch\nexec 1\nexec 4\nexec 7\n";

/// The same without the second load.
const ONE_LOAD: &str =
    "fetch\nfetch\nfetch\nfetch 0\nfetch\nfetch\nfetch 0\nfetch\nexec 1\nexec 4\n";

/// Directives that read by the one load, and then find its test to fail.
const ROLLED: &str = "fetch\nfetch\nfetch\nfetch 0\nfetch\nexec 1\nexec 4\nexec 2\nexec 3\n";

const LOWER: &str = "blade lower i main.wasm vault.wasm";

const HARDEN: &str = "blade harden i c main.wasm vault.wasm";

const TWIN: &str = "blade twin i main/f trace one two";

/// Puts the module of the secret memory, a trace and two starts on a shelf.
fn put_starts(shelf: &mut MemoryShelf, trace: &str, starts: (&str, &str)) -> Result<(), NoMemory> {
    shelf.put("vault.wasm", &VAULT)?;
    shelf.put("trace", trace.as_bytes())?;
    shelf.put("one", starts.0.as_bytes())?;
    shelf.put("two", starts.1.as_bytes())
}

/// A shelf with the main module of some sections.
fn shelf_with_main(alloc: Global, sections: &[u8]) -> Result<MemoryShelf, NoMemory> {
    let module = module_of(alloc, sections)?;
    shelf_of(alloc, &[("main.wasm", &module)])
}

/// A shelf with that and those.
fn shelf_with(
    alloc: Global,
    sections: &[u8],
    trace: &str,
    starts: (&str, &str),
) -> Result<MemoryShelf, NoMemory> {
    let mut shelf = shelf_with_main(alloc, sections)?;
    put_starts(&mut shelf, trace, starts)?;
    Ok(shelf)
}

/// The command that writes the image, the trace, the two starts, and the status and the text of `twin`.
type Case = (
    &'static str,
    &'static str,
    (&'static str, &'static str),
    u8,
    &'static str,
);

/// Two starts that differ in the secret memory alone, where the parameter is the place of its first byte.
const SECRETS: (&str, &str) = ("arg 65536\nmemory 1 0 05\n", "arg 65536\nmemory 1 0 07\n");

/// Two starts that differ in the public memory.
const PUBLIC_BYTES: (&str, &str) = ("arg 0\nmemory 0 0 05\n", "arg 0\nmemory 0 0 07\n");

static BYTES: [Case; 8] = [
    (
        LOWER,
        AHEAD,
        SECRETS,
        1,
        "public agree\nnone\nnone\nnone\nnone\nnone\nnone\nnone\nnone\nnone\nread 65536 guards 3\n\
         differ 11\nread 5 guards 3 6\nread 7 guards 3 6\n",
    ),
    (
        LOWER,
        ONE_LOAD,
        SECRETS,
        0,
        "public agree\nnone\nnone\nnone\nnone\nnone\nnone\nnone\nnone\nnone\nread 65536 guards 3\n\
         equal 10\n",
    ),
    (
        HARDEN,
        AHEAD,
        SECRETS,
        18,
        "public agree\nnone\nnone\nnone\nnone\nnone\nnone\nnone\nnone\nnone\nread 65536 guards 3\n\
         stuck 11\n",
    ),
    (
        HARDEN,
        ONE_LOAD,
        SECRETS,
        0,
        "public agree\nnone\nnone\nnone\nnone\nnone\nnone\nnone\nnone\nnone\nread 65536 guards 3\n\
         equal 10\n",
    ),
    (
        LOWER,
        AHEAD,
        PUBLIC_BYTES,
        1,
        "public differ\nnone\nnone\nnone\nnone\nnone\nnone\nnone\nnone\nnone\nread 0 guards 3\n\
         differ 11\nread 5 guards 3 6\nread 7 guards 3 6\n",
    ),
    (
        HARDEN,
        ONE_LOAD,
        PUBLIC_BYTES,
        0,
        "public differ\nnone\nnone\nnone\nnone\nnone\nnone\nnone\nnone\nnone\nread 0 guards 3\n\
         equal 10\n",
    ),
    // The arguments are public.
    (
        HARDEN,
        AHEAD,
        ("arg 0\n", "arg 1\n"),
        1,
        "public differ\nnone\nnone\nnone\nnone\nnone\nnone\nnone\nnone\nnone\n\
         differ 10\nread 0 guards 3\nread 1 guards 3\n",
    ),
    // Patches that write what stands there make no other start.
    (
        HARDEN,
        "",
        ("arg 0\n", "memory 0 9 00\narg 00\nmemory 1 65535 Ff"),
        0,
        "public agree\nequal 0\n",
    ),
];

/// The same of the load of eight bytes, whose last one is the secret one, and of one past all memories.
static EIGHT: [Case; 4] = [
    (
        LOWER,
        ROLLED,
        ("arg 65529\nmemory 1 0 05\n", "arg 65529\nmemory 1 0 07\n"),
        0,
        "public agree\nnone\nnone\nnone\nnone\nnone\nnone\nread 65529 guards 3\nnone\nrollback 3\nequal 9\n",
    ),
    (
        HARDEN,
        ROLLED,
        ("arg 65529\nmemory 1 0 05\n", "arg 65529\nmemory 1 0 07\n"),
        0,
        "public agree\nnone\nnone\nnone\nnone\nnone\nnone\nread 65529 guards 3\nnone\nrollback 3\nequal 9\n",
    ),
    (
        LOWER,
        ROLLED,
        ("arg 131072\nmemory 1 0 05\n", "arg 131072\nmemory 1 0 07\n"),
        0,
        "public agree\nnone\nnone\nnone\nnone\nnone\nnone\nread 131072 guards 3\nnone\nrollback 3\nequal 9\n",
    ),
    (
        HARDEN,
        ROLLED,
        ("arg 131072\nmemory 1 0 05\n", "arg 131072\nmemory 1 0 07\n"),
        0,
        "public agree\nnone\nnone\nnone\nnone\nnone\nnone\nread 131072 guards 3\nnone\nrollback 3\nequal 9\n",
    ),
];

/// Whether a call ends well, and `twin` on what it wrote ends with that status and prints that text.
fn writes_and_twins(
    alloc: Global,
    shelf: &mut MemoryShelf,
    lines: (&str, &str),
    status: u8,
    text: &str,
) -> Result<bool, NoMemory> {
    let written = status_of(alloc, shelf, lines.0)?;
    let told = ends(alloc, shelf, lines.1, status, text)?;
    Ok(written == 0 && told)
}

/// Whether the image of the main module is written, and `twin` answers on it as the case says.
fn is_answered(alloc: Global, main: &[u8], case: &Case) -> Result<bool, NoMemory> {
    let (line, trace, starts, status, text) = *case;
    let mut shelf = shelf_with(alloc, main, trace, starts)?;
    writes_and_twins(alloc, &mut shelf, (line, TWIN), status, text)
}

/// How many cases are answered so before the first that isn't.
fn answered(alloc: Global, main: &[u8], cases: &[Case]) -> Result<u32, NoMemory> {
    let mut passed = 0u32;
    for case in cases {
        if !is_answered(alloc, main, case)? {
            break;
        }
        passed = passed.wrapping_add(1);
    }
    Ok(passed)
}

#[test]
fn a_secret_byte_is_read_ahead_of_its_test_and_becomes_an_address_unless_it_is_protected(
    rt: HostRuntime,
) -> Result<(), Fail> {
    assert_eq!(rt; answered(rt.alloc(), &BYTES_OF_BYTES, &BYTES)?, 8);
    Ok(())
}

#[test]
fn a_load_reads_past_its_memory_and_past_all_of_them_before_its_test(
    rt: HostRuntime,
) -> Result<(), Fail> {
    assert_eq!(rt; answered(rt.alloc(), &EIGHT_BYTES, &EIGHT)?, 4);
    Ok(())
}

/// The line of a call that verifies the image.
const VERIFY: &str = "blade verify i c";

/// What `verify` prints of the lowered program.
const UNSAFE: &str = "certificate yes\nstable no 13\nconstant-time yes\nsafe no\n";

/// What it prints of the hardened one.
const SAFE: &str = "certificate yes\nstable yes\nconstant-time yes\nsafe yes\n";

/// Whether the lowered program is constant time and yet two runs of it differ.
fn differs(alloc: Global, shelf: &mut MemoryShelf) -> Result<bool, NoMemory> {
    shelf.put("c", NO_PATHS.as_bytes())?;
    let lowered = ends(alloc, shelf, LOWER, 0, "commands 17\n")?;
    let verified = ends(alloc, shelf, VERIFY, 1, UNSAFE)?;
    let twin = status_of(alloc, shelf, TWIN)?;
    Ok(lowered && verified && twin == 1)
}

/// Whether that holds, and the hardened program is safe.
fn is_made_safe(alloc: Global, shelf: &mut MemoryShelf) -> Result<bool, NoMemory> {
    let differs = differs(alloc, shelf)?;
    let hardened = status_of(alloc, shelf, HARDEN)?;
    let verified = ends(alloc, shelf, VERIFY, 0, SAFE)?;
    Ok(differs && hardened == 0 && verified)
}

/// Whether that holds for the program of two loads.
fn is_hardened(alloc: Global) -> Result<bool, NoMemory> {
    let mut shelf = shelf_with(alloc, &BYTES_OF_BYTES, AHEAD, SECRETS)?;
    is_made_safe(alloc, &mut shelf)
}

#[test]
fn a_program_whose_runs_differ_may_be_constant_time(rt: HostRuntime) -> Result<(), Fail> {
    assert!(rt; is_hardened(rt.alloc())?);
    Ok(())
}

/// Whether the secret memory on the shelf is hardened to that report and that image, and needs no path.
fn gives_image(
    alloc: Global,
    shelf: &mut MemoryShelf,
    report: &str,
    image: &[u8],
) -> Result<bool, NoMemory> {
    let hardened = ends(alloc, shelf, "blade harden i c vault.wasm", 0, report)?;
    Ok(hardened && holds(shelf, "i", image) && holds(shelf, "c", NO_PATHS.as_bytes()))
}

/// Whether that holds where it stands there alone.
fn has_image(alloc: Global, report: &str, image: &[u8]) -> Result<bool, NoMemory> {
    let mut shelf = shelf_of(alloc, &[("vault.wasm", &VAULT)])?;
    gives_image(alloc, &mut shelf, report, image)
}

#[test]
fn a_secret_memory_alone_has_an_image(rt: HostRuntime) -> Result<(), Fail> {
    let report = "functions 0\ncommands 7\nsites 0\nprotects 0 weight 0\nconstant-time yes\n";
    let image = b"BLIM\x01\0\x01\x01\x01\x01\0\0\0";
    assert!(rt; has_image(rt.alloc(), report, image)?);
    Ok(())
}

/// The line of a call, the trace, the two starts, and the status and the line of a refusal.
type Refusal = (
    &'static str,
    &'static str,
    (&'static str, &'static str),
    u8,
    &'static str,
);

static REFUSALS: [Refusal; 7] = [
    (
        "blade twin i main/g trace one two",
        "leap\n",
        ("", ""),
        15,
        "start: export\n",
    ),
    (
        "blade twin i main/f trace one two",
        "fetch\nleap\n",
        ("", ""),
        14,
        "trace: line 2\n",
    ),
    (
        "blade twin i main/f trace one two",
        "",
        ("", "x"),
        15,
        "start: arguments 0\n",
    ),
    (
        "blade twin i main/f trace one two",
        "",
        ("arg 1", "arg 1\narg 2"),
        15,
        "start: line 2\n",
    ),
    (
        "blade twin i main/f trace one two",
        "",
        ("arg 1", ""),
        15,
        "start: arguments 0\n",
    ),
    (
        "blade twin i main/f trace one absent",
        "leap",
        ("x", ""),
        3,
        "read fault: absent\n",
    ),
    (
        "blade twin i main/f trace one",
        "",
        ("arg 1", ""),
        2,
        "usage: blade COMMAND ARGUMENTS\n",
    ),
];

/// Whether `twin` on the lowered program is refused so.
fn is_refused(alloc: Global, refusal: &Refusal) -> Result<bool, NoMemory> {
    let (line, trace, starts, status, text) = *refusal;
    let mut shelf = shelf_with(alloc, &BYTES_OF_BYTES, trace, starts)?;
    writes_and_twins(alloc, &mut shelf, (LOWER, line), status, text)
}

/// How many are refused so before the first that isn't.
fn refused(alloc: Global) -> Result<u32, NoMemory> {
    let mut passed = 0u32;
    for refusal in &REFUSALS {
        if !is_refused(alloc, refusal)? {
            break;
        }
        passed = passed.wrapping_add(1);
    }
    Ok(passed)
}

#[test]
fn exports_traces_and_either_start_may_be_refused(rt: HostRuntime) -> Result<(), Fail> {
    assert_eq!(rt; refused(rt.alloc())?, 7);
    Ok(())
}
