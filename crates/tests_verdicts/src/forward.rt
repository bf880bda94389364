//! `forward` and `twin` on images that are lowered before. The lines are those that `oracles/traces.py` prints; `safe` is by hand: what a load gives reaches
//! an address in the module of bytes alone. Refusals follow from the order of errors in docs/CLI.md.
use bl_base::NoMemory;
use bl_outside::MemoryShelf;
use std::alloc::Global;
use std::test::Fail;
use tests_calls::{ends, shelf_of};

/// A module with a memory of one page, whose function stores its parameter at place 8 and loads it again. The store is command 12, the load
/// command 16.
const STORED: [u8; 50] = [
    0x00, 0x61, 0x73, 0x6D, 0x01, 0x00, 0x00, 0x00, 0x01, 0x06, 0x01, 0x60, 0x01, 0x7F, 0x01, 0x7F,
    0x03, 0x02, 0x01, 0x00, 0x05, 0x03, 0x01, 0x00, 0x01, 0x07, 0x05, 0x01, 0x01, 0x66, 0x00, 0x00,
    0x0A, 0x10, 0x01, 0x0E, 0x00, 0x41, 0x08, 0x20, 0x00, 0x36, 0x00, 0x00, 0x41, 0x08, 0x28, 0x00,
    0x00, 0x0B,
];

/// The same, where the store is one of a byte.
const BYTE_STORED: [u8; 50] = [
    0x00, 0x61, 0x73, 0x6D, 0x01, 0x00, 0x00, 0x00, 0x01, 0x06, 0x01, 0x60, 0x01, 0x7F, 0x01, 0x7F,
    0x03, 0x02, 0x01, 0x00, 0x05, 0x03, 0x01, 0x00, 0x01, 0x07, 0x05, 0x01, 0x01, 0x66, 0x00, 0x00,
    0x0A, 0x10, 0x01, 0x0E, 0x00, 0x41, 0x08, 0x20, 0x00, 0x3A, 0x00, 0x00, 0x41, 0x08, 0x28, 0x00,
    0x00, 0x0B,
];

/// A module with a memory of one page, whose function loads a byte, and then the byte at that address.
const BYTES_OF_BYTES: [u8; 46] = [
    0x00, 0x61, 0x73, 0x6D, 0x01, 0x00, 0x00, 0x00, 0x01, 0x06, 0x01, 0x60, 0x01, 0x7F, 0x01, 0x7F,
    0x03, 0x02, 0x01, 0x00, 0x05, 0x03, 0x01, 0x00, 0x01, 0x07, 0x05, 0x01, 0x01, 0x66, 0x00, 0x00,
    0x0A, 0x0C, 0x01, 0x0A, 0x00, 0x20, 0x00, 0x2D, 0x00, 0x00, 0x2D, 0x00, 0x00, 0x0B,
];

/// Directives on a store and a load: all is fetched, and what the store reads, the store and the load are executed.
const TRACE: &str = "fetch\nfetch\nfetch\nfetch\nfetch 0\nfetch\nfetch\nfetch\nfetch 0\nfetch\n\
                     exec 1\nexec 2\nexec 5\nexec 6\nexec 9\n";

/// Directives that read by both loads of a byte while the tests before them wait.
const AHEAD: &str =
    "fetch\nfetch\nfetch\nfetch 0\nfetch\nfetch\nfetch 0\nfetch\nexec 1\nexec 4\nexec 7\n";

/// The words of `lower`, and what it prints of the three modules.
const LOWER: &str = "blade lower i m";

const FORWARD: &str = "blade forward i m/f t s r";

const TWIN: &str = "blade twin i m/f t s r";

/// A module and the number of its commands; the trace and the two starts.
type Files = (
    &'static [u8],
    &'static str,
    &'static str,
    &'static str,
    &'static str,
);

/// Starts of 5 and 7.
const OTHERS: Files = (&STORED, "commands 19\n", TRACE, "arg 5\n", "arg 7\n");

/// Starts of 5 and 5.
const SAME: Files = (&STORED, "commands 19\n", TRACE, "arg 5\n", "arg 5\n");

/// Starts of 5 and 7, where the store is one of a byte.
const NARROW: Files = (&BYTE_STORED, "commands 19\n", TRACE, "arg 5\n", "arg 7\n");

/// Starts that differ in the memory.
const CHAINED: Files = (
    &BYTES_OF_BYTES,
    "commands 17\n",
    AHEAD,
    "arg 0\nmemory 0 0 05\n",
    "arg 0\nmemory 0 0 07\n",
);

/// A shelf with a module, a trace and two starts.
fn shelf_with(alloc: Global, files: &Files) -> Result<MemoryShelf, NoMemory> {
    let (module, _, trace, start, other) = *files;
    shelf_of(
        alloc,
        &[
            ("m", module),
            ("t", trace.as_bytes()),
            ("s", start.as_bytes()),
            ("r", other.as_bytes()),
        ],
    )
}

/// Whether the module is lowered, and a command on its image then ends with that status and prints that text.
fn tells(
    alloc: Global,
    shelf: &mut MemoryShelf,
    lowered: &str,
    line: &str,
    status: u8,
    text: &str,
) -> Result<bool, NoMemory> {
    let is_lowered = ends(alloc, shelf, LOWER, 0, lowered)?;
    Ok(is_lowered && ends(alloc, shelf, line, status, text)?)
}

/// A command on the image of files, with its status and its text.
type Case = (Files, &'static str, u8, &'static str);

static CASES: [Case; 5] = [
    (
        OTHERS,
        FORWARD,
        0,
        "safe yes\npublic differ\n\
         none\nnone\nnone\nnone\nnone\nnone\nnone\nnone\nnone\nnone\nnone\nnone\n\
         write 8 guards 4\nnone\nforward 8 guards 4 8\nequal 15\n",
    ),
    (
        OTHERS,
        TWIN,
        18,
        "public differ\n\
         none\nnone\nnone\nnone\nnone\nnone\nnone\nnone\nnone\nnone\nnone\nnone\n\
         write 8 guards 4\nnone\nstuck 15\n",
    ),
    (
        NARROW,
        FORWARD,
        18,
        "safe yes\npublic differ\n\
         none\nnone\nnone\nnone\nnone\nnone\nnone\nnone\nnone\nnone\nnone\nnone\n\
         write 8 guards 4\nnone\nstuck 15\n",
    ),
    (
        SAME,
        FORWARD,
        0,
        "safe yes\npublic agree\n\
         none\nnone\nnone\nnone\nnone\nnone\nnone\nnone\nnone\nnone\nnone\nnone\n\
         write 8 guards 4\nnone\nforward 8 guards 4 8\nequal 15\n",
    ),
    (
        CHAINED,
        FORWARD,
        1,
        "safe no\npublic differ\nnone\nnone\nnone\nnone\nnone\nnone\nnone\nnone\nnone\nread 0 guards 3\n\
         differ 11\nread 5 guards 3 6\nread 7 guards 3 6\n",
    ),
];

/// Whether a case is as it says.
fn is_told(alloc: Global, case: &Case) -> Result<bool, NoMemory> {
    let (files, line, status, text) = *case;
    let mut shelf = shelf_with(alloc, &files)?;
    tells(alloc, &mut shelf, files.1, line, status, text)
}

/// How many cases are as they say before the first that isn't.
fn told(alloc: Global, cases: &[Case]) -> Result<u32, NoMemory> {
    let mut passed = 0u32;
    for case in cases {
        if !is_told(alloc, case)? {
            break;
        }
        passed = passed.wrapping_add(1);
    }
    Ok(passed)
}

#[test]
fn two_runs_that_forward_are_told_apart(rt: HostRuntime) -> Result<(), Fail> {
    assert_eq!(rt; told(rt.alloc(), &CASES)?, 5);
    Ok(())
}

/// Files that are refused, each behind the ones before, and the line of the refusal.
static REFUSALS: [Case; 5] = [
    (
        OTHERS,
        "blade forward i m/g t s absent",
        3,
        "read fault: absent\n",
    ),
    (
        OTHERS,
        "blade forward m m/f s s r",
        12,
        "image: not an image\n",
    ),
    (OTHERS, "blade forward i m/g s t r", 15, "start: export\n"),
    (OTHERS, "blade forward i m/f s t r", 14, "trace: line 1\n"),
    (
        OTHERS,
        "blade forward i m/f t s",
        2,
        "usage: blade COMMAND ARGUMENTS\n",
    ),
];

#[test]
fn files_are_refused_in_the_order_of_twin(rt: HostRuntime) -> Result<(), Fail> {
    assert_eq!(rt; told(rt.alloc(), &REFUSALS)?, 5);
    Ok(())
}
