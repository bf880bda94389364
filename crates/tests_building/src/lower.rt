//! Modules that are lowered and hardened: what is printed of them and written, and that their images run as they do. The outcomes of the runs are those
//! of node v20.20.2's WebAssembly, but for the call that is one too many, where the limit is this program's own; `oracles/images.py` spells the image
//! of the loop. Commands and sites are counted by hand, by the rules of lowering; refusals follow from docs/CLI.md.
use bl_base::NoMemory;
use bl_outside::{MemoryShelf, MemorySink};
use std::alloc::Global;
use std::test::Fail;
use tests_calls::{
    HARDEN, INTERP, LOWER, RUN, Run, Told, alike, both_end, ends, holds, is_told, module_of, say,
    shelf_failing, shelf_of, shelf_with, status_of, told,
};
use tests_samples::{
    ADD_ONE, ADD_ONE_IMAGE, COUNT_DOWN, DIVISION, EMPTY, EMPTY_IMAGE, I32_EXTEND8, I32_EXTEND16,
    I64_EXTEND8, I64_EXTEND16, I64_EXTEND32, LOOP_OF_A_TYPE, REMAINDER, SWAP, UNREACHABLE, UNTYPED,
};

static RUNS: [Run; 13] = [
    (
        &DIVISION,
        "arg 2147483648\narg 4294967295\n",
        16,
        "trapped integer overflow\n",
    ),
    (
        &DIVISION,
        "arg 1\narg 0\n",
        16,
        "trapped integer divide by zero\n",
    ),
    (
        &REMAINDER,
        "arg 2147483648\narg 4294967295\n",
        0,
        "returned i32 0\n",
    ),
    (&COUNT_DOWN, "arg 1023\n", 0, "returned i32 7\n"),
    (
        &COUNT_DOWN,
        "arg 1024\n",
        16,
        "trapped call stack exhausted\n",
    ),
    (&UNREACHABLE, "", 16, "trapped unreachable\n"),
    (&I32_EXTEND8, "arg 200\n", 0, "returned i32 4294967240\n"),
    (&I32_EXTEND16, "arg 32768\n", 0, "returned i32 4294934528\n"),
    (&I64_EXTEND8, "arg 383\n", 0, "returned i64 127\n"),
    (
        &I64_EXTEND16,
        "arg 65535\n",
        0,
        "returned i64 18446744073709551615\n",
    ),
    (
        &I64_EXTEND32,
        "arg 2147483648\n",
        0,
        "returned i64 18446744071562067968\n",
    ),
    (&SWAP, "arg 3\narg 4\n", 0, "returned i32 4 i32 3\n"),
    (&LOOP_OF_A_TYPE, "arg 3\n", 0, "returned i32 0\n"),
];

#[test]
fn images_run_as_their_modules_do(rt: HostRuntime) -> Result<(), Fail> {
    assert_eq!(rt; alike(rt.alloc(), &RUNS)?, 13);
    Ok(())
}

/// The image of the function with a loop that names a type: the parameter's move is at 9, the loop's own jump at 10, and the
/// branch at 16 and 17.
const LOOP_IMAGE: [u8; 94] = [
    0x42, 0x4C, 0x49, 0x4D, 0x01, 0x00, 0x00, 0x01, 0x01, 0x7F, 0x00, 0x01, 0x7F, 0x08, 0x0F, 0x01,
    0x03, 0x6D, 0x2F, 0x66, 0x00, 0x04, 0x08, 0x00, 0x00, 0x00, 0x02, 0x00, 0x00, 0x00, 0x00, 0x00,
    0x03, 0x00, 0x02, 0x04, 0x0B, 0x00, 0x01, 0x00, 0x05, 0x01, 0xFF, 0xFF, 0xFF, 0xFF, 0x0F, 0x00,
    0x01, 0x6A, 0x06, 0x00, 0x03, 0x00, 0x05, 0x00, 0x01, 0x00, 0x00, 0x00, 0x06, 0x00, 0x01, 0x00,
    0x07, 0x00, 0x00, 0x03, 0x00, 0x07, 0x10, 0x12, 0x00, 0x01, 0x00, 0x03, 0x00, 0x06, 0x04, 0x0A,
    0x00, 0x01, 0x00, 0x04, 0x00, 0x06, 0x04, 0x14, 0x07, 0x00, 0x00, 0x00, 0x04, 0x08,
];

/// Whether a module is lowered to that image, which is all that is kept: a third call of the shelf would fail.
fn is_lowered(alloc: Global, module: &[u8], image: &[u8]) -> Result<bool, NoMemory> {
    let mut shelf = shelf_failing(alloc, &[("m.wasm", module)], Some(3))?;
    let status = status_of(alloc, &mut shelf, LOWER)?;
    Ok(status == 0 && holds(&shelf, "i.img", image))
}

/// Whether that holds for the module with a loop.
fn is_loop_lowered(alloc: Global, image: &[u8]) -> Result<bool, NoMemory> {
    let module = module_of(alloc, &LOOP_OF_A_TYPE)?;
    is_lowered(alloc, &module, image)
}

/// Whether the module that adds 1 is lowered so, where another one stands beside it.
fn is_lowered_alone(alloc: Global, line: &str, text: &str, image: &[u8]) -> Result<bool, NoMemory> {
    let mut shelf = shelf_of(alloc, &[("m.wasm", &EMPTY), ("inc.wasm", &ADD_ONE)])?;
    let lowered = ends(alloc, &mut shelf, line, 0, text)?;
    Ok(lowered && holds(&shelf, "inc.img", image))
}

#[test]
fn images_of_a_loop_and_of_no_function(rt: HostRuntime) -> Result<(), Fail> {
    assert!(rt; is_loop_lowered(rt.alloc(), &LOOP_IMAGE)?);
    assert!(rt; is_lowered(rt.alloc(), &EMPTY, &EMPTY_IMAGE)?);
    let line = "blade lower -- inc.img inc.wasm";
    assert!(rt; is_lowered_alone(rt.alloc(), line, "commands 13\n", &ADD_ONE_IMAGE)?);
    Ok(())
}

/// Sections of a module, the line that `lower` prints and the report.
static COUNTS: [(&[u8], &str, &str); 4] = [
    (
        b"",
        "commands 7\n",
        "functions 0\ncommands 7\nsites 0\nprotects 0 weight 0\nconstant-time yes\n",
    ),
    (
        &I32_EXTEND8,
        "commands 12\n",
        "functions 1\ncommands 12\nsites 3\nprotects 0 weight 0\nconstant-time yes\n",
    ),
    (
        &SWAP,
        "commands 13\n",
        "functions 1\ncommands 13\nsites 4\nprotects 0 weight 0\nconstant-time yes\n",
    ),
    (
        &LOOP_OF_A_TYPE,
        "commands 22\n",
        "functions 1\ncommands 22\nsites 9\nprotects 0 weight 0\nconstant-time yes\n",
    ),
];

/// Whether `lower` and `harden` count so of the module of some sections.
fn is_counted(alloc: Global, sections: &[u8], line: &str, report: &str) -> Result<bool, NoMemory> {
    let mut shelf = shelf_with(alloc, &[("m.wasm", sections)], "")?;
    both_end(alloc, &mut shelf, (LOWER, HARDEN), 0, (line, report))
}

/// How many modules pass before the first that doesn't.
fn counted(alloc: Global) -> Result<u32, NoMemory> {
    let mut passed = 0u32;
    for (sections, line, report) in &COUNTS {
        if !is_counted(alloc, *sections, *line, *report)? {
            break;
        }
        passed = passed.wrapping_add(1);
    }
    Ok(passed)
}

#[test]
fn commands_and_sites_are_counted(rt: HostRuntime) -> Result<(), Fail> {
    assert_eq!(rt; counted(rt.alloc())?, 4);
    Ok(())
}

/// A module of one function of so many nops, with the last seven bits of the size of its code section and of its body. The
/// other bits are those of sizes near 2^20.
fn nops(alloc: Global, count: usize, section: u8, body: u8) -> Result<Vec<u8>, NoMemory> {
    let mut bytes = module_of(
        alloc,
        &[
            0x01, 0x04, 0x01, 0x60, 0x00, 0x00, 0x03, 0x02, 0x01, 0x00, 0x0A,
        ],
    )?;
    bytes.extend_from_slice(&[section, 0xFF, 0x3F, 0x01, body, 0xFF, 0x3F, 0x00])?;
    bytes.resize(bytes.len().saturating_add(count), 0x01)?;
    bytes.push(0x0B)?;
    Ok(bytes)
}

/// Whether the module of so many nops, and of what `nops` asks for besides, is told so where it is lowered.
fn are_nops_told(
    alloc: Global,
    count: usize,
    section: u8,
    body: u8,
    status: u8,
    text: &str,
) -> Result<bool, NoMemory> {
    let module = nops(alloc, count, section, body)?;
    is_told(alloc, &module, LOWER, status, text)
}

#[test]
fn a_program_has_at_most_1048576_commands(rt: HostRuntime) -> Result<(), Fail> {
    let most = "commands 1048576\n";
    assert!(rt; are_nops_told(rt.alloc(), 1_048_567, 0xFD, 0xF9, 0, most)?);
    let more = "limit: commands 1048577\n";
    assert!(rt; are_nops_told(rt.alloc(), 1_048_568, 0xFE, 0xFA, 8, more)?);
    Ok(())
}

static REFUSED: [Told; 5] = [
    (LOWER, &UNTYPED, 6, "invalid: m function 0\n"),
    (
        LOWER,
        b"\x00\x0D\x0Cblade.labels",
        10,
        "labels: m malformed\n",
    ),
    (
        "blade lower i.img",
        b"",
        2,
        "usage: blade COMMAND ARGUMENTS\n",
    ),
    (
        "blade lower i.img m.wasm m.wasm",
        b"",
        2,
        "usage: blade COMMAND ARGUMENTS\n",
    ),
    (
        "blade lower i.img m.wasm --steps 7",
        b"",
        2,
        "usage: blade COMMAND ARGUMENTS\n",
    ),
];

#[test]
fn lowering_is_refused_as_running_is(rt: HostRuntime) -> Result<(), Fail> {
    assert_eq!(rt; told(rt.alloc(), &REFUSED)?, 5);
    assert!(rt; is_told(rt.alloc(), &ADD_ONE[..39], LOWER, 5, "malformed: m\n")?);
    Ok(())
}

/// The codes of the operators, by their first and last one, with the type of the operands, how many there are, and the type of
/// the result.
static OPERATORS: [(u8, u8, u8, u8, u8); 12] = [
    (0x45, 0x45, 0x7F, 1, 0x7F),
    (0x46, 0x4F, 0x7F, 2, 0x7F),
    (0x50, 0x50, 0x7E, 1, 0x7F),
    (0x51, 0x5A, 0x7E, 2, 0x7F),
    (0x67, 0x69, 0x7F, 1, 0x7F),
    (0x6A, 0x78, 0x7F, 2, 0x7F),
    (0x79, 0x7B, 0x7E, 1, 0x7E),
    (0x7C, 0x8A, 0x7E, 2, 0x7E),
    (0xA7, 0xA7, 0x7E, 1, 0x7F),
    (0xAC, 0xAD, 0x7F, 1, 0x7E),
    (0xC0, 0xC1, 0x7F, 1, 0x7F),
    (0xC2, 0xC4, 0x7E, 1, 0x7E),
];

/// A function that applies an operator to its one or two parameters.
fn of_operator(
    alloc: Global,
    operator: u8,
    kind: u8,
    two: bool,
    given: u8,
) -> Result<Vec<u8>, NoMemory> {
    if two {
        return module_of(
            alloc,
            &[
                0x01, 0x07, 0x01, 0x60, 0x02, kind, kind, 0x01, given, 0x03, 0x02, 0x01, 0x00,
                0x07, 0x05, 0x01, 0x01, 0x66, 0x00, 0x00, 0x0A, 0x09, 0x01, 0x07, 0x00, 0x20, 0x00,
                0x20, 0x01, operator, 0x0B,
            ],
        );
    }
    module_of(
        alloc,
        &[
            0x01, 0x06, 0x01, 0x60, 0x01, kind, 0x01, given, 0x03, 0x02, 0x01, 0x00, 0x07, 0x05,
            0x01, 0x01, 0x66, 0x00, 0x00, 0x0A, 0x07, 0x01, 0x05, 0x00, 0x20, 0x00, operator, 0x0B,
        ],
    )
}

/// Whether a module runs by itself to that text.
fn interprets_to(alloc: Global, shelf: &mut MemoryShelf, text: &[u8]) -> Result<bool, NoMemory> {
    let mut out = MemorySink::new(alloc, None);
    let status = say(alloc, shelf, INTERP, &mut out)?;
    Ok(status == 0 && out.bytes() == text)
}

/// Whether a lowered module runs by its image and by itself to the same text.
fn run_alike(alloc: Global, shelf: &mut MemoryShelf) -> Result<bool, NoMemory> {
    let mut out = MemorySink::new(alloc, None);
    let status = say(alloc, shelf, RUN, &mut out)?;
    Ok(status == 0 && interprets_to(alloc, shelf, out.bytes())?)
}

/// Whether a module is lowered, and runs alike from that start.
fn is_alike_from(alloc: Global, module: &[u8], start: &str) -> Result<bool, NoMemory> {
    let mut shelf = shelf_of(alloc, &[("m.wasm", module), ("start", start.as_bytes())])?;
    Ok(status_of(alloc, &mut shelf, LOWER)? == 0 && run_alike(alloc, &mut shelf)?)
}

/// Whether an operator gives the same by an image and by the module itself, from those arguments.
fn is_alike(alloc: Global, operator: u8, kind: u8, two: bool, given: u8) -> Result<bool, NoMemory> {
    let start = if two {
        "arg 2147483653\narg 3\n"
    } else {
        "arg 2147483653\n"
    };
    let module = of_operator(alloc, operator, kind, two, given)?;
    is_alike_from(alloc, &module, start)
}

/// How many operators of a row of the table don't give the same.
fn unlike(
    alloc: Global,
    first: u8,
    last: u8,
    kind: u8,
    two: bool,
    given: u8,
) -> Result<u32, NoMemory> {
    let mut count = 0u32;
    for operator in first..=last {
        if !is_alike(alloc, operator, kind, two, given)? {
            count = count.wrapping_add(1);
        }
    }
    Ok(count)
}

/// How many operators there are, where each of them gives the same; None where one doesn't.
fn operators(alloc: Global) -> Result<Option<u32>, NoMemory> {
    let mut count = 0u32;
    for (first, last, kind, operands, given) in &OPERATORS {
        if unlike(alloc, *first, *last, *kind, *operands == 2, *given)? != 0 {
            return Ok(None);
        }
        count = count.wrapping_add(u32::from(last.wrapping_sub(*first)) + 1);
    }
    Ok(Some(count))
}

#[test]
fn each_operator_runs_alike_lowered_and_not(rt: HostRuntime) -> Result<(), Fail> {
    assert_eq!(rt; operators(rt.alloc())?, Some(66));
    Ok(())
}
