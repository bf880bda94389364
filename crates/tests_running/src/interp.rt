//! Modules that are interpreted: steps, and exports, starts and files that are refused. By hand: entering a function, each instruction and the return are a
//! step each, so adding 1 takes five; the lines and the order of refusals are those of docs/CLI.md.
use bl_base::NoMemory;
use std::alloc::Global;
use std::test::Fail;
use tests_calls::{Case, ends_on, interprets, passed};
use tests_samples::{ADD_ONE, COUNT_DOWN, DIVISION, LOADS, REMAINDER, UNREACHABLE, UNTYPED};

/// A function that loops for ever.
const ENDLESS: [u8; 28] = [
    0x01, 0x04, 0x01, 0x60, 0x00, 0x00, 0x03, 0x02, 0x01, 0x00, 0x07, 0x05, 0x01, 0x01, 0x66, 0x00,
    0x00, 0x0A, 0x09, 0x01, 0x07, 0x00, 0x03, 0x40, 0x0C, 0x00, 0x0B, 0x0B,
];

#[test]
fn a_million_steps_are_made_where_none_are_asked_for(rt: HostRuntime) -> Result<(), Fail> {
    assert!(rt; interprets(rt.alloc(), &ENDLESS, "", 17, "spent 1000000\n")?);
    Ok(())
}

static STEPS: [Case; 7] = [
    (
        "blade interp m/inc start m.wasm",
        b"arg 4294967295\n",
        None,
        0,
        "returned i32 0\n",
    ),
    (
        "blade interp m/inc --steps 5 start m.wasm",
        b"arg 4294967295\n",
        None,
        0,
        "returned i32 0\n",
    ),
    (
        "blade interp m/inc start --steps 4 m.wasm",
        b"arg 4294967295\n",
        None,
        17,
        "spent 4\n",
    ),
    (
        "blade interp m/inc start m.wasm --steps=7",
        b"arg 4294967295\n",
        None,
        0,
        "returned i32 0\n",
    ),
    (
        "blade interp m/inc start m.wasm --steps 0",
        b"arg 4294967295\n",
        None,
        2,
        "usage: blade COMMAND ARGUMENTS\n",
    ),
    (
        "blade interp m/inc --steps 7 start m.wasm --steps=7",
        b"arg 4294967295\n",
        None,
        2,
        "usage: blade COMMAND ARGUMENTS\n",
    ),
    (
        "blade interp m/inc start -- --steps=7",
        b"arg 4294967295\n",
        None,
        3,
        "read fault: --steps=7\n",
    ),
];

#[test]
fn steps_are_counted_and_given_once(rt: HostRuntime) -> Result<(), Fail> {
    assert_eq!(rt; passed(rt.alloc(), "m.wasm", &ADD_ONE, &STEPS)?, 7);
    Ok(())
}

/// What is refused of the module that adds 1.
static REFUSALS: [Case; 6] = [
    (
        "blade interp m/dec start m.wasm",
        b"arg 1\n",
        None,
        15,
        "start: export\n",
    ),
    (
        "blade interp m/inc start m.wasm",
        b"",
        None,
        15,
        "start: arguments 0\n",
    ),
    (
        "blade interp m/inc start m.wasm",
        b"arg 4294967296\n",
        None,
        15,
        "start: line 1\n",
    ),
    (
        "blade interp m/inc start m.wasm",
        b"arg 1\n",
        Some(1),
        3,
        "read fault: start\n",
    ),
    (
        "blade interp m/inc start m.wasm",
        b"arg 1\n",
        Some(2),
        3,
        "read fault: m.wasm\n",
    ),
    (
        "blade interp m/f absent absent.wasm",
        b"",
        None,
        3,
        "read fault: absent\n",
    ),
];

/// What is refused of that module cut off, and of the one that loads.
static CUT: [Case; 1] = [(
    "blade interp m/inc start m.wasm",
    b"arg 1\n",
    None,
    5,
    "malformed: m\n",
)];

static LOADING: [Case; 1] = [(
    "blade interp m/f start m.wasm",
    b"",
    None,
    15,
    "start: arguments 0\n",
)];

/// Whether a start file of 16,777,217 bytes is told so, where that call of the shelf fails.
fn is_too_long(alloc: Global, failing: Option<u64>, text: &str) -> Result<bool, NoMemory> {
    let long = vec![in alloc; b'a'; 16_777_217]?;
    let files: [(&str, &[u8]); 2] = [("m.wasm", &ADD_ONE), ("start", &long)];
    ends_on(
        alloc,
        &files,
        failing,
        "blade interp m/inc start m.wasm",
        8,
        text,
    )
}

#[test]
fn exports_and_starts_that_are_refused_and_files_that_are_not_read(
    rt: HostRuntime,
) -> Result<(), Fail> {
    assert_eq!(rt; passed(rt.alloc(), "m.wasm", &ADD_ONE, &REFUSALS)?, 6);
    assert_eq!(rt; passed(rt.alloc(), "m.wasm", &ADD_ONE[..39], &CUT)?, 1);
    assert_eq!(rt; passed(rt.alloc(), "m.wasm", &LOADS, &LOADING)?, 1);
    assert!(rt; is_too_long(rt.alloc(), None, "limit: start 16777217\n")?);
    assert!(rt; is_too_long(rt.alloc(), Some(2), "limit: start 16777217\n")?);
    Ok(())
}
