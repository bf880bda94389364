//! Directives on images, and what `spec` prints of them, as `oracles/traces.py` does. Refusals follow from the order of errors in docs/CLI.md.
use bl_base::NoMemory;
use std::alloc::Global;
use std::test::Fail;
use tests_calls::{ends, shelf_of};
use tests_samples::{ADD_ONE_IMAGE, LOADS_IMAGE};

/// The image of a function that stores its parameter at the place that it names, and loads it again.
const STORES: [u8; 77] = [
    0x42, 0x4C, 0x49, 0x4D, 0x01, 0x00, 0x01, 0x01, 0x01, 0x00, 0x00, 0x01, 0x01, 0x7F, 0x00, 0x01,
    0x7F, 0x05, 0x08, 0x01, 0x03, 0x6D, 0x2F, 0x66, 0x00, 0x00, 0x00, 0x01, 0x03, 0x00, 0x01, 0x00,
    0x00, 0x01, 0x04, 0x03, 0x00, 0x03, 0x03, 0x09, 0x02, 0x36, 0x00, 0x00, 0x00, 0x01, 0x00, 0x01,
    0x00, 0x00, 0x01, 0x04, 0x00, 0x01, 0x00, 0x00, 0x01, 0x04, 0x03, 0x00, 0x04, 0x03, 0x0C, 0x01,
    0x00, 0x28, 0x00, 0x05, 0x00, 0x00, 0x01, 0x07, 0x00, 0x00, 0x00, 0x05, 0x08,
];

/// The image of a function that tests its parameter, goes on in either case, and divides it by 3.
const DIVIDES: [u8; 40] = [
    0x42, 0x4C, 0x49, 0x4D, 0x01, 0x00, 0x00, 0x01, 0x01, 0x7F, 0x00, 0x01, 0x7F, 0x03, 0x04, 0x01,
    0x03, 0x6D, 0x2F, 0x66, 0x00, 0x03, 0x00, 0x00, 0x08, 0x08, 0x00, 0x00, 0x6E, 0x02, 0x00, 0x00,
    0x01, 0x03, 0x07, 0x00, 0x00, 0x00, 0x02, 0x08,
];

/// The image of a function that calls itself, without end.
const CALLS: [u8; 21] = [
    0x42, 0x4C, 0x49, 0x4D, 0x01, 0x00, 0x00, 0x01, 0x00, 0x00, 0x00, 0x02, 0x01, 0x03, 0x6D, 0x2F,
    0x66, 0x00, 0x06, 0x00, 0x08,
];

/// The line of a call on an image whose function is that one.
const OF_M: &str = "blade spec i.img m/f trace start";

const OF_INC: &str = "blade spec i.img inc/inc trace start";

/// Whether directives on an image are answered so.
fn is_answered(
    alloc: Global,
    line: &str,
    files: (&[u8], &[u8], &[u8]),
    status: u8,
    text: &str,
) -> Result<bool, NoMemory> {
    let (image, trace, start) = files;
    let mut shelf = shelf_of(
        alloc,
        &[("i.img", image), ("trace", trace), ("start", start)],
    )?;
    ends(alloc, &mut shelf, line, status, text)
}

/// An image, the line, the trace, the start, and the text.
static OUTCOMES: [(&[u8], &str, &str, &str, &str); 3] = [
    // Commands in their order.
    (
        &ADD_ONE_IMAGE,
        OF_INC,
        "fetch\nfetch\nfetch\nfetch\nfetch\nfetch\nexec 1\nexec 2\nexec 3\nexec 4\n\
         retire\nretire\nretire\nretire\nretire\nretire\n",
        "arg 41\n",
        "none\nnone\nnone\nnone\nnone\nnone\nnone\nnone\nnone\nnone\n\
         none\nnone\nnone\nnone\nnone\nnone\nreturned i32 42\n",
    ),
    // A wrong prediction is rolled back; the value of a protected load is held, and then read.
    (
        &LOADS_IMAGE,
        OF_M,
        "fetch\nfetch\nfetch\nfetch 1\nfetch\nexec 1\nexec 2\nexec 3\n\
         fetch\nexec 4\nexec 4\nfetch\nexec 5\nfetch 0\nfetch\nexec 7\nexec 6\n\
         fetch\nexec 8\nfetch\n\
         retire\nretire\nretire\nretire\nretire\nretire\nretire\nretire\nretire\nretire",
        "arg 0\n",
        "none\nnone\nnone\nnone\nnone\nnone\nnone\nrollback 3\n\
         none\nread 0\nnone\nnone\nnone\nnone\nnone\nread 0 guards 6\nnone\n\
         none\nnone\nnone\n\
         none\nnone\nnone\nnone\nnone\nnone\nnone\nnone\nnone\nnone\n\
         returned i32 0\nmemory 0 pages 1\n",
    ),
    // A load waits until the store before it is retired.
    (
        &STORES,
        OF_M,
        "fetch\nfetch 0\nfetch\nfetch\nfetch 0\nfetch\nexec 2\nexec 0\nexec 1\n\
         retire\nretire\nretire\nexec 2\nexec 0\nexec 1\nfetch\nexec 3\nfetch\n\
         retire\nretire\nretire\nretire\nretire\n",
        "arg 8\n",
        "none\nnone\nnone\nnone\nnone\nnone\nwrite 8 guards 1\nnone\nnone\n\
         none\nnone\nnone\nread 8 guards 1\nnone\nnone\nnone\nnone\nnone\n\
         none\nnone\nnone\nnone\nnone\n\
         returned i32 8\nmemory 0 pages 1\nrow 0 0 00000000000000000800000000000000\n",
    ),
];

/// How many traces run to their outcome before the first that doesn't.
fn outcomes(alloc: Global) -> Result<u32, NoMemory> {
    let mut passed = 0u32;
    for (image, line, trace, start, text) in &OUTCOMES {
        let files = (*image, trace.as_bytes(), start.as_bytes());
        if !is_answered(alloc, *line, files, 0, *text)? {
            break;
        }
        passed = passed.wrapping_add(1);
    }
    Ok(passed)
}

#[test]
fn directives_that_run_to_the_plain_outcome(rt: HostRuntime) -> Result<(), Fail> {
    assert_eq!(rt; outcomes(rt.alloc())?, 3);
    Ok(())
}

/// An image of `m/f`, the trace, and the status and the text where the start is 0.
static STOPPED: [(&[u8], &str, u8, &str); 6] = [
    // A held value isn't visible, and isn't let go before the guard.
    (
        &LOADS_IMAGE,
        "fetch\nfetch\nfetch\nfetch 0\nfetch\nfetch\nexec 1\nexec 4\nexec 5\n",
        18,
        "none\nnone\nnone\nnone\nnone\nnone\nnone\nread 0 guards 3\nstuck 9\n",
    ),
    (
        &LOADS_IMAGE,
        "fetch\nfetch\nfetch\nfetch 0\nfetch\nexec 1\nexec 4\nexec 4\n",
        18,
        "none\nnone\nnone\nnone\nnone\nnone\nread 0 guards 3\nstuck 8\n",
    ),
    (
        &LOADS_IMAGE,
        "fetch\nfetch\nfetch\nfetch 0\nfetch\nexec 1\nexec 4\nexec 2\nexec 3\nexec 4",
        0,
        "none\nnone\nnone\nnone\nnone\nnone\nread 0 guards 3\nnone\nnone\nnone\npending\n",
    ),
    // A load behind a store, whether that has its value or hasn't.
    (
        &STORES,
        "fetch\nfetch 0\nfetch\nfetch\nfetch 0\nfetch\nexec 5\n",
        18,
        "none\nnone\nnone\nnone\nnone\nnone\nstuck 7\n",
    ),
    (
        &STORES,
        "fetch\nfetch 0\nfetch\nfetch\nfetch 0\nfetch\nexec 2\nexec 5\n",
        18,
        "none\nnone\nnone\nnone\nnone\nnone\nwrite 0 guards 1\nstuck 8\n",
    ),
    (
        &DIVIDES,
        "fetch 1\nfetch\nexec 0001\n",
        0,
        "none\nnone\ndivide 0 3 guards 0\npending\n",
    ),
];

/// How many traces stop so before the first that doesn't.
fn stopped(alloc: Global) -> Result<u32, NoMemory> {
    let mut passed = 0u32;
    for (image, trace, status, text) in &STOPPED {
        let files: (&[u8], &[u8], &[u8]) = (*image, trace.as_bytes(), b"arg 0\n");
        if !is_answered(alloc, OF_M, files, *status, *text)? {
            break;
        }
        passed = passed.wrapping_add(1);
    }
    Ok(passed)
}

#[test]
fn directives_that_are_not_enabled_and_machines_that_have_not_ended(
    rt: HostRuntime,
) -> Result<(), Fail> {
    assert_eq!(rt; stopped(rt.alloc())?, 6);
    Ok(())
}

/// A text, so many times, and an end.
fn repeated(alloc: Global, text: &str, times: u32, end: &str) -> Result<String, NoMemory> {
    let mut all = String::new(alloc);
    for _ in 0..times {
        all.push_str(text)?;
    }
    all.push_str(end)?;
    Ok(all)
}

/// Whether the call after 1,023 calls fails.
fn fails(alloc: Global) -> Result<bool, NoMemory> {
    let trace = repeated(alloc, "fetch\nretire\n", 1_024, "")?;
    let end = "none\nfail\ntrapped call stack exhausted\n";
    let text = repeated(alloc, "none\nnone\n", 1_023, end)?;
    is_answered(
        alloc,
        OF_M,
        (&CALLS, trace.as_bytes(), b""),
        0,
        text.as_str(),
    )
}

#[test]
fn a_call_too_many_fails(rt: HostRuntime) -> Result<(), Fail> {
    assert!(rt; fails(rt.alloc())?);
    Ok(())
}

/// A line, the trace, the start, and the status and the text.
static REFUSED: [(&str, &[u8], &str, u8, &str); 8] = [
    (
        OF_INC,
        b"fetch\nretire\nexec 0\n",
        "arg 1",
        18,
        "none\nnone\nstuck 3\n",
    ),
    (OF_INC, b"", "arg 1", 0, "pending\n"),
    (OF_INC, b"fetch\nleap", "arg 1", 14, "trace: line 2\n"),
    (OF_INC, b"fetch 00\n", "arg 1", 14, "trace: line 1\n"),
    (
        OF_INC,
        b"exec 4294967295\nexec 4294967296\n",
        "arg 1",
        14,
        "trace: line 2\n",
    ),
    (
        "blade spec i.img inc/dec trace start",
        b"leap",
        "",
        15,
        "start: export\n",
    ),
    (OF_INC, b"fetch", "", 15, "start: arguments 0\n"),
    (OF_INC, b"fetch\nleap", "", 14, "trace: line 2\n"),
];

/// How many traces, exports and starts are refused so before the first that isn't.
fn refused(alloc: Global) -> Result<u32, NoMemory> {
    let mut passed = 0u32;
    for (line, trace, start, status, text) in &REFUSED {
        let files: (&[u8], &[u8], &[u8]) = (&ADD_ONE_IMAGE, *trace, start.as_bytes());
        if !is_answered(alloc, *line, files, *status, *text)? {
            break;
        }
        passed = passed.wrapping_add(1);
    }
    Ok(passed)
}

/// Whether a trace of so many empty lines is told so.
fn is_too_long(alloc: Global, lines: usize, text: &str) -> Result<bool, NoMemory> {
    let trace = vec![in alloc; b'\n'; lines]?;
    is_answered(alloc, OF_INC, (&ADD_ONE_IMAGE, &trace, b"arg 1"), 8, text)
}

#[test]
fn traces_exports_and_starts_that_are_refused(rt: HostRuntime) -> Result<(), Fail> {
    assert_eq!(rt; refused(rt.alloc())?, 8);
    assert!(rt; is_too_long(rt.alloc(), 1_000_001, "limit: directives 1000001\n")?);
    assert!(rt; is_too_long(rt.alloc(), 16_777_217, "limit: trace 16777217\n")?);
    Ok(())
}
