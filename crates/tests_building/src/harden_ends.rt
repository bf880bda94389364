//! How calls of `harden` end on one module: what is printed and kept, what is refused before anything is kept, and what stands after a fault. By hand:
//! the module that adds 1 becomes six commands behind the seven traps, four of them sites; the lines and the order of refusals are those of docs/CLI.md.
use bl_base::NoMemory;
use std::alloc::Global;
use std::test::Fail;
use tests_calls::{
    HARDEN, Told, ends, ends_narrowly, ends_within, holds, is_told, module_of, shelf_failing,
    shelf_of, stands, status_of, told,
};
use tests_samples::{ADD_ONE, ADD_ONE_IMAGE, EMPTY_IMAGE, LOADS, NO_PATHS};

const REPORT: &str = "functions 1\ncommands 13\nsites 4\nprotects 0 weight 0\nconstant-time yes\n";

/// The line of a call on a shelf with the file `inc.wasm`.
const HARDEN_INC: &str = "blade harden inc.img inc.json inc.wasm";

/// Whether a module is hardened, with that image, the certificate of no path and that report.
fn is_hardened(alloc: Global, wasm: &[u8], image: &[u8], report: &str) -> Result<bool, NoMemory> {
    let mut files = shelf_of(alloc, &[("inc.wasm", wasm)])?;
    Ok(
        ends(alloc, &mut files, HARDEN_INC, 0, report)?
            && holds(&files, "inc.img", image)
            && holds(&files, "inc.json", NO_PATHS.as_bytes()),
    )
}

#[test]
fn the_image_the_certificate_and_the_report_of_the_add_one_module(
    rt: HostRuntime,
) -> Result<(), Fail> {
    assert!(rt; is_hardened(rt.alloc(), &ADD_ONE, &ADD_ONE_IMAGE, REPORT)?);
    Ok(())
}

/// Whether the report is the same on a sink that takes one byte at a push.
fn is_printed_byte_by_byte(alloc: Global) -> Result<bool, NoMemory> {
    let mut files = shelf_of(alloc, &[("inc.wasm", &ADD_ONE)])?;
    ends_narrowly(alloc, &mut files, HARDEN_INC, 0, REPORT)
}

#[test]
fn a_narrow_sink_takes_the_same_report(rt: HostRuntime) -> Result<(), Fail> {
    assert!(rt; is_printed_byte_by_byte(rt.alloc())?);
    Ok(())
}

/// Whether a call is refused so, and nothing is kept.
fn is_refused(
    alloc: Global,
    line: &str,
    wasm: &[u8],
    status: u8,
    text: &str,
) -> Result<bool, NoMemory> {
    let mut files = shelf_of(alloc, &[("inc.wasm", wasm)])?;
    let refused = ends(alloc, &mut files, line, status, text)?;
    Ok(refused && !stands(&files, "inc.img") && !stands(&files, "inc.json"))
}

#[test]
fn words_that_are_no_request_and_a_module_cut_off_keep_nothing(
    rt: HostRuntime,
) -> Result<(), Fail> {
    let usage = "usage: blade COMMAND ARGUMENTS\n";
    assert!(rt; is_refused(rt.alloc(), "blade harden a", &ADD_ONE, 2, usage)?);
    assert!(rt;
        is_refused(
            rt.alloc(),
            HARDEN_INC,
            &ADD_ONE[..39],
            5,
            "malformed: inc\n"
        )?
    );
    Ok(())
}

/// A line, its status, and a file that is kept where that is 0.
static DASHES: [(&str, u8, &str); 7] = [
    ("blade harden -- -a b inc.wasm", 0, "-a"),
    ("blade harden a -- -b inc.wasm", 0, "-b"),
    ("blade harden - b inc.wasm --", 0, "-"),
    ("blade harden a -b -- inc.wasm", 2, "a"),
    ("blade harden a b c inc.wasm", 3, "a"),
    ("blade -- harden a b inc.wasm", 2, "a"),
    ("blade harden -- a a inc.wasm", 2, "a"),
];

/// Whether a call has that status, and the file is kept where that is 0.
fn has_status(alloc: Global, line: &str, status: u8, name: &str) -> Result<bool, NoMemory> {
    let mut files = shelf_of(alloc, &[("inc.wasm", &ADD_ONE)])?;
    let answer = status_of(alloc, &mut files, line)?;
    Ok(answer == status && stands(&files, name) == (status == 0))
}

/// How many lines pass before the first that doesn't.
fn dashes(alloc: Global) -> Result<u32, NoMemory> {
    let mut passed = 0u32;
    for (line, status, name) in &DASHES {
        if !has_status(alloc, *line, *status, *name)? {
            break;
        }
        passed = passed.wrapping_add(1);
    }
    Ok(passed)
}

#[test]
fn two_dashes_end_the_options(rt: HostRuntime) -> Result<(), Fail> {
    assert_eq!(rt; dashes(rt.alloc())?, 7);
    Ok(())
}

const EMPTY_REPORT: &str =
    "functions 0\ncommands 7\nsites 0\nprotects 0 weight 0\nconstant-time yes\n";

/// Whether a prefix of that module is malformed, and hardened where it is 8 or 16 bytes long.
fn is_told_as_prefix(alloc: Global, wasm: &[u8]) -> Result<bool, NoMemory> {
    if wasm.len() == 8 || wasm.len() == 16 {
        return is_hardened(alloc, wasm, &EMPTY_IMAGE, EMPTY_REPORT);
    }
    is_refused(alloc, HARDEN_INC, wasm, 5, "malformed: inc\n")
}

/// How many prefixes pass before the first that doesn't.
fn prefixes(alloc: Global) -> Result<u32, NoMemory> {
    let mut passed = 0u32;
    for length in 0..LOADS.len() {
        if !is_told_as_prefix(alloc, &LOADS[..length])? {
            break;
        }
        passed = passed.wrapping_add(1);
    }
    Ok(passed)
}

#[test]
fn prefixes_of_a_module_are_malformed_but_for_two_that_are_modules_without_functions(
    rt: HostRuntime,
) -> Result<(), Fail> {
    assert_eq!(rt; prefixes(rt.alloc())?, 46);
    Ok(())
}

/// A module of 10,001 functions of type [] -> [] without items.
fn many_functions(alloc: Global) -> Result<Vec<u8>, NoMemory> {
    let mut bytes = module_of(
        alloc,
        &[
            0x01, 0x04, 0x01, 0x60, 0x00, 0x00, 0x03, 0x93, 0x4E, 0x91, 0x4E,
        ],
    )?;
    for _function in 0..10_001 {
        bytes.push(0x00)?;
    }
    bytes.extend_from_slice(&[0x0A, 0xB5, 0xEA, 0x01, 0x91, 0x4E])?;
    for _code in 0..10_001 {
        bytes.extend_from_slice(&[0x02, 0x00, 0x0B])?;
    }
    Ok(bytes)
}

/// The sections of the module that adds 1, with the size of its code in five bytes.
const LONG_SIZE: [u8; 36] = [
    0x01, 0x06, 0x01, 0x60, 0x01, 0x7F, 0x01, 0x7F, 0x03, 0x02, 0x01, 0x00, 0x07, 0x07, 0x01, 0x03,
    0x69, 0x6E, 0x63, 0x00, 0x00, 0x0A, 0x89, 0x80, 0x80, 0x80, 0x00, 0x01, 0x07, 0x00, 0x20, 0x00,
    0x41, 0x01, 0x6A, 0x0B,
];

/// That module, and what is refused.
static SPELLED: [Told; 5] = [
    (HARDEN, &LONG_SIZE, 0, REPORT),
    (
        HARDEN,
        &[
            0x01, 0x04, 0x01, 0x60, 0x00, 0x00, 0x03, 0x02, 0x01, 0x00, 0x0A, 0x0E, 0x01, 0x0C,
            0x00, 0x44, 0x00, 0x00, 0x00, 0x00, 0x00, 0x00, 0xF0, 0x3F, 0x1A, 0x0B,
        ],
        7,
        "unsupported: m\n",
    ),
    (
        HARDEN,
        &[0x05, 0x04, 0x01, 0x00, 0x81, 0x02],
        8,
        "limit: memory 257\n",
    ),
    (
        HARDEN,
        &[0x01, 0x06, 0xFF, 0xFF, 0xFF, 0xFF, 0x0F, 0x60],
        5,
        "malformed: m\n",
    ),
    (
        HARDEN,
        b"\x00\x0D\x0Cblade.labels",
        10,
        "labels: m malformed\n",
    ),
];

/// Whether a module of 10,001 functions is told so.
fn are_too_many(alloc: Global, text: &str) -> Result<bool, NoMemory> {
    let module = many_functions(alloc)?;
    is_told(alloc, &module, HARDEN, 8, text)
}

/// Whether a file of 4,194,305 bytes is told so.
fn is_too_long(alloc: Global, text: &str) -> Result<bool, NoMemory> {
    is_told(alloc, &vec![in alloc; 0; 4_194_305]?, HARDEN, 8, text)
}

#[test]
fn modules_that_are_refused_and_one_by_a_long_spelling(rt: HostRuntime) -> Result<(), Fail> {
    assert_eq!(rt; told(rt.alloc(), &SPELLED)?, 5);
    assert!(rt; are_too_many(rt.alloc(), "limit: functions 10001\n")?);
    assert!(rt; is_too_long(rt.alloc(), "limit: module 4194305\n")?);
    Ok(())
}

/// Modules of one function of type [] -> [i32].
static UNTYPED: [Told; 4] = [
    (
        HARDEN,
        &[
            0x01, 0x05, 0x01, 0x60, 0x00, 0x01, 0x7F, 0x03, 0x02, 0x01, 0x00, 0x0A, 0x05, 0x01,
            0x03, 0x00, 0x6A, 0x0B,
        ],
        6,
        "invalid: m function 0\n",
    ),
    (
        HARDEN,
        b"\x01\x05\x01\x60\x00\x01\x7F\x03\x02\x01\x00\x00\x0D\x0Cblade.labels\x0A\x05\x01\x03\x00\x6A\x0B",
        6,
        "invalid: m function 0\n",
    ),
    (
        HARDEN,
        b"\x01\x05\x01\x60\x00\x01\x7F\x03\x02\x01\x00\x00\x0D\x0Cblade.labels\x0A\x06\x01\x04\x00\x00\x6A\x0B",
        10,
        "labels: m malformed\n",
    ),
    (
        HARDEN,
        &[
            0x01, 0x05, 0x01, 0x60, 0x00, 0x01, 0x7F, 0x03, 0x02, 0x01, 0x00, 0x07, 0x05, 0x01,
            0x01, 0x66, 0x00, 0x01, 0x0A, 0x05, 0x01, 0x03, 0x00, 0x00, 0x0B,
        ],
        6,
        "invalid: m module\n",
    ),
];

#[test]
fn modules_without_a_typing_are_named_before_those_with_malformed_labels(
    rt: HostRuntime,
) -> Result<(), Fail> {
    assert_eq!(rt; told(rt.alloc(), &UNTYPED)?, 4);
    Ok(())
}

/// The call of the shelf that fails and the limit of the sink; the status, the text, and whether the certificate and the image are kept.
type Fault = (Option<u64>, Option<u64>, u8, &'static str, bool, bool);

static FAULTS: [Fault; 4] = [
    (Some(1), None, 3, "read fault: inc.wasm\n", false, false),
    (Some(2), None, 4, "write fault: inc.json\n", false, false),
    (Some(3), None, 4, "write fault: inc.img\n", true, false),
    (None, Some(10), 4, "functions ", true, true),
];

/// Whether a fault leaves that.
fn leaves(alloc: Global, fault: &Fault) -> Result<bool, NoMemory> {
    let (failing, limit, status, text, certificate, image) = *fault;
    let mut files = shelf_failing(alloc, &[("inc.wasm", &ADD_ONE)], failing)?;
    Ok(
        ends_within(alloc, &mut files, HARDEN_INC, limit, status, text)?
            && stands(&files, "inc.json") == certificate
            && stands(&files, "inc.img") == image,
    )
}

/// How many faults pass before the first that doesn't.
fn faults(alloc: Global) -> Result<u32, NoMemory> {
    let mut passed = 0u32;
    for fault in &FAULTS {
        if !leaves(alloc, fault)? {
            break;
        }
        passed = passed.wrapping_add(1);
    }
    Ok(passed)
}

#[test]
fn each_fault_leaves_what_was_kept_before_it(rt: HostRuntime) -> Result<(), Fail> {
    assert_eq!(rt; faults(rt.alloc())?, 4);
    Ok(())
}
