//! Start files. What each line is, and which is the first bad one, was read off by hand from the rules of start files in docs/CLI.md and in FORMATS.
use bl_base::ValueType::{I32, I64};
use bl_base::{Start, ValueType};
use bl_trace::{StartError, read_start};
use std::alloc::Global;
use std::test::Fail;

/// One memory of a page, and one of none.
const SIZES: [u32; 2] = [1, 0];

/// Whether there are two patches of memory 0, with these bytes at their offsets.
fn is_patched(start: &Start) -> bool {
    match start.patches.as_slice() {
        [one, other] => {
            (one.memory, one.offset) == (0, 65_534)
                && one.bytes.as_slice() == [0x0A, 0xF9].as_slice()
                && (other.memory, other.offset) == (0, 7)
                && other.bytes.as_slice() == [0xFF, 0xAB].as_slice()
        }
        _ => false,
    }
}

/// Whether a start file of two arguments and two patches is read in its order.
fn is_in_order(alloc: Global, file: &[u8]) -> bool {
    match &read_start(alloc, file, &[I32, I64], &SIZES) {
        Ok(start) => {
            start.args.as_slice() == [41, 18_446_744_073_709_551_615].as_slice()
                && is_patched(start)
        }
        Err(_) => false,
    }
}

#[test]
fn arguments_and_patches_are_in_order(rt: HostRuntime) -> Result<(), Fail> {
    let file = b"arg 41\nmemory 0 65534 0aF9\narg 18446744073709551615\nmemory 0 007 fFaB";
    assert!(rt; is_in_order(rt.alloc(), file));
    Ok(())
}

/// A start file, and why it is refused, if it is.
type File = (&'static [u8], Option<StartError>);

const FIRST: Option<StartError> = Some(StartError::Line(1));

const SECOND: Option<StartError> = Some(StartError::Line(2));

/// Start files for one argument of i32, and why they are refused, if they are.
static FILES: [File; 29] = [
    (b"arg 41", None),
    (b"arg 41\n", None),
    (b"arg 4294967295", None),
    (b"arg 4294967296", FIRST),
    (b"arg 0000000000000000000000000000005", None),
    (
        b"arg 99999999999999999999999999999999999999999999999",
        FIRST,
    ),
    (b"arg 1\narg 2", SECOND),
    (b"arg -1", FIRST),
    (b"arg +1", FIRST),
    (b"arg 0x1", FIRST),
    (b"arg 41 ", FIRST),
    (b"arg  41", FIRST),
    (b" arg 41", FIRST),
    (b"arg\t41", FIRST),
    (b"arg", FIRST),
    (b"arg ", FIRST),
    (b"Arg 41", FIRST),
    (b"arg 41\r\n", FIRST),
    (b"arg 41\n\n", SECOND),
    // a bad line is told before a want of arguments
    (b"\n", FIRST),
    (b"", Some(StartError::Count(0))),
    (b"memory 0 65535 00\n", Some(StartError::Count(0))),
    (b"memory 0 65535 0000\n", FIRST),
    (b"arg 1\nmemory 0 65536 00", SECOND),
    (b"arg 1\nmemory 0 0 123", SECOND),
    (b"arg 1\nmemory 0 0 ", SECOND),
    (b"arg 1\nmemory 0 0 0g", SECOND),
    (b"arg 1\nmemory 1 0 00", SECOND),
    (b"arg 1\nmemory 2 0 00", SECOND),
];

/// How many files for arguments of those types, and memories of those pages, are answered so before the first that isn't.
fn answered(alloc: Global, files: &[File], kinds: &[ValueType], sizes: &[u32]) -> u32 {
    let mut passed = 0u32;
    for (file, cause) in files {
        if read_start(alloc, *file, kinds, sizes).err() != *cause {
            break;
        }
        passed = passed.wrapping_add(1);
    }
    passed
}

#[test]
fn each_refusal_has_its_cause(rt: HostRuntime) -> Result<(), Fail> {
    assert_eq!(rt; answered(rt.alloc(), &FILES, &[I32], &SIZES), 29);
    Ok(())
}

/// The same for two arguments of i64.
static LONG: [File; 3] = [
    (b"arg 18446744073709551615\narg 0", None),
    (b"arg 0\narg 18446744073709551616", SECOND),
    (b"arg 4294967296", Some(StartError::Count(1))),
];

#[test]
fn an_i64_argument_is_below_two_to_the_64(rt: HostRuntime) -> Result<(), Fail> {
    assert_eq!(rt; answered(rt.alloc(), &LONG, &[I64, I64], &[]), 3);
    Ok(())
}
