//! Images and modules with a byte changed or missing. Which rule a changed image breaks, and where, was worked by hand from the rules of programs in
//! FORMATS; `formats/read.py`, which was written from that page alone, answers the same. The modules break one rule or limit each.
use bl_base::NoMemory;
use bl_outside::MemoryShelf;
use std::alloc::Global;
use std::test::Fail;
use tests_calls::{ends, shelf_of, stands};
use tests_samples::ADD_ONE_IMAGE;

/// Whether an image runs so with the argument 1.
fn runs(alloc: Global, image: &[u8], status: u8, text: &str) -> Result<bool, NoMemory> {
    let mut shelf = shelf_of(alloc, &[("i", image), ("s", b"arg 1\n")])?;
    ends(alloc, &mut shelf, "blade run i inc/inc s", status, text)
}

/// How many proper prefixes of the image don't run before the first that does.
fn prefixes(alloc: Global) -> Result<u32, NoMemory> {
    let mut passed = 0u32;
    for length in 0..ADD_ONE_IMAGE.len() {
        if !runs(alloc, &ADD_ONE_IMAGE[..length], 12, "image: not an image\n")? {
            break;
        }
        passed = passed.wrapping_add(1);
    }
    Ok(passed)
}

#[test]
fn no_proper_prefix_of_an_image_runs(rt: HostRuntime) -> Result<(), Fail> {
    assert_eq!(rt; prefixes(rt.alloc())?, 53);
    Ok(())
}

/// A byte's place, the bytes that stand there instead, and the status and the text of `run`.
static CHANGES: [(usize, &[u8], u8, &str); 9] = [
    (0, b"\x43", 12, "image: not an image\n"),
    // four variables, and five spelled in two bytes
    (13, b"\x04", 12, "image: rule 4 at 10\n"),
    (13, b"\x85\x00", 12, "image: not an image\n"),
    // five commands, and seven
    (14, b"\x05", 12, "image: not an image\n"),
    (14, b"\x07", 12, "image: not an image\n"),
    // the export's function, the jump's target
    (24, b"\x01", 12, "image: rule 3 at 0\n"),
    (26, b"\x0D", 12, "image: rule 5 at 7\n"),
    // a protect changes no plain outcome
    (28, b"\x08", 0, "returned i32 2\n"),
    (28, b"\x00", 0, "returned i32 2\n"),
];

/// The image with other bytes at the place of one.
fn changed(alloc: Global, place: usize, bytes: &[u8]) -> Result<Vec<u8>, NoMemory> {
    let mut image = ADD_ONE_IMAGE[..place.min(53)].to_vec(alloc)?;
    image.extend_from_slice(bytes)?;
    image.extend_from_slice(&ADD_ONE_IMAGE[place.saturating_add(1).min(53)..])?;
    Ok(image)
}

/// How many changed images run so before the first that doesn't.
fn changes(alloc: Global) -> Result<u32, NoMemory> {
    let mut passed = 0u32;
    for (place, bytes, status, text) in &CHANGES {
        if !runs(alloc, &changed(alloc, *place, *bytes)?, *status, *text)? {
            break;
        }
        passed = passed.wrapping_add(1);
    }
    Ok(passed)
}

#[test]
fn a_changed_byte_of_an_image_is_told_by_run(rt: HostRuntime) -> Result<(), Fail> {
    assert_eq!(rt; changes(rt.alloc())?, 9);
    Ok(())
}

/// A module, and the status and the line of the refusal.
static MODULES: [(&[u8], u8, &str); 3] = [
    // 4294967295 types, of which none is there
    (
        b"\0asm\x01\0\0\0\x01\x05\xFF\xFF\xFF\xFF\x0F",
        5,
        "malformed: m\n",
    ),
    // one function with 4294967295 locals
    (
        b"\0asm\x01\0\0\0\x01\x04\x01`\0\0\x03\x02\x01\0\x0A\x0A\x01\x08\x01\xFF\xFF\xFF\xFF\x0F\x7F\x0B",
        8,
        "limit: locals 4294967295\n",
    ),
    // a start section
    (
        b"\0asm\x01\0\0\0\x01\x04\x01`\0\0\x03\x02\x01\0\x08\x01\0\x0A\x04\x01\x02\0\x0B",
        7,
        "unsupported: m\n",
    ),
];

/// Whether a call is refused so, and nothing is kept.
fn keeps_nothing(
    alloc: Global,
    shelf: &mut MemoryShelf,
    line: &str,
    status: u8,
    text: &str,
) -> Result<bool, NoMemory> {
    let refused = ends(alloc, shelf, line, status, text)?;
    Ok(refused && !stands(shelf, "i") && !stands(shelf, "c"))
}

/// Whether that holds for a shelf with a module.
fn is_refused(
    alloc: Global,
    module: &[u8],
    line: &str,
    status: u8,
    text: &str,
) -> Result<bool, NoMemory> {
    let mut shelf = shelf_of(alloc, &[("m.wasm", module), ("s", b"arg 1\n")])?;
    keeps_nothing(alloc, &mut shelf, line, status, text)
}

/// How many modules are refused so before the first that isn't.
fn refused(alloc: Global) -> Result<u32, NoMemory> {
    let mut passed = 0u32;
    for (bytes, status, text) in &MODULES {
        if !is_refused(alloc, *bytes, "blade harden i c m.wasm", *status, *text)? {
            break;
        }
        passed = passed.wrapping_add(1);
    }
    Ok(passed)
}

#[test]
fn a_module_is_refused_before_anything_is_kept(rt: HostRuntime) -> Result<(), Fail> {
    assert_eq!(rt; refused(rt.alloc())?, 3);
    Ok(())
}

#[test]
fn nine_modules_are_too_many(rt: HostRuntime) -> Result<(), Fail> {
    let line = "blade harden i c m.wasm n o p q r t u v";
    assert!(rt; is_refused(rt.alloc(), b"", line, 8, "limit: modules 9\n")?);
    Ok(())
}
