//! The lines are computed by hand from the rules of certificates, the transient rules and the label rules; `formats/read.py`, which was written
//! from FORMATS alone, gives the same verdicts.
use bl_base::NoMemory;
use bl_outside::MemoryShelf;
use std::alloc::Global;
use std::test::Fail;
use tests_calls::{ends, holds, shelf_of, status_of};
use tests_samples::{DIVIDED_IMAGE, LOADS, LOADS_IMAGE, LOWERED_LOADS_IMAGE, NO_PATHS};

const CERTIFICATE: &str = "{\"paths\":[{\"amount\":1,\"sink\":14,\"sites\":[11]}],\"weight\":1}";

/// An image, the text of a certificate, and the status and the text of `verify`.
type Case = (&'static [u8], &'static str, u8, &'static str);

static CASES: [Case; 8] = [
    (
        &LOADS_IMAGE,
        CERTIFICATE,
        0,
        "certificate yes\nstable yes\nconstant-time yes\nsafe yes\n",
    ),
    (
        &LOADS_IMAGE,
        "{\"paths\":[{\"amount\":2,\"sink\":14,\"sites\":[11]}],\"weight\":1}",
        1,
        "certificate no 4 11\nstable yes\nconstant-time yes\nsafe yes\n",
    ),
    (
        &LOWERED_LOADS_IMAGE,
        CERTIFICATE,
        1,
        "certificate no 3 0\nstable no 13\nconstant-time yes\nsafe no\n",
    ),
    (
        &LOADS_IMAGE,
        NO_PATHS,
        1,
        "certificate no 5 0\nstable yes\nconstant-time yes\nsafe yes\n",
    ),
    (
        &LOADS_IMAGE,
        "{\"paths\":[{\"amount\":1,\"sink\":13,\"sites\":[12]}],\"weight\":1}",
        1,
        "certificate no 1 0\nstable yes\nconstant-time yes\nsafe yes\n",
    ),
    (
        &LOADS_IMAGE,
        "{\"paths\":[{\"amount\":0,\"sink\":14,\"sites\":[11]}],\"weight\":1}",
        1,
        "certificate no 2 0\nstable yes\nconstant-time yes\nsafe yes\n",
    ),
    // No path and no protect add up, and yet the value of the load reaches a test.
    (
        &LOWERED_LOADS_IMAGE,
        NO_PATHS,
        1,
        "certificate yes\nstable no 13\nconstant-time yes\nsafe no\n",
    ),
    // The status is by the first two lines alone; the chain passes no position.
    (
        &DIVIDED_IMAGE,
        NO_PATHS,
        0,
        "certificate yes\nstable yes\nconstant-time no parameter 0 0 end 7\nsafe no\n",
    ),
];

/// An image, the text of a certificate, and the status and the line of a refusal.
static REFUSED: [Case; 5] = [
    (&LOADS_IMAGE, "{", 13, "certificate: not JSON\n"),
    (&LOADS_IMAGE, "{}", 13, "certificate: shape\n"),
    (b"BLIM", "{", 12, "image: not an image\n"),
    // The function has one variable, and two are needed: the Set at 7 writes the second one.
    (
        b"BLIM\x01\0\0\x01\x01\x7F\x01\0\x01\x02\0\0\0\x6E\x01\0\0\x01\x03\x08",
        "{",
        12,
        "image: rule 4 at 7\n",
    ),
    (b"", "{}", 12, "image: not an image\n"),
];

/// The line of a call on a shelf with an image and a certificate.
const VERIFY: &str = "blade verify i c";

/// Whether `verify` answers a case so on a shelf with its files, and leaves both as they were.
fn is_verified_so(alloc: Global, shelf: &mut MemoryShelf, case: &Case) -> Result<bool, NoMemory> {
    let (image, certificate, status, text) = *case;
    let answered = ends(alloc, shelf, VERIFY, status, text)?;
    Ok(answered && holds(shelf, "i", image) && holds(shelf, "c", certificate.as_bytes()))
}

/// Whether that holds for a shelf with these files.
fn is_answered(alloc: Global, case: &Case) -> Result<bool, NoMemory> {
    let files = [("i", case.0), ("c", case.1.as_bytes())];
    let mut shelf = shelf_of(alloc, &files)?;
    is_verified_so(alloc, &mut shelf, case)
}

/// How many cases are answered so before the first that isn't.
fn answered(alloc: Global, cases: &[Case]) -> Result<u32, NoMemory> {
    let mut passed = 0u32;
    for case in cases {
        if !is_answered(alloc, case)? {
            break;
        }
        passed = passed.wrapping_add(1);
    }
    Ok(passed)
}

#[test]
fn a_certificate_holds_or_the_first_broken_rule_is_told(rt: HostRuntime) -> Result<(), Fail> {
    assert_eq!(rt; answered(rt.alloc(), &CASES)?, 8);
    Ok(())
}

#[test]
fn texts_that_are_no_certificate_and_bytes_that_are_no_image(rt: HostRuntime) -> Result<(), Fail> {
    assert_eq!(rt; answered(rt.alloc(), &REFUSED)?, 5);
    Ok(())
}

/// Whether a call with these files names one that can't be read.
fn is_named(alloc: Global, files: &[(&str, &[u8])], text: &str) -> Result<bool, NoMemory> {
    let mut shelf = shelf_of(alloc, files)?;
    ends(alloc, &mut shelf, VERIFY, 3, text)
}

#[test]
fn a_file_that_cannot_be_read_is_named(rt: HostRuntime) -> Result<(), Fail> {
    assert!(rt; is_named(rt.alloc(), &[], "read fault: i\n")?);
    assert!(rt; is_named(rt.alloc(), &[("i", b"")], "read fault: c\n")?);
    Ok(())
}

/// Whether what `harden` writes of the module on the shelf is verified with these lines.
fn hardens_and_verifies(
    alloc: Global,
    shelf: &mut MemoryShelf,
    lines: &str,
) -> Result<bool, NoMemory> {
    let hardened = status_of(alloc, shelf, "blade harden i c m.wasm")?;
    let verified = ends(alloc, shelf, VERIFY, 0, lines)?;
    Ok(hardened == 0 && verified)
}

/// Whether that holds for that module.
fn is_verified(alloc: Global, lines: &str) -> Result<bool, NoMemory> {
    let mut shelf = shelf_of(alloc, &[("m.wasm", &LOADS)])?;
    hardens_and_verifies(alloc, &mut shelf, lines)
}

#[test]
fn what_harden_writes_is_verified(rt: HostRuntime) -> Result<(), Fail> {
    let lines = "certificate yes\nstable yes\nconstant-time yes\nsafe yes\n";
    assert!(rt; is_verified(rt.alloc(), lines)?);
    Ok(())
}
