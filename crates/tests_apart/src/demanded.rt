//! Demands and labels of a client and of a library that are joined. What `f` of the library gives, or what it keeps in a global, has to be public;
//! a client hands it a secret. The verdicts were worked by hand from the label rules: a secret reaches what is demanded, or nothing is secret. The
//! client's function is 1 of the joined program, as in its own.
use crate::modules::{HIDES, OWES_GLOBAL, OWES_RESULT, STUB, TELLS};
use bl_base::NoMemory;
use bl_outside::{MemoryShelf, MemorySink};
use std::alloc::Global;
use std::test::Fail;
use tests_calls::{are_done, say, shelf_of};

/// Each is hardened apart, and then the two are joined.
static APART: [&str; 3] = [
    "blade part library l f lib.wasm",
    "blade part client c f stub/lib.wasm main.wasm",
    "blade join i f c l",
];

/// Whether the certificate of a program without protects holds, and the verdicts on the joined program begin so behind it.
fn is_judged<'x>(
    alloc: Global,
    library: &'x [u8],
    client: &'x [u8],
    verdict: &[u8],
) -> Result<bool, NoMemory> {
    let mut shelf = shelf_of(
        alloc,
        &[
            ("lib.wasm", library),
            ("stub/lib.wasm", &STUB),
            ("main.wasm", client),
            ("f", b"function t t lib/f\n"),
            ("p", br#"{"paths":[],"weight":0}"#),
        ],
    )?;
    begins_so(alloc, &mut shelf, verdict)
}

/// Whether they do on these files.
fn begins_so(alloc: Global, shelf: &mut MemoryShelf, verdict: &[u8]) -> Result<bool, NoMemory> {
    if !are_done(alloc, shelf, &APART)? {
        return Ok(false);
    }
    let mut told = MemorySink::new(alloc, None);
    let status = say(alloc, shelf, "blade verify i p", &mut told)?;
    Ok(status == 0 && told.bytes().starts_with(verdict))
}

const YES: &[u8] = b"certificate yes\nstable yes\nconstant-time yes\nsafe yes\n";

const NO: &[u8] = b"certificate yes\nstable yes\nconstant-time no parameter 1 0 through ";

#[test]
fn what_a_library_gives_has_to_be_public(rt: HostRuntime) -> Result<(), Fail> {
    assert!(rt; is_judged(rt.alloc(), &OWES_RESULT, &TELLS, NO)?);
    assert!(rt; is_judged(rt.alloc(), &OWES_RESULT, &HIDES, YES)?);
    Ok(())
}

#[test]
fn what_a_library_keeps_has_to_be_public(rt: HostRuntime) -> Result<(), Fail> {
    assert!(rt; is_judged(rt.alloc(), &OWES_GLOBAL, &TELLS, NO)?);
    assert!(rt; is_judged(rt.alloc(), &OWES_GLOBAL, &HIDES, YES)?);
    Ok(())
}
