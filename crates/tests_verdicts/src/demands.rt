//! Labels and images of version 2. The images and the reports are written by hand from the rules of lowering and the label rules.
use bl_base::{List, NoMemory};
use bl_outside::MemoryShelf;
use std::alloc::Global;
use std::test::Fail;
use tests_calls::{ends, holds, labelled_shelf, put_labelled, stands};
use tests_samples::{DEMANDED_IMAGE, IDENTITY, IDENTITY_IMAGE, NO_PATHS};

/// The bytes of the label section behind its name, the report, and the image.
static CASES: [(&[u8], &str, &[u8]); 3] = [
    (
        b"\x02\x02\0\0\0\x03\0\0",
        "functions 1\ncommands 11\nsites 2\nprotects 0 weight 0\nconstant-time no parameter 0 0 through 8 end 9\n",
        &DEMANDED_IMAGE,
    ),
    (
        b"\x01\x01\0\0\0",
        "functions 1\ncommands 11\nsites 2\nprotects 0 weight 0\nconstant-time yes\n",
        &IDENTITY_IMAGE,
    ),
    (
        b"\x02\x01\0\0\0",
        "functions 1\ncommands 11\nsites 2\nprotects 0 weight 0\nconstant-time yes\n",
        &IDENTITY_IMAGE,
    ),
];

/// Puts that function as `id.wasm`, a start file and the certificate of no path on a shelf.
fn put_identity(alloc: Global, shelf: &mut MemoryShelf, labels: &[u8]) -> Result<(), NoMemory> {
    put_labelled(alloc, shelf, "id.wasm", &IDENTITY, labels)?;
    shelf.put("s", b"arg 5")?;
    shelf.put("e", NO_PATHS.as_bytes())
}

/// A shelf with those.
fn identity(alloc: Global, labels: &[u8]) -> Result<MemoryShelf, NoMemory> {
    let mut shelf = MemoryShelf::new(alloc, List::new(alloc));
    put_identity(alloc, &mut shelf, labels)?;
    Ok(shelf)
}

/// Whether that function on the shelf has that report and that image, which runs.
fn hardens_and_runs(
    alloc: Global,
    shelf: &mut MemoryShelf,
    report: &str,
    image: &[u8],
) -> Result<bool, NoMemory> {
    let reported = ends(alloc, shelf, "blade harden i c id.wasm", 0, report)?;
    let kept = holds(shelf, "i", image) && holds(shelf, "c", NO_PATHS.as_bytes());
    let ran = ends(alloc, shelf, "blade run i id/f s", 0, "returned i32 5\n")?;
    Ok(reported && kept && ran)
}

/// Whether that holds for those labels.
fn is_hardened(alloc: Global, labels: &[u8], report: &str, image: &[u8]) -> Result<bool, NoMemory> {
    let mut shelf = identity(alloc, labels)?;
    hardens_and_runs(alloc, &mut shelf, report, image)
}

/// How many cases pass before the first that doesn't.
fn hardened(alloc: Global) -> Result<u32, NoMemory> {
    let mut passed = 0u32;
    for (labels, report, image) in &CASES {
        if !is_hardened(alloc, *labels, *report, *image)? {
            break;
        }
        passed = passed.wrapping_add(1);
    }
    Ok(passed)
}

#[test]
fn a_result_that_is_demanded_public_stands_in_the_image_and_ends_a_chain(
    rt: HostRuntime,
) -> Result<(), Fail> {
    assert_eq!(rt; hardened(rt.alloc())?, 3);
    Ok(())
}

/// Whether those labels of that function are malformed, and nothing is kept.
fn are_malformed(alloc: Global, labels: &[u8]) -> Result<bool, NoMemory> {
    let mut shelf = identity(alloc, labels)?;
    let refused = ends(
        alloc,
        &mut shelf,
        "blade harden i c id.wasm",
        10,
        "labels: id malformed\n",
    )?;
    Ok(refused && !stands(&shelf, "i") && !stands(&shelf, "c"))
}

#[test]
fn demands_in_a_section_of_version_1_are_malformed(rt: HostRuntime) -> Result<(), Fail> {
    assert!(rt; are_malformed(rt.alloc(), b"\x01\x02\0\0\0\x03\0\0")?);
    Ok(())
}

/// Whether a call with an image beside that function and the certificate of no path ends so.
fn answers(
    alloc: Global,
    image: &[u8],
    line: &str,
    status: u8,
    text: &str,
) -> Result<bool, NoMemory> {
    let mut shelf = identity(alloc, b"")?;
    shelf.put("i", image)?;
    ends(alloc, &mut shelf, line, status, text)
}

/// What `verify` says of the image with the demand, and of that without it.
const NOT_SAFE: &str =
    "certificate yes\nstable yes\nconstant-time no parameter 0 0 through 8 end 9\nsafe no\n";

const SAFE: &str = "certificate yes\nstable yes\nconstant-time yes\nsafe yes\n";

#[test]
fn a_chain_does_not_make_verify_refuse(rt: HostRuntime) -> Result<(), Fail> {
    assert!(rt; answers(rt.alloc(), &DEMANDED_IMAGE, "blade verify i e", 0, NOT_SAFE)?);
    assert!(rt; answers(rt.alloc(), &IDENTITY_IMAGE, "blade verify i e", 0, SAFE)?);
    Ok(())
}

/// The image with the demand, of a result that does not exist.
fn demanded_of_no_result(alloc: Global) -> Result<Vec<u8>, NoMemory> {
    let mut image = DEMANDED_IMAGE[..25].to_vec(alloc)?;
    image.push(0x01)?;
    image.extend_from_slice(&DEMANDED_IMAGE[26..])?;
    Ok(image)
}

/// Whether a call with that image is refused.
fn is_refused(alloc: Global, line: &str) -> Result<bool, NoMemory> {
    let image = demanded_of_no_result(alloc)?;
    answers(alloc, &image, line, 12, "image: rule 9 at 0\n")
}

#[test]
fn an_image_that_demands_a_result_that_does_not_exist_is_refused(
    rt: HostRuntime,
) -> Result<(), Fail> {
    assert!(rt; is_refused(rt.alloc(), "blade run i id/f s")?);
    assert!(rt; is_refused(rt.alloc(), "blade verify i e")?);
    Ok(())
}

/// Two functions that give their parameter, the first one exported, and a global that is 5.
const TWO: &[u8] =
    b"\x01\x06\x01`\x01\x7F\x01\x7F\x03\x03\x02\0\0\x06\x06\x01\x7F\x01A\x05\x0B\x07\x05\x01\x01f\0\0\x0A\x0B\x02\x04\0 \0\x0B\
      \x04\0 \0\x0B";

/// Their image with three demands: both results, and then the global.
static THREE: [u8; 69] = [
    // magic number, version
    0x42, 0x4C, 0x49, 0x4D, 0x02,
    // the global, no memories
    0x01, 0x7F, 0x00, 0x05, 0x00,
    // two functions of three variables and four commands
    0x02, 0x01, 0x7F, 0x00, 0x01, 0x7F, 0x03, 0x04, 0x01, 0x7F, 0x00, 0x01, 0x7F, 0x03, 0x04,
    // the export m/f
    0x01, 0x03, 0x6D, 0x2F, 0x66, 0x00,
    // the demands, no weights
    0x03, 0x00, 0x00, 0x00, 0x00, 0x01, 0x00, 0x01, 0x00, 0x00,
    // 7 Jump 8, 8 Set v3 = Move v1, 9 Out 0 v3, 10 Ret
    0x04, 0x08, 0x00, 0x00, 0x00, 0x03, 0x00, 0x01, 0x07, 0x00, 0x00, 0x00, 0x03, 0x08,
    // 11 Jump 12, 12 Set v6 = Move v4, 13 Out 0 v6, 14 Ret
    0x04, 0x0C, 0x00, 0x00, 0x00, 0x06, 0x00, 0x04, 0x07, 0x00, 0x00, 0x00, 0x06, 0x08,
];

/// Their report.
const REPORT: &str = "functions 2\ncommands 15\nsites 4\nprotects 0 weight 0\nconstant-time yes\n";

/// Whether those functions with those labels have that report and that image.
fn are_hardened(alloc: Global, labels: &[u8]) -> Result<bool, NoMemory> {
    let mut shelf = labelled_shelf(alloc, TWO, labels)?;
    let reported = ends(alloc, &mut shelf, "blade harden i c m.wasm", 0, REPORT)?;
    Ok(reported && holds(&shelf, "i", &THREE))
}

#[test]
fn demands_rise_in_the_image_results_before_globals(rt: HostRuntime) -> Result<(), Fail> {
    // the global, the second result, the first one
    assert!(rt; are_hardened(rt.alloc(), b"\x02\x03\x04\0\x03\x01\0\x03\0\0")?);
    Ok(())
}
