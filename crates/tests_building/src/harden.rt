//! Expected positions, weights and images are computed by hand from the rules of lowering; `oracles/images.py` spells the images. Where several
//! greatest flows exist, any of them may be written, so each of their paths is taken.
use bl_base::{List, NoMemory};
use bl_outside::{MemoryShelf, MemorySink};
use std::alloc::Global;
use std::test::Fail;
use tests_calls::{bytes_of, ends, holds, put_module, say, shelf_failing, stands, status_of};
use tests_samples::{BYTES_OF_BYTES, EMPTY_IMAGE, LOADS_IMAGE, NO_PATHS, SUM};

/// A load whose value is the address of a second load.
const CHAIN: [u8; 38] = [
    0x01, 0x06, 0x01, 0x60, 0x01, 0x7F, 0x01, 0x7F, 0x03, 0x02, 0x01, 0x00, 0x05, 0x03, 0x01, 0x00,
    0x01, 0x07, 0x05, 0x01, 0x01, 0x66, 0x00, 0x00, 0x0A, 0x0C, 0x01, 0x0A, 0x00, 0x20, 0x00, 0x28,
    0x02, 0x00, 0x28, 0x02, 0x00, 0x0B,
];

/// Two loads whose sum is the address of a third one.
const SUM_OF_LOADS: [u8; 45] = [
    0x01, 0x07, 0x01, 0x60, 0x02, 0x7F, 0x7F, 0x01, 0x7F, 0x03, 0x02, 0x01, 0x00, 0x05, 0x03, 0x01,
    0x00, 0x01, 0x07, 0x05, 0x01, 0x01, 0x66, 0x00, 0x00, 0x0A, 0x12, 0x01, 0x10, 0x00, 0x20, 0x00,
    0x28, 0x02, 0x00, 0x20, 0x01, 0x28, 0x02, 0x00, 0x6A, 0x28, 0x02, 0x00, 0x0B,
];

/// A load whose value is the address of two others.
const SHARED_ADDRESS: [u8; 48] = [
    0x01, 0x06, 0x01, 0x60, 0x01, 0x7F, 0x01, 0x7F, 0x03, 0x02, 0x01, 0x00, 0x05, 0x03, 0x01, 0x00,
    0x01, 0x07, 0x05, 0x01, 0x01, 0x66, 0x00, 0x00, 0x0A, 0x16, 0x01, 0x14, 0x01, 0x01, 0x7F, 0x20,
    0x00, 0x28, 0x02, 0x00, 0x22, 0x01, 0x28, 0x02, 0x00, 0x20, 0x01, 0x28, 0x02, 0x04, 0x6A, 0x0B,
];

/// A load before a loop, in which its value is an address.
const LOOP_READS: [u8; 47] = [
    0x01, 0x05, 0x01, 0x60, 0x01, 0x7F, 0x00, 0x03, 0x02, 0x01, 0x00, 0x05, 0x03, 0x01, 0x00, 0x01,
    0x07, 0x05, 0x01, 0x01, 0x66, 0x00, 0x00, 0x0A, 0x16, 0x01, 0x14, 0x01, 0x01, 0x7F, 0x20, 0x00,
    0x28, 0x02, 0x00, 0x21, 0x01, 0x03, 0x40, 0x20, 0x01, 0x28, 0x02, 0x00, 0x1A, 0x0B, 0x0B,
];

/// A load in a loop, behind which its value is an address.
pub(crate) const LOOP_WRITES: [u8; 47] = [
    0x01, 0x06, 0x01, 0x60, 0x01, 0x7F, 0x01, 0x7F, 0x03, 0x02, 0x01, 0x00, 0x05, 0x03, 0x01, 0x00,
    0x01, 0x07, 0x05, 0x01, 0x01, 0x66, 0x00, 0x00, 0x0A, 0x15, 0x01, 0x13, 0x01, 0x01, 0x7F, 0x03,
    0x40, 0x20, 0x00, 0x28, 0x02, 0x00, 0x21, 0x01, 0x0B, 0x20, 0x01, 0x28, 0x02, 0x00, 0x0B,
];

/// The image of the sum of loads, which is protected itself.
const SUM_OF_LOADS_IMAGE: [u8; 125] = [
    0x42, 0x4C, 0x49, 0x4D, 0x01, 0x00, 0x01, 0x01, 0x80, 0x02, 0x00, 0x00, 0x01, 0x02, 0x7F, 0x00,
    0x7F, 0x00, 0x01, 0x7F, 0x0C, 0x0F, 0x01, 0x03, 0x6D, 0x2F, 0x66, 0x00, 0x04, 0x08, 0x00, 0x00,
    0x00, 0x04, 0x00, 0x01, 0x00, 0x00, 0x01, 0x05, 0x00, 0x04, 0x00, 0x00, 0x01, 0x04, 0x03, 0x00,
    0x05, 0x03, 0x0B, 0x01, 0x00, 0x28, 0x00, 0x06, 0x00, 0x00, 0x04, 0x00, 0x00, 0x00, 0x07, 0x00,
    0x02, 0x00, 0x00, 0x01, 0x08, 0x00, 0x07, 0x00, 0x00, 0x01, 0x04, 0x03, 0x00, 0x08, 0x03, 0x0F,
    0x01, 0x00, 0x28, 0x00, 0x09, 0x00, 0x00, 0x07, 0x00, 0x08, 0x6A, 0x0A, 0x00, 0x06, 0x00, 0x09,
    0x00, 0x00, 0x01, 0x0B, 0x00, 0x0A, 0x00, 0x00, 0x01, 0x04, 0x03, 0x00, 0x0B, 0x03, 0x13, 0x01,
    0x00, 0x28, 0x00, 0x0C, 0x00, 0x00, 0x0A, 0x07, 0x00, 0x00, 0x00, 0x0C, 0x08,
];

/// The image of the shared address, whose load is protected.
const SHARED_ADDRESS_IMAGE: [u8; 135] = [
    0x42, 0x4C, 0x49, 0x4D, 0x01, 0x00, 0x01, 0x01, 0x80, 0x02, 0x00, 0x00, 0x01, 0x01, 0x7F, 0x00,
    0x01, 0x7F, 0x0C, 0x11, 0x01, 0x03, 0x6D, 0x2F, 0x66, 0x00, 0x00, 0x00, 0x00, 0x03, 0x01, 0x00,
    0x04, 0x09, 0x00, 0x00, 0x00, 0x04, 0x00, 0x01, 0x00, 0x00, 0x01, 0x05, 0x00, 0x04, 0x00, 0x00,
    0x01, 0x04, 0x03, 0x00, 0x05, 0x03, 0x0C, 0x01, 0x08, 0x28, 0x00, 0x06, 0x00, 0x00, 0x04, 0x00,
    0x00, 0x00, 0x03, 0x00, 0x06, 0x00, 0x00, 0x01, 0x07, 0x00, 0x06, 0x00, 0x00, 0x01, 0x04, 0x03,
    0x00, 0x07, 0x03, 0x10, 0x01, 0x00, 0x28, 0x00, 0x08, 0x00, 0x00, 0x06, 0x00, 0x00, 0x00, 0x09,
    0x00, 0x03, 0x00, 0x00, 0x01, 0x0A, 0x00, 0x09, 0x00, 0x00, 0x01, 0x08, 0x03, 0x00, 0x0A, 0x03,
    0x14, 0x01, 0x00, 0x28, 0x00, 0x0B, 0x04, 0x00, 0x09, 0x00, 0x00, 0x6A, 0x0C, 0x00, 0x08, 0x00,
    0x0B, 0x07, 0x00, 0x00, 0x00, 0x0C, 0x08,
];

/// The image of the loop that reads: the load before it is protected.
const LOOP_READS_IMAGE: [u8; 104] = [
    0x42, 0x4C, 0x49, 0x4D, 0x01, 0x00, 0x01, 0x01, 0x80, 0x02, 0x00, 0x00, 0x01, 0x01, 0x7F, 0x00,
    0x00, 0x08, 0x0F, 0x01, 0x03, 0x6D, 0x2F, 0x66, 0x00, 0x00, 0x00, 0x00, 0x02, 0x01, 0x00, 0x04,
    0x09, 0x00, 0x00, 0x00, 0x03, 0x00, 0x01, 0x00, 0x00, 0x01, 0x04, 0x00, 0x03, 0x00, 0x00, 0x01,
    0x04, 0x03, 0x00, 0x04, 0x03, 0x0C, 0x01, 0x08, 0x28, 0x00, 0x05, 0x00, 0x00, 0x03, 0x00, 0x00,
    0x00, 0x02, 0x00, 0x05, 0x04, 0x0F, 0x00, 0x01, 0x00, 0x06, 0x00, 0x02, 0x00, 0x01, 0x01, 0x07,
    0x00, 0x06, 0x00, 0x00, 0x01, 0x04, 0x03, 0x00, 0x07, 0x03, 0x12, 0x01, 0x01, 0x28, 0x00, 0x08,
    0x00, 0x00, 0x06, 0x04, 0x14, 0x04, 0x15, 0x08,
];

/// The image of the loop that writes: what is moved behind it is protected.
const LOOP_WRITES_IMAGE: [u8; 108] = [
    0x42, 0x4C, 0x49, 0x4D, 0x01, 0x00, 0x01, 0x01, 0x80, 0x02, 0x00, 0x00, 0x01, 0x01, 0x7F, 0x00,
    0x01, 0x7F, 0x09, 0x0F, 0x01, 0x03, 0x6D, 0x2F, 0x66, 0x00, 0x00, 0x00, 0x00, 0x03, 0x01, 0x00,
    0x04, 0x09, 0x04, 0x0A, 0x00, 0x01, 0x00, 0x04, 0x00, 0x01, 0x00, 0x01, 0x01, 0x05, 0x00, 0x04,
    0x00, 0x00, 0x01, 0x04, 0x03, 0x00, 0x05, 0x03, 0x0D, 0x01, 0x01, 0x28, 0x00, 0x06, 0x00, 0x00,
    0x04, 0x00, 0x01, 0x00, 0x03, 0x00, 0x06, 0x04, 0x10, 0x00, 0x08, 0x00, 0x07, 0x00, 0x03, 0x00,
    0x00, 0x01, 0x08, 0x00, 0x07, 0x00, 0x00, 0x01, 0x04, 0x03, 0x00, 0x08, 0x03, 0x13, 0x01, 0x00,
    0x28, 0x00, 0x09, 0x00, 0x00, 0x07, 0x07, 0x00, 0x00, 0x00, 0x09, 0x08,
];

/// A memory of a page.
static VAULT: [u8; 6] = [0x05, 0x04, 0x01, 0x01, 0x01, 0x01];

/// A shelf with the module `m.wasm` of some sections.
fn shelf_with_module(alloc: Global, sections: &[u8]) -> Result<MemoryShelf, NoMemory> {
    let mut shelf = MemoryShelf::new(alloc, List::new(alloc));
    put_module(alloc, &mut shelf, "m.wasm", sections)?;
    Ok(shelf)
}

/// The line of a call on that shelf, which keeps `i` and `c`.
const HARDEN: &str = "blade harden i c m.wasm";

/// Whether bytes are a text and an end.
fn is_pair(bytes: &[u8], text: &str, end: &str) -> bool {
    match bytes.strip_prefix(text.as_bytes()) {
        Some(rest) => rest == end.as_bytes(),
        None => false,
    }
}

/// Whether bytes are a head, a text and an end behind one another.
fn is_between(bytes: &[u8], head: &str, text: &str, end: &str) -> bool {
    match bytes.strip_prefix(head.as_bytes()) {
        Some(rest) => is_pair(rest, text, end),
        None => false,
    }
}

/// Whether a report is a head and a path, and a certificate is that of the same path, by its `sink` and `sites`.
fn is_path(report: &[u8], certificate: &[u8], head: &str, path: &Path) -> bool {
    let (line, object) = *path;
    is_between(report, head, line, "\nconstant-time yes\n")
        && is_between(
            certificate,
            "{\"paths\":[{\"amount\":1,",
            object,
            "}],\"weight\":1}",
        )
}

/// Whether that holds for one of some paths.
fn has_path(report: &[u8], certificate: &[u8], head: &str, paths: &[Path]) -> bool {
    for path in paths {
        if is_path(report, certificate, head, path) {
            return true;
        }
    }
    false
}

/// Whether a call ends well, and the report that it prints and the certificate `c` have one of those paths.
fn is_protected(
    alloc: Global,
    shelf: &mut MemoryShelf,
    line: &str,
    head: &str,
    paths: &[Path],
) -> Result<bool, NoMemory> {
    let mut out = MemorySink::new(alloc, None);
    let status = say(alloc, shelf, line, &mut out)?;
    Ok(status == 0 && has_path(out.bytes(), bytes_of(shelf, "c"), head, paths))
}

/// What `verify` prints where all is well.
const VERIFIED: &str = "certificate yes\nstable yes\nconstant-time yes\nsafe yes\n";

/// Whether the module on the shelf is hardened to that report, that image and the certificate of no path.
fn needs_no_protects(
    alloc: Global,
    shelf: &mut MemoryShelf,
    report: &str,
    image: &[u8],
) -> Result<bool, NoMemory> {
    let reported = ends(alloc, shelf, HARDEN, 0, report)?;
    Ok(reported && holds(shelf, "i", image) && holds(shelf, "c", NO_PATHS.as_bytes()))
}

/// Whether that holds for the module without sections.
fn is_empty(alloc: Global, report: &str) -> Result<bool, NoMemory> {
    let mut shelf = shelf_with_module(alloc, &[])?;
    needs_no_protects(alloc, &mut shelf, report, &EMPTY_IMAGE)
}

#[test]
fn a_module_without_functions_has_an_empty_report(rt: HostRuntime) -> Result<(), Fail> {
    let report = "functions 0\ncommands 7\nsites 0\nprotects 0 weight 0\nconstant-time yes\n";
    assert!(rt; is_empty(rt.alloc(), report)?);
    Ok(())
}

/// Whether the module on the shelf is hardened to that report and the certificate of no path, and runs to that text.
fn runs_hardened(
    alloc: Global,
    shelf: &mut MemoryShelf,
    report: &str,
    text: &str,
) -> Result<bool, NoMemory> {
    shelf.put("s", b"arg 1024\narg 3\n")?;
    let reported = ends(alloc, shelf, HARDEN, 0, report)?;
    let ran = ends(alloc, shelf, "blade run i m/sum s", 0, text)?;
    Ok(reported && holds(shelf, "c", NO_PATHS.as_bytes()) && ran)
}

/// Whether that holds for the sum of words.
fn sums(alloc: Global, report: &str, text: &str) -> Result<bool, NoMemory> {
    let mut shelf = shelf_with_module(alloc, &SUM)?;
    runs_hardened(alloc, &mut shelf, report, text)
}

#[test]
fn a_sum_of_words_needs_no_protects(rt: HostRuntime) -> Result<(), Fail> {
    let report = "functions 1\ncommands 37\nsites 19\nprotects 0 weight 0\nconstant-time yes\n";
    assert!(rt; sums(rt.alloc(), report, "returned i32 6\nmemory 0 pages 2\n")?);
    Ok(())
}

/// The report of two loads in a chain, up to the path of its protect.
const CHAIN_HEAD: &str =
    "functions 1\ncommands 17\nsites 6\nprotects 1 weight 1\nprotect 11 weight 1 path ";

/// A path in the report and in the certificate.
type Path = (&'static str, &'static str);

/// The paths of its greatest flows.
const CHAIN_PATHS: [Path; 2] = [
    ("11 sink 14", "\"sink\":14,\"sites\":[11]"),
    ("11 12 sink 13", "\"sink\":13,\"sites\":[11,12]"),
];

/// A module and its image, the head of its report up to the path of its one protect, and the paths of the greatest flows.
type Case = (&'static [u8], &'static [u8], &'static str, &'static [Path]);

static OF_CHAIN: Case = (&CHAIN, &LOADS_IMAGE, CHAIN_HEAD, &CHAIN_PATHS);

static CASES: [Case; 4] = [
    (
        &SUM_OF_LOADS,
        &SUM_OF_LOADS_IMAGE,
        "functions 1\ncommands 22\nsites 10\nprotects 1 weight 1\nprotect 16 weight 1 path ",
        &[
            ("11 16 sink 19", "\"sink\":19,\"sites\":[11,16]"),
            ("11 16 17 sink 18", "\"sink\":18,\"sites\":[11,16,17]"),
            ("15 16 sink 19", "\"sink\":19,\"sites\":[15,16]"),
            ("15 16 17 sink 18", "\"sink\":18,\"sites\":[15,16,17]"),
        ],
    ),
    (
        &SHARED_ADDRESS,
        &SHARED_ADDRESS_IMAGE,
        "functions 1\ncommands 24\nsites 12\nprotects 1 weight 1\nprotect 12 weight 1 path ",
        &[
            ("12 sink 16", "\"sink\":16,\"sites\":[12]"),
            ("12 14 sink 15", "\"sink\":15,\"sites\":[12,14]"),
            ("12 13 17 sink 20", "\"sink\":20,\"sites\":[12,13,17]"),
            ("12 13 17 18 sink 19", "\"sink\":19,\"sites\":[12,13,17,18]"),
        ],
    ),
    (
        &LOOP_READS,
        &LOOP_READS_IMAGE,
        "functions 1\ncommands 22\nsites 8\nprotects 1 weight 1\nprotect 12 weight 1 path ",
        &[
            ("12 13 15 sink 18", "\"sink\":18,\"sites\":[12,13,15]"),
            ("12 13 15 16 sink 17", "\"sink\":17,\"sites\":[12,13,15,16]"),
        ],
    ),
    (
        &LOOP_WRITES,
        &LOOP_WRITES_IMAGE,
        "functions 1\ncommands 22\nsites 9\nprotects 1 weight 1\nprotect 16 weight 1 path ",
        &[
            ("13 14 16 sink 19", "\"sink\":19,\"sites\":[13,14,16]"),
            ("13 14 16 17 sink 18", "\"sink\":18,\"sites\":[13,14,16,17]"),
        ],
    ),
];

/// Whether the module on the shelf has the image and one of the paths of a case, and is verified.
fn is_verified(alloc: Global, shelf: &mut MemoryShelf, case: &Case) -> Result<bool, NoMemory> {
    let (_, image, head, paths) = *case;
    let protected = is_protected(alloc, shelf, HARDEN, head, paths)?;
    let verified = ends(alloc, shelf, "blade verify i c", 0, VERIFIED)?;
    Ok(protected && holds(shelf, "i", image) && verified)
}

/// Whether that holds for the module of the case.
fn is_hardened(alloc: Global, case: &Case) -> Result<bool, NoMemory> {
    let mut shelf = shelf_with_module(alloc, case.0)?;
    is_verified(alloc, &mut shelf, case)
}

#[test]
fn the_first_of_two_loads_in_a_chain_is_protected(rt: HostRuntime) -> Result<(), Fail> {
    assert!(rt; is_hardened(rt.alloc(), &OF_CHAIN)?);
    Ok(())
}

/// How many modules are hardened so before the first that isn't.
fn hardened(alloc: Global) -> Result<u32, NoMemory> {
    let mut passed = 0u32;
    for case in &CASES {
        if !is_hardened(alloc, case)? {
            break;
        }
        passed = passed.wrapping_add(1);
    }
    Ok(passed)
}

#[test]
fn one_protect_is_set_where_it_costs_least(rt: HostRuntime) -> Result<(), Fail> {
    assert_eq!(rt; hardened(rt.alloc())?, 4);
    Ok(())
}

/// The chain, with the size of its code in five bytes.
fn long_size(alloc: Global) -> Result<Vec<u8>, NoMemory> {
    let mut bytes = CHAIN[..25].to_vec(alloc)?;
    bytes.extend_from_slice(&[0x8C, 0x80, 0x80, 0x80, 0x00])?;
    bytes.extend_from_slice(&CHAIN[26..])?;
    Ok(bytes)
}

/// Whether the module on the shelf is hardened to that image.
fn gives_image(alloc: Global, shelf: &mut MemoryShelf, image: &[u8]) -> Result<bool, NoMemory> {
    let status = status_of(alloc, shelf, HARDEN)?;
    Ok(status == 0 && holds(shelf, "i", image))
}

/// Whether a module has that image.
fn has_image(alloc: Global, sections: &[u8], image: &[u8]) -> Result<bool, NoMemory> {
    let mut shelf = shelf_with_module(alloc, sections)?;
    gives_image(alloc, &mut shelf, image)
}

/// Whether the chain with that size has that image.
fn has_same_image(alloc: Global, image: &[u8]) -> Result<bool, NoMemory> {
    let bytes = long_size(alloc)?;
    has_image(alloc, &bytes, image)
}

#[test]
fn a_longer_spelling_of_a_size_gives_the_same_image(rt: HostRuntime) -> Result<(), Fail> {
    assert!(rt; has_same_image(rt.alloc(), &LOADS_IMAGE)?);
    Ok(())
}

/// Whether the two modules are hardened together on an empty shelf to the report of a chain.
fn are_protected(alloc: Global, shelf: &mut MemoryShelf) -> Result<bool, NoMemory> {
    put_module(alloc, shelf, "main.wasm", &BYTES_OF_BYTES)?;
    put_module(alloc, shelf, "vault.wasm", &VAULT)?;
    let line = "blade harden i c main.wasm vault.wasm";
    is_protected(alloc, shelf, line, CHAIN_HEAD, &CHAIN_PATHS)
}

/// Whether that holds.
fn are_hardened(alloc: Global) -> Result<bool, NoMemory> {
    let mut shelf = MemoryShelf::new(alloc, List::new(alloc));
    are_protected(alloc, &mut shelf)
}

#[test]
fn two_modules_are_hardened_together_and_one_alone(rt: HostRuntime) -> Result<(), Fail> {
    let image = [
        0x42, 0x4C, 0x49, 0x4D, 0x01, 0x00, 0x01, 0x01, 0x01, 0x00, 0x00, 0x00, 0x00,
    ];
    assert!(rt; are_hardened(rt.alloc())?);
    assert!(rt; has_image(rt.alloc(), &VAULT, &image)?);
    Ok(())
}

/// Whether a call with two modules on an empty shelf can't read one, ends with that line and keeps nothing.
fn keeps_nothing(alloc: Global, shelf: &mut MemoryShelf, text: &str) -> Result<bool, NoMemory> {
    put_module(alloc, shelf, "a.wasm", &CHAIN)?;
    put_module(alloc, shelf, "b.wasm", &VAULT)?;
    let named = ends(alloc, shelf, "blade harden i c a.wasm b.wasm", 3, text)?;
    Ok(named && !stands(shelf, "i") && !stands(shelf, "c"))
}

/// Whether that holds where the second call of the shelf fails.
fn is_named(alloc: Global, text: &str) -> Result<bool, NoMemory> {
    let mut shelf = shelf_failing(alloc, &[], Some(2))?;
    keeps_nothing(alloc, &mut shelf, text)
}

#[test]
fn a_second_module_that_cannot_be_read_is_named(rt: HostRuntime) -> Result<(), Fail> {
    assert!(rt; is_named(rt.alloc(), "read fault: b.wasm\n")?);
    Ok(())
}
