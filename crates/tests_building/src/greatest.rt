//! A program whose report and certificate have more than a million bytes each, where want of memory could hide. Its function loads a word and the word
//! at that address, and drops it, 25,000 times. By hand that is eight commands and five sites: a move, a place, its test and a load twice, and a jump to
//! what comes next for the drop. The first load of a pair has to be protected, since its value is the address of the second; so there is a path for each.
use bl_base::NoMemory;
use bl_outside::{MemoryShelf, MemorySink};
use std::alloc::Global;
use std::test::Fail;
use tests_calls::{bytes_of, ends, module_of, say, shelf_of};

/// What stands before those loads: the type [i32] -> [], the function, a memory of a page, the export `f`, and the head of the code.
const BEFORE: [u8; 32] = [
    0x01, 0x05, 0x01, 0x60, 0x01, 0x7F, 0x00, 0x03, 0x02, 0x01, 0x00, 0x05, 0x03, 0x01, 0x00, 0x01,
    0x07, 0x05, 0x01, 0x01, 0x66, 0x00, 0x00, 0x0A, 0xEE, 0xDD, 0x0D, 0x01, 0xEA, 0xDD, 0x0D, 0x00,
];

/// A pair of loads of the parameter, whose value is dropped.
const PAIR: [u8; 9] = [0x20, 0x00, 0x28, 0x02, 0x00, 0x28, 0x02, 0x00, 0x1A];

/// The module.
fn many_loads(alloc: Global) -> Result<Vec<u8>, NoMemory> {
    let mut bytes = module_of(alloc, &BEFORE)?;
    for _pair in 0..25_000 {
        bytes.extend_from_slice(&PAIR)?;
    }
    bytes.push(0x0B)?;
    Ok(bytes)
}

/// How often a byte stands in others.
fn count_of(bytes: &[u8], wanted: u8) -> u32 {
    let mut count = 0u32;
    for byte in bytes {
        if *byte == wanted {
            count = count.wrapping_add(1);
        }
    }
    count
}

/// What the report begins with.
const HEAD: &[u8] =
    b"functions 1\ncommands 200009\nsites 125000\nprotects 25000 weight 25000\nprotect ";

/// Whether a report has that head, a line for each protect, and one on constant time.
fn is_report(text: &[u8]) -> bool {
    text.len() > 1_000_000
        && text.starts_with(HEAD)
        && text.ends_with(b"\nconstant-time yes\n")
        && count_of(text, b'\n') == 25_005
}

/// Whether a certificate has a path for each pair.
fn is_certificate(text: &[u8]) -> bool {
    text.len() > 1_000_000
        && text.starts_with(b"{\"paths\":[{\"amount\":1,\"sink\":")
        && text.ends_with(b"]}],\"weight\":25000}")
        && count_of(text, b'{') == 25_001
}

/// Whether the module is hardened so.
fn is_hardened(alloc: Global, shelf: &mut MemoryShelf) -> Result<bool, NoMemory> {
    let mut out = MemorySink::new(alloc, None);
    out.reserve(16_777_216)?;
    let status = say(alloc, shelf, "blade harden i c m.wasm", &mut out)?;
    Ok(status == 0 && is_report(out.bytes()) && is_certificate(bytes_of(shelf, "c")))
}

/// Whether it is, and what is kept is verified.
fn hardens(alloc: Global) -> Result<bool, NoMemory> {
    let module = many_loads(alloc)?;
    let mut shelf = shelf_of(alloc, &[("m.wasm", &module)])?;
    let hardened = is_hardened(alloc, &mut shelf)?;
    let lines = "certificate yes\nstable yes\nconstant-time yes\nsafe yes\n";
    Ok(hardened && ends(alloc, &mut shelf, "blade verify i c", 0, lines)?)
}

#[test]
fn a_report_and_a_certificate_have_a_million_bytes(rt: HostRuntime) -> Result<(), Fail> {
    assert!(rt; hardens(rt.alloc())?);
    Ok(())
}
