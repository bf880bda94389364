//! Runs near the greatest inputs, and with long outputs, where want of memory could hide. What is printed follows by hand from the formats: a line a row
//! that is not zero, and a line a directive.
use bl_base::NoMemory;
use bl_outside::{MemoryShelf, MemorySink};
use std::alloc::Global;
use std::test::Fail;
use tests_calls::{LOWER, ends_on, ends_to, shelf_of, shelf_with, status_of};
use tests_samples::ADD_ONE;

/// The module that adds 1 with a custom section behind it, 4,194,304 bytes in all.
fn longest_module(alloc: Global) -> Result<Vec<u8>, NoMemory> {
    let mut bytes = ADD_ONE.to_vec(alloc)?;
    bytes.extend_from_slice(&[0x00, 0xD3, 0xFF, 0xFF, 0x01, 0x01, 0x78])?;
    bytes.resize(4_194_304, 0)?;
    Ok(bytes)
}

/// A start file of the argument 41 behind zeros, 16,777,216 bytes in all.
fn longest_start(alloc: Global) -> Result<Vec<u8>, NoMemory> {
    let mut bytes = b"arg ".to_vec(alloc)?;
    bytes.resize(16_777_214, 0x30)?;
    bytes.extend_from_slice(b"41")?;
    Ok(bytes)
}

/// Whether the longest module runs so from the longest start.
fn runs(alloc: Global, line: &str, text: &str) -> Result<bool, NoMemory> {
    let module = longest_module(alloc)?;
    let start = longest_start(alloc)?;
    let files: [(&str, &[u8]); 2] = [("m.wasm", &module), ("start", &start)];
    ends_on(alloc, &files, None, line, 0, text)
}

#[test]
fn the_longest_module_and_start_run_with_the_most_steps(rt: HostRuntime) -> Result<(), Fail> {
    let line = "blade interp m/inc start m.wasm --steps 4294967295";
    assert!(rt; runs(rt.alloc(), line, "returned i32 42\n")?);
    Ok(())
}

/// Whether a call ends well and prints a text of any length.
fn prints(
    alloc: Global,
    shelf: &mut MemoryShelf,
    line: &str,
    text: &str,
) -> Result<bool, NoMemory> {
    let mut out = MemorySink::new(alloc, None);
    out.reserve(16_777_216)?;
    ends_to(alloc, shelf, line, &mut out, 0, text)
}

/// A memory of eight pages, and a function that stores 1 at each sixteenth byte of it: a loop over 0, 16, .. up to 524,288.
const FILLS: [u8; 55] = [
    0x01, 0x04, 0x01, 0x60, 0x00, 0x00, 0x03, 0x02, 0x01, 0x00, 0x05, 0x04, 0x01, 0x01, 0x08, 0x08,
    0x07, 0x05, 0x01, 0x01, 0x66, 0x00, 0x00, 0x0A, 0x1E, 0x01, 0x1C, 0x01, 0x01, 0x7F, 0x03, 0x40,
    0x20, 0x00, 0x41, 0x01, 0x3A, 0x00, 0x00, 0x20, 0x00, 0x41, 0x10, 0x6A, 0x22, 0x00, 0x41, 0x80,
    0x80, 0x20, 0x49, 0x0D, 0x00, 0x0B, 0x0B,
];

/// What is printed of that: 32,768 rows of a 1 and fifteen zeros, more than a million bytes.
fn filled(alloc: Global) -> Result<String, NoMemory> {
    let mut text = String::from_str(alloc, "returned\nmemory 0 pages 8\n")?;
    for row in 0..32_768u32 {
        let address = row * 16;
        let line = format!(in alloc; "row 0 {address} 01000000000000000000000000000000\n")?;
        text.push_str(line.as_str())?;
    }
    Ok(text)
}

/// Whether a call prints that, where the module is lowered before.
fn prints_filled(alloc: Global, line: &str) -> Result<bool, NoMemory> {
    let mut shelf = shelf_with(alloc, &[("m.wasm", &FILLS)], "")?;
    let lowered = status_of(alloc, &mut shelf, LOWER)?;
    let text = filled(alloc)?;
    Ok(lowered == 0 && prints(alloc, &mut shelf, line, text.as_str())?)
}

#[test]
fn a_million_bytes_of_rows_are_printed(rt: HostRuntime) -> Result<(), Fail> {
    assert!(rt; prints_filled(rt.alloc(), "blade interp m/f start m.wasm --steps 4000000")?);
    assert!(rt; prints_filled(rt.alloc(), "blade run i.img m/f start --steps 4000000")?);
    Ok(())
}

/// The image of a function whose first command goes to itself.
const STAYS: [u8; 21] = [
    0x42, 0x4C, 0x49, 0x4D, 0x01, 0x00, 0x00, 0x01, 0x00, 0x00, 0x00, 0x02, 0x01, 0x03, 0x6D, 0x2F,
    0x66, 0x00, 0x04, 0x07, 0x08,
];

/// A text so many times.
fn repeated(alloc: Global, text: &str, times: u32) -> Result<String, NoMemory> {
    let mut all = String::new(alloc);
    for _time in 0..times {
        all.push_str(text)?;
    }
    Ok(all)
}

/// Whether the most directives that a trace may have are told, each of which shows nothing.
fn tells_all(alloc: Global) -> Result<bool, NoMemory> {
    let trace = repeated(alloc, "fetch\nretire\n", 500_000)?;
    let mut text = repeated(alloc, "none\n", 1_000_000)?;
    text.push_str("pending\n")?;
    let files: [(&str, &[u8]); 3] = [("i", &STAYS), ("t", trace.as_bytes()), ("s", b"")];
    let mut shelf = shelf_of(alloc, &files)?;
    prints(alloc, &mut shelf, "blade spec i m/f t s", text.as_str())
}

#[test]
fn a_million_directives_are_told(rt: HostRuntime) -> Result<(), Fail> {
    assert!(rt; tells_all(rt.alloc())?);
    Ok(())
}
