//! What a client and a library come to together, where that is too much. The images are spelled by hand, by the grammar of images; the sums are those of
//! what they have.
use bl_base::NoMemory;
use std::alloc::Global;
use std::test::Fail;
use tests_calls::{ends, shelf_of};

/// The image of 40,001 functions of one Ret each, up to the functions.
const MANY: [u8; 10] = [0x42, 0x4C, 0x49, 0x4D, 0x01, 0x00, 0x00, 0xC1, 0xB8, 0x02];
/// The image of a function of 600,000 Rets, up to these.
const LONG: [u8; 15] = [
    0x42, 0x4C, 0x49, 0x4D, 0x01, 0x00, 0x00, 0x01, 0x00, 0x00, 0x00, 0xC0, 0xCF, 0x24, 0x00,
];
/// The image of a function whose one site weighs 2^62.
const HEAVY: [u8; 32] = [
    0x42, 0x4C, 0x49, 0x4D, 0x02, 0x00, 0x00, 0x01, 0x00, 0x00, 0x01, 0x02, 0x00, 0x00, 0x01, 0x07,
    0x80, 0x80, 0x80, 0x80, 0x80, 0x80, 0x80, 0x80, 0x40, 0x00, 0x00, 0x00, 0x00, 0x01, 0x00, 0x08,
];

/// The image of many functions.
fn many(alloc: Global) -> Result<Vec<u8>, NoMemory> {
    let mut bytes = Vec::new(alloc);
    bytes.extend_from_slice(&MANY)?;
    for _ in 0..40_001 {
        bytes.extend_from_slice(&[0x00, 0x00, 0x00, 0x01])?;
    }
    bytes.push(0x00)?;
    bytes.resize(200_016, 0x08)?;
    Ok(bytes)
}

/// The image of a long function.
fn long(alloc: Global) -> Result<Vec<u8>, NoMemory> {
    let mut bytes = Vec::new(alloc);
    bytes.extend_from_slice(&LONG)?;
    bytes.resize(600_015, 0x08)?;
    Ok(bytes)
}

/// Whether joining an image to itself, under an interface without functions, is refused so.
fn is_too_much(alloc: Global, image: &[u8], text: &str) -> Result<bool, NoMemory> {
    let mut shelf = shelf_of(alloc, &[("f", b""), ("p", image)])?;
    let ended = ends(alloc, &mut shelf, "blade join i f p p", 8, text)?;
    Ok(ended && shelf.entry("i").is_none())
}

#[test]
fn functions_are_counted_together(rt: HostRuntime) -> Result<(), Fail> {
    let image = many(rt.alloc())?;
    assert!(rt; is_too_much(rt.alloc(), image.as_slice(), "limit: functions 80002\n")?);
    Ok(())
}

#[test]
fn commands_are_counted_together(rt: HostRuntime) -> Result<(), Fail> {
    let image = long(rt.alloc())?;
    assert!(rt; is_too_much(rt.alloc(), image.as_slice(), "limit: commands 1200007\n")?);
    Ok(())
}

#[test]
fn weights_are_counted_together(rt: HostRuntime) -> Result<(), Fail> {
    let told = is_too_much(rt.alloc(), &HEAVY, "limit: weight 9223372036854775808\n")?;
    assert!(rt; told);
    Ok(())
}
