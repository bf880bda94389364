//! Integers in LEB128, and numbers that are none. The rows were worked by hand from the standard's form (WebAssembly 1.0, section 5.2.2): seven bits a
//! byte, the lowest first, and 80 in each byte but the last.
use bl_base::NoMemory;
use bl_leb::{push_i32, push_u32, push_u64, read_i32, read_i64, read_s33, read_short, read_u32};
use std::alloc::Global;
use std::test::Fail;

/// Bytes, and the number of 32 bits that they begin with, if any, with the place behind it.
static UNSIGNED: [(&[u8], Option<(u32, usize)>); 8] = [
    (&[0x00], Some((0, 1))),
    (&[0xE5, 0x8E, 0x26, 0x01], Some((624_485, 3))),
    (&[0x83, 0x00], Some((3, 2))),
    (&[0xFF, 0xFF, 0xFF, 0xFF, 0x0F], Some((4_294_967_295, 5))),
    (&[0x80, 0x80, 0x80, 0x80, 0x10], None),
    (&[0x80, 0x80, 0x80, 0x80, 0x80, 0x00], None),
    (&[0xE5, 0x8E], None),
    (&[], None),
];

/// How many are read so before the first that isn't.
fn unsigned() -> u32 {
    let mut passed = 0u32;
    for (bytes, number) in &UNSIGNED {
        if read_u32(*bytes, 0) != *number {
            break;
        }
        passed = passed.wrapping_add(1);
    }
    passed
}

#[test]
fn unsigned_numbers_are_read(rt: HostRuntime) -> Result<(), Fail> {
    assert_eq!(rt; unsigned(), 8);
    assert!(rt; read_u32(&[0x80, 0x7F], 1) == Some((127, 2)));
    Ok(())
}

/// The same with a sign.
static SIGNED: [(&[u8], Option<(i32, usize)>); 7] = [
    (&[0x7F], Some((-1, 1))),
    (&[0xC0, 0xBB, 0x78], Some((-123_456, 3))),
    (&[0xFE, 0x7F], Some((-2, 2))),
    (&[0xFF, 0xFF, 0xFF, 0xFF, 0x07], Some((2_147_483_647, 5))),
    (&[0x80, 0x80, 0x80, 0x80, 0x78], Some((-2_147_483_648, 5))),
    (&[0x80, 0x80, 0x80, 0x80, 0x08], None),
    (&[0xC0, 0xBB], None),
];

/// How many are read so before the first that isn't.
fn signed() -> u32 {
    let mut passed = 0u32;
    for (bytes, number) in &SIGNED {
        if read_i32(*bytes, 0) != *number {
            break;
        }
        passed = passed.wrapping_add(1);
    }
    passed
}

/// Whether the least number of 64 bits is read.
fn is_least_read() -> bool {
    let least = [0x80, 0x80, 0x80, 0x80, 0x80, 0x80, 0x80, 0x80, 0x80, 0x7F];
    read_i64(&least, 0) == Some((i64::MIN, 10))
}

/// Numbers of 33 bits.
static OF_33_BITS: [(&[u8], Option<(i64, usize)>); 3] = [
    (&[0xFF, 0xFF, 0xFF, 0xFF, 0x0F], Some((4_294_967_295, 5))),
    (&[0x81, 0x80, 0x80, 0x80, 0x00], Some((1, 5))),
    (&[0xC0, 0x7F], Some((-64, 2))),
];

/// How many are read so before the first that isn't.
fn of_33_bits() -> u32 {
    let mut passed = 0u32;
    for (bytes, number) in &OF_33_BITS {
        if read_s33(*bytes, 0) != *number {
            break;
        }
        passed = passed.wrapping_add(1);
    }
    passed
}

#[test]
fn signed_numbers_are_read(rt: HostRuntime) -> Result<(), Fail> {
    assert_eq!(rt; signed(), 7);
    assert!(rt; is_least_read());
    assert_eq!(rt; of_33_bits(), 3);
    Ok(())
}

/// Three numbers in their shortest spelling.
fn written(alloc: Global) -> Result<Vec<u8>, NoMemory> {
    let mut bytes = Vec::new(alloc);
    push_u32(&mut bytes, 624_485)?;
    push_i32(&mut bytes, -123_456)?;
    push_u64(&mut bytes, 128)?;
    Ok(bytes)
}

/// Whether those are their bytes.
fn are_shortest(alloc: Global) -> Result<bool, NoMemory> {
    let bytes = written(alloc)?;
    Ok(bytes.as_slice() == [0xE5, 0x8E, 0x26, 0xC0, 0xBB, 0x78, 0x80, 0x01].as_slice())
}

/// Whether a number is read in its shortest spelling alone.
fn is_short() -> bool {
    read_short(&[0x80, 0x01], 0) == Some((128, 2))
        && read_short(&[0x00], 0) == Some((0, 1))
        && read_short(&[0x83, 0x00], 0).is_none()
        && read_short(&[0x80, 0x00], 0).is_none()
}

#[test]
fn the_shortest_spelling_is_written_and_read(rt: HostRuntime) -> Result<(), Fail> {
    assert!(rt; are_shortest(rt.alloc())?);
    assert!(rt; is_short());
    Ok(())
}
