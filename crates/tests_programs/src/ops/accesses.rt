//! Loads and stores of eight bytes.
use bl_ops::{AccessKind, extend, narrow};
use std::test::Fail;

/// Eight bytes, little endian.
static BYTES: [u64; 3] = [
    0x807F_80FF_8001_FE80,
    0x1234_5678_7FFF_7F7F,
    0xFFFF_FFFF_FFFF_FFFF,
];

/// Codes of accesses, and what they load where these bytes stand, or what stands after storing these values.
static ACCESSES: [(u8, &[u64]); 19] = [
    (0x28, &[0x8001_FE80, 0x7FFF_7F7F, 0xFFFF_FFFF]),
    (
        0x29,
        &[
            0x807F_80FF_8001_FE80,
            0x1234_5678_7FFF_7F7F,
            0xFFFF_FFFF_FFFF_FFFF,
        ],
    ),
    (0x2C, &[0xFFFF_FF80, 0x7F, 0xFFFF_FFFF]),
    (0x2D, &[0x80, 0x7F, 0xFF]),
    (0x2E, &[0xFFFF_FE80, 0x7F7F, 0xFFFF_FFFF]),
    (0x2F, &[0xFE80, 0x7F7F, 0xFFFF]),
    (0x30, &[0xFFFF_FFFF_FFFF_FF80, 0x7F, 0xFFFF_FFFF_FFFF_FFFF]),
    (0x31, &[0x80, 0x7F, 0xFF]),
    (
        0x32,
        &[0xFFFF_FFFF_FFFF_FE80, 0x7F7F, 0xFFFF_FFFF_FFFF_FFFF],
    ),
    (0x33, &[0xFE80, 0x7F7F, 0xFFFF]),
    (
        0x34,
        &[0xFFFF_FFFF_8001_FE80, 0x7FFF_7F7F, 0xFFFF_FFFF_FFFF_FFFF],
    ),
    (0x35, &[0x8001_FE80, 0x7FFF_7F7F, 0xFFFF_FFFF]),
    (0x36, &[0x8001_FE80, 0x7FFF_7F7F, 0xFFFF_FFFF]),
    (
        0x37,
        &[
            0x807F_80FF_8001_FE80,
            0x1234_5678_7FFF_7F7F,
            0xFFFF_FFFF_FFFF_FFFF,
        ],
    ),
    (0x3A, &[0x80, 0x7F, 0xFF]),
    (0x3B, &[0xFE80, 0x7F7F, 0xFFFF]),
    (0x3C, &[0x80, 0x7F, 0xFF]),
    (0x3D, &[0xFE80, 0x7F7F, 0xFFFF]),
    (0x3E, &[0x8001_FE80, 0x7FFF_7F7F, 0xFFFF_FFFF]),
];

/// What a load makes of the bytes, or a store of the value.
fn accessed(code: u8, bytes: u64) -> Option<u64> {
    let kind = AccessKind::by_code(code)?;
    let narrowed = narrow(kind, bytes);
    if kind.is_load() {
        Some(extend(kind, narrowed))
    } else {
        Some(narrowed)
    }
}

/// Whether the access of a code gives those numbers of the bytes.
fn gives(code: u8, wanted: &[u64]) -> bool {
    for (bytes, number) in BYTES.iter().zip(wanted) {
        if accessed(code, *bytes) != Some(*number) {
            return false;
        }
    }
    wanted.len() == 3
}

/// How many accesses give their numbers before the first that doesn't.
fn giving() -> u32 {
    let mut passed = 0u32;
    for (code, wanted) in &ACCESSES {
        if !gives(*code, *wanted) {
            break;
        }
        passed = passed.wrapping_add(1);
    }
    passed
}

#[test]
fn accesses_give_node_s_numbers(rt: HostRuntime) -> Result<(), Fail> {
    assert_eq!(rt; giving(), 19);
    Ok(())
}
