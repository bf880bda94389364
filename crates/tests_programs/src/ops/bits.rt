//! Counts of bits, and operators bit by bit.
use super::{ABOVE, Case, PAIRS_32, PAIRS_64, count_traps, giving};
use std::test::Fail;

/// Codes, and the numbers that they give at the pairs of i32.
static CASES_32: [Case; 6] = [
    (0x67, &[0x20, 0, 0, 0, 1, 0, 0, 0x1D, 3, 0, 0x1D]),
    (0x68, &[0x20, 0, 0, 0x1F, 0, 0x1F, 0, 0, 3, 0, 0]),
    (0x69, &[0, 0x20, 0x20, 1, 0x1F, 1, 0x1E, 3, 0xD, 2, 2]),
    (
        0x71,
        &[0, 0xFFFF_FFFF, 1, 0x8000_0000, 0, 0, 1, 5, 0x20, 1, 0],
    ),
    (
        0x72,
        &[
            1,
            0xFFFF_FFFF,
            0xFFFF_FFFF,
            0xFFFF_FFFF,
            0xFFFF_FFFF,
            0x8000_001F,
            0xFFFF_FFFB,
            0xFFFF_FFFF,
            0x1234_5678,
            0x8000_0021,
            5,
        ],
    ),
    (
        0x73,
        &[
            1,
            0,
            0xFFFF_FFFE,
            0x7FFF_FFFF,
            0xFFFF_FFFF,
            0x8000_001F,
            0xFFFF_FFFA,
            0xFFFF_FFFA,
            0x1234_5658,
            0x8000_0020,
            5,
        ],
    ),
];

/// Codes, and the numbers that they give at the pairs of i64.
static CASES_64: [Case; 6] = [
    (0x79, &[0x40, 0, 0, 0, 1, 0, 0, 0x3D, 3, 0, 0x3D]),
    (0x7A, &[0x40, 0, 0, 0x3F, 0, 0x3F, 0, 0, 4, 0, 0]),
    (0x7B, &[0, 0x40, 0x40, 1, 0x3F, 1, 0x3E, 3, 0x20, 2, 2]),
    (
        0x83,
        &[
            0,
            0xFFFF_FFFF_FFFF_FFFF,
            1,
            0x8000_0000_0000_0000,
            0,
            0,
            1,
            5,
            0x40,
            1,
            0,
        ],
    ),
    (
        0x84,
        &[
            1,
            0xFFFF_FFFF_FFFF_FFFF,
            0xFFFF_FFFF_FFFF_FFFF,
            0xFFFF_FFFF_FFFF_FFFF,
            0xFFFF_FFFF_FFFF_FFFF,
            0x8000_0000_0000_003F,
            0xFFFF_FFFF_FFFF_FFFB,
            0xFFFF_FFFF_FFFF_FFFF,
            0x1234_5678_9ABC_DEF0,
            0x8000_0000_0000_0041,
            5,
        ],
    ),
    (
        0x85,
        &[
            1,
            0,
            0xFFFF_FFFF_FFFF_FFFE,
            0x7FFF_FFFF_FFFF_FFFF,
            0xFFFF_FFFF_FFFF_FFFF,
            0x8000_0000_0000_003F,
            0xFFFF_FFFF_FFFF_FFFA,
            0xFFFF_FFFF_FFFF_FFFA,
            0x1234_5678_9ABC_DEB0,
            0x8000_0000_0000_0040,
            5,
        ],
    ),
];

#[test]
fn bits_of_i32(rt: HostRuntime) -> Result<(), Fail> {
    assert_eq!(rt; giving(&CASES_32, &PAIRS_32, 0), 6);
    assert_eq!(rt; giving(&CASES_32, &PAIRS_32, ABOVE), 6);
    assert_eq!(rt; count_traps(&CASES_32, &PAIRS_32), 0);
    Ok(())
}

#[test]
fn bits_of_i64(rt: HostRuntime) -> Result<(), Fail> {
    assert_eq!(rt; giving(&CASES_64, &PAIRS_64, 0), 6);
    assert_eq!(rt; count_traps(&CASES_64, &PAIRS_64), 0);
    Ok(())
}
