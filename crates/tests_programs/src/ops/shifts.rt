//! Shifts and rotations.
use super::{ABOVE, Case, PAIRS_32, PAIRS_64, count_traps, giving};
use std::test::Fail;

/// Codes, and the numbers that they give at the pairs of i32.
static CASES_32: [Case; 5] = [
    (
        0x74,
        &[
            0,
            0x8000_0000,
            0xFFFF_FFFE,
            0,
            0x7FFF_FFFF,
            0,
            0xFFFF_FFC8,
            0xE000_0000,
            0x1234_5678,
            2,
            5,
        ],
    ),
    (
        0x75,
        &[
            0,
            0xFFFF_FFFF,
            0xFFFF_FFFF,
            0xFFFF_FFFF,
            0x7FFF_FFFF,
            0xFFFF_FFFF,
            0xFFFF_FFFF,
            0,
            0x1234_5678,
            0xC000_0000,
            5,
        ],
    ),
    (
        0x76,
        &[
            0,
            1,
            0x7FFF_FFFF,
            1,
            0x7FFF_FFFF,
            1,
            0x1FFF_FFFF,
            0,
            0x1234_5678,
            0x4000_0000,
            5,
        ],
    ),
    (
        0x77,
        &[
            0,
            0xFFFF_FFFF,
            0xFFFF_FFFF,
            0x4000_0000,
            0x7FFF_FFFF,
            0x4000_0000,
            0xFFFF_FFCF,
            0xE000_0000,
            0x1234_5678,
            3,
            5,
        ],
    ),
    (
        0x78,
        &[
            0,
            0xFFFF_FFFF,
            0xFFFF_FFFF,
            1,
            0x7FFF_FFFF,
            1,
            0x3FFF_FFFF,
            0x38,
            0x1234_5678,
            0xC000_0000,
            5,
        ],
    ),
];

/// Codes, and the numbers that they give at the pairs of i64.
static CASES_64: [Case; 5] = [
    (
        0x86,
        &[
            0,
            0x8000_0000_0000_0000,
            0xFFFF_FFFF_FFFF_FFFE,
            0,
            0x7FFF_FFFF_FFFF_FFFF,
            0,
            0xFFFF_FFFF_FFFF_FFC8,
            0xE000_0000_0000_0000,
            0x1234_5678_9ABC_DEF0,
            2,
            5,
        ],
    ),
    (
        0x87,
        &[
            0,
            0xFFFF_FFFF_FFFF_FFFF,
            0xFFFF_FFFF_FFFF_FFFF,
            0xFFFF_FFFF_FFFF_FFFF,
            0x7FFF_FFFF_FFFF_FFFF,
            0xFFFF_FFFF_FFFF_FFFF,
            0xFFFF_FFFF_FFFF_FFFF,
            0,
            0x1234_5678_9ABC_DEF0,
            0xC000_0000_0000_0000,
            5,
        ],
    ),
    (
        0x88,
        &[
            0,
            1,
            0x7FFF_FFFF_FFFF_FFFF,
            1,
            0x7FFF_FFFF_FFFF_FFFF,
            1,
            0x1FFF_FFFF_FFFF_FFFF,
            0,
            0x1234_5678_9ABC_DEF0,
            0x4000_0000_0000_0000,
            5,
        ],
    ),
    (
        0x89,
        &[
            0,
            0xFFFF_FFFF_FFFF_FFFF,
            0xFFFF_FFFF_FFFF_FFFF,
            0x4000_0000_0000_0000,
            0x7FFF_FFFF_FFFF_FFFF,
            0x4000_0000_0000_0000,
            0xFFFF_FFFF_FFFF_FFCF,
            0xE000_0000_0000_0000,
            0x1234_5678_9ABC_DEF0,
            3,
            5,
        ],
    ),
    (
        0x8A,
        &[
            0,
            0xFFFF_FFFF_FFFF_FFFF,
            0xFFFF_FFFF_FFFF_FFFF,
            1,
            0x7FFF_FFFF_FFFF_FFFF,
            1,
            0x3FFF_FFFF_FFFF_FFFF,
            0x38,
            0x1234_5678_9ABC_DEF0,
            0xC000_0000_0000_0000,
            5,
        ],
    ),
];

#[test]
fn shifts_of_i32(rt: HostRuntime) -> Result<(), Fail> {
    assert_eq!(rt; giving(&CASES_32, &PAIRS_32, 0), 5);
    assert_eq!(rt; giving(&CASES_32, &PAIRS_32, ABOVE), 5);
    assert_eq!(rt; count_traps(&CASES_32, &PAIRS_32), 0);
    Ok(())
}

#[test]
fn shifts_of_i64(rt: HostRuntime) -> Result<(), Fail> {
    assert_eq!(rt; giving(&CASES_64, &PAIRS_64, 0), 5);
    assert_eq!(rt; count_traps(&CASES_64, &PAIRS_64), 0);
    Ok(())
}
