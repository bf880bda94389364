//! Conversions and extensions by sign.
use super::{ABOVE, Case, PAIRS_32, PAIRS_64, count_traps, giving};
use std::test::Fail;

/// Codes, and the numbers that they give at the pairs of i32.
static CASES_32: [Case; 4] = [
    (
        0xAC,
        &[
            0,
            0xFFFF_FFFF_FFFF_FFFF,
            0xFFFF_FFFF_FFFF_FFFF,
            0xFFFF_FFFF_8000_0000,
            0x7FFF_FFFF,
            0xFFFF_FFFF_8000_0000,
            0xFFFF_FFFF_FFFF_FFF9,
            7,
            0x1234_5678,
            0xFFFF_FFFF_8000_0001,
            5,
        ],
    ),
    (
        0xAD,
        &[
            0,
            0xFFFF_FFFF,
            0xFFFF_FFFF,
            0x8000_0000,
            0x7FFF_FFFF,
            0x8000_0000,
            0xFFFF_FFF9,
            7,
            0x1234_5678,
            0x8000_0001,
            5,
        ],
    ),
    (
        0xC0,
        &[
            0,
            0xFFFF_FFFF,
            0xFFFF_FFFF,
            0,
            0xFFFF_FFFF,
            0,
            0xFFFF_FFF9,
            7,
            0x78,
            1,
            5,
        ],
    ),
    (
        0xC1,
        &[
            0,
            0xFFFF_FFFF,
            0xFFFF_FFFF,
            0,
            0xFFFF_FFFF,
            0,
            0xFFFF_FFF9,
            7,
            0x5678,
            1,
            5,
        ],
    ),
];

/// Codes, and the numbers that they give at the pairs of i64.
static CASES_64: [Case; 4] = [
    (
        0xA7,
        &[
            0,
            0xFFFF_FFFF,
            0xFFFF_FFFF,
            0,
            0xFFFF_FFFF,
            0,
            0xFFFF_FFF9,
            7,
            0x9ABC_DEF0,
            1,
            5,
        ],
    ),
    (
        0xC2,
        &[
            0,
            0xFFFF_FFFF_FFFF_FFFF,
            0xFFFF_FFFF_FFFF_FFFF,
            0,
            0xFFFF_FFFF_FFFF_FFFF,
            0,
            0xFFFF_FFFF_FFFF_FFF9,
            7,
            0xFFFF_FFFF_FFFF_FFF0,
            1,
            5,
        ],
    ),
    (
        0xC3,
        &[
            0,
            0xFFFF_FFFF_FFFF_FFFF,
            0xFFFF_FFFF_FFFF_FFFF,
            0,
            0xFFFF_FFFF_FFFF_FFFF,
            0,
            0xFFFF_FFFF_FFFF_FFF9,
            7,
            0xFFFF_FFFF_FFFF_DEF0,
            1,
            5,
        ],
    ),
    (
        0xC4,
        &[
            0,
            0xFFFF_FFFF_FFFF_FFFF,
            0xFFFF_FFFF_FFFF_FFFF,
            0,
            0xFFFF_FFFF_FFFF_FFFF,
            0,
            0xFFFF_FFFF_FFFF_FFF9,
            7,
            0xFFFF_FFFF_9ABC_DEF0,
            1,
            5,
        ],
    ),
];

#[test]
fn conversions_of_i32(rt: HostRuntime) -> Result<(), Fail> {
    assert_eq!(rt; giving(&CASES_32, &PAIRS_32, 0), 4);
    assert_eq!(rt; giving(&CASES_32, &PAIRS_32, ABOVE), 4);
    assert_eq!(rt; count_traps(&CASES_32, &PAIRS_32), 0);
    Ok(())
}

#[test]
fn conversions_of_i64(rt: HostRuntime) -> Result<(), Fail> {
    assert_eq!(rt; giving(&CASES_64, &PAIRS_64, 0), 4);
    assert_eq!(rt; count_traps(&CASES_64, &PAIRS_64), 0);
    Ok(())
}
