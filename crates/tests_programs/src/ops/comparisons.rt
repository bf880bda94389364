//! Tests and comparisons.
use super::{ABOVE, Case, PAIRS_32, PAIRS_64, count_traps, giving};
use std::test::Fail;

/// Codes, and the numbers that they give at the pairs of i32.
static CASES_32: [Case; 11] = [
    (0x45, &[1, 0, 0, 0, 0, 0, 0, 0, 0, 0, 0]),
    (0x46, &[0, 1, 0, 0, 0, 0, 0, 0, 0, 0, 0]),
    (0x47, &[1, 0, 1, 1, 1, 1, 1, 1, 1, 1, 1]),
    (0x48, &[1, 0, 1, 1, 0, 1, 1, 0, 0, 1, 0]),
    (0x49, &[1, 0, 0, 1, 1, 0, 0, 1, 0, 0, 0]),
    (0x4A, &[0, 0, 0, 0, 1, 0, 0, 1, 1, 0, 1]),
    (0x4B, &[0, 0, 1, 0, 0, 1, 1, 0, 1, 1, 1]),
    (0x4C, &[1, 1, 1, 1, 0, 1, 1, 0, 0, 1, 0]),
    (0x4D, &[1, 1, 0, 1, 1, 0, 0, 1, 0, 0, 0]),
    (0x4E, &[0, 1, 0, 0, 1, 0, 0, 1, 1, 0, 1]),
    (0x4F, &[0, 1, 1, 0, 0, 1, 1, 0, 1, 1, 1]),
];

/// Codes, and the numbers that they give at the pairs of i64.
static CASES_64: [Case; 11] = [
    (0x50, &[1, 0, 0, 0, 0, 0, 0, 0, 0, 0, 0]),
    (0x51, &[0, 1, 0, 0, 0, 0, 0, 0, 0, 0, 0]),
    (0x52, &[1, 0, 1, 1, 1, 1, 1, 1, 1, 1, 1]),
    (0x53, &[1, 0, 1, 1, 0, 1, 1, 0, 0, 1, 0]),
    (0x54, &[1, 0, 0, 1, 1, 0, 0, 1, 0, 0, 0]),
    (0x55, &[0, 0, 0, 0, 1, 0, 0, 1, 1, 0, 1]),
    (0x56, &[0, 0, 1, 0, 0, 1, 1, 0, 1, 1, 1]),
    (0x57, &[1, 1, 1, 1, 0, 1, 1, 0, 0, 1, 0]),
    (0x58, &[1, 1, 0, 1, 1, 0, 0, 1, 0, 0, 0]),
    (0x59, &[0, 1, 0, 0, 1, 0, 0, 1, 1, 0, 1]),
    (0x5A, &[0, 1, 1, 0, 0, 1, 1, 0, 1, 1, 1]),
];

#[test]
fn comparisons_of_i32(rt: HostRuntime) -> Result<(), Fail> {
    assert_eq!(rt; giving(&CASES_32, &PAIRS_32, 0), 11);
    assert_eq!(rt; giving(&CASES_32, &PAIRS_32, ABOVE), 11);
    assert_eq!(rt; count_traps(&CASES_32, &PAIRS_32), 0);
    Ok(())
}

#[test]
fn comparisons_of_i64(rt: HostRuntime) -> Result<(), Fail> {
    assert_eq!(rt; giving(&CASES_64, &PAIRS_64, 0), 11);
    assert_eq!(rt; count_traps(&CASES_64, &PAIRS_64), 0);
    Ok(())
}
