//! Sums, differences, products, quotients and remainders, with their traps.
use super::{ABOVE, Case, PAIRS_32, PAIRS_64, count_traps, giving, trap_at};
use bl_base::Trap;
use std::test::Fail;

/// Codes, and the numbers that they give at the pairs of i32.
static CASES_32: [Case; 7] = [
    (
        0x6A,
        &[
            1,
            0xFFFF_FFFE,
            0,
            0x7FFF_FFFF,
            0xFFFF_FFFF,
            0x8000_001F,
            0xFFFF_FFFC,
            4,
            0x1234_5698,
            0x8000_0022,
            5,
        ],
    ),
    (
        0x6B,
        &[
            0xFFFF_FFFF,
            0,
            0xFFFF_FFFE,
            0x8000_0001,
            0xFFFF_FFFF,
            0x7FFF_FFE1,
            0xFFFF_FFF6,
            0xA,
            0x1234_5658,
            0x7FFF_FFE0,
            5,
        ],
    ),
    (
        0x6C,
        &[
            0,
            1,
            0xFFFF_FFFF,
            0x8000_0000,
            0x8000_0000,
            0x8000_0000,
            0xFFFF_FFEB,
            0xFFFF_FFEB,
            0x468A_CF00,
            0x8000_0021,
            0,
        ],
    ),
    (
        0x6D,
        &[
            0,
            1,
            0xFFFF_FFFF,
            0x8000_0000,
            0,
            0xFBDE_F7BE,
            0xFFFF_FFFE,
            0xFFFF_FFFE,
            0x91_A2B3,
            0xFC1F_07C2,
            0,
        ],
    ),
    (
        0x6E,
        &[
            0,
            1,
            0xFFFF_FFFF,
            0,
            0,
            0x421_0842,
            0x5555_5553,
            0,
            0x91_A2B3,
            0x3E0_F83E,
            0,
        ],
    ),
    (
        0x6F,
        &[
            0,
            0,
            0,
            0,
            0x7FFF_FFFF,
            0xFFFF_FFFE,
            0xFFFF_FFFF,
            1,
            0x18,
            0xFFFF_FFFF,
            0,
        ],
    ),
    (
        0x70,
        &[0, 0, 0, 0x8000_0000, 0x7FFF_FFFF, 2, 0, 7, 0x18, 3, 0],
    ),
];

/// Codes, and the numbers that they give at the pairs of i64.
static CASES_64: [Case; 7] = [
    (
        0x7C,
        &[
            1,
            0xFFFF_FFFF_FFFF_FFFE,
            0,
            0x7FFF_FFFF_FFFF_FFFF,
            0xFFFF_FFFF_FFFF_FFFF,
            0x8000_0000_0000_003F,
            0xFFFF_FFFF_FFFF_FFFC,
            4,
            0x1234_5678_9ABC_DF30,
            0x8000_0000_0000_0042,
            5,
        ],
    ),
    (
        0x7D,
        &[
            0xFFFF_FFFF_FFFF_FFFF,
            0,
            0xFFFF_FFFF_FFFF_FFFE,
            0x8000_0000_0000_0001,
            0xFFFF_FFFF_FFFF_FFFF,
            0x7FFF_FFFF_FFFF_FFC1,
            0xFFFF_FFFF_FFFF_FFF6,
            0xA,
            0x1234_5678_9ABC_DEB0,
            0x7FFF_FFFF_FFFF_FFC0,
            5,
        ],
    ),
    (
        0x7E,
        &[
            0,
            1,
            0xFFFF_FFFF_FFFF_FFFF,
            0x8000_0000_0000_0000,
            0x8000_0000_0000_0000,
            0x8000_0000_0000_0000,
            0xFFFF_FFFF_FFFF_FFEB,
            0xFFFF_FFFF_FFFF_FFEB,
            0x8D15_9E26_AF37_BC00,
            0x8000_0000_0000_0041,
            0,
        ],
    ),
    (
        0x7F,
        &[
            0,
            1,
            0xFFFF_FFFF_FFFF_FFFF,
            0x8000_0000_0000_0000,
            0,
            0xFDF7_DF7D_F7DF_7DF8,
            0xFFFF_FFFF_FFFF_FFFE,
            0xFFFF_FFFF_FFFF_FFFE,
            0x48_D159_E26A_F37B,
            0xFE07_E07E_07E0_7E08,
            0,
        ],
    ),
    (
        0x80,
        &[
            0,
            1,
            0xFFFF_FFFF_FFFF_FFFF,
            0,
            0,
            0x208_2082_0820_8208,
            0x5555_5555_5555_5553,
            0,
            0x48_D159_E26A_F37B,
            0x1F8_1F81_F81F_81F8,
            0,
        ],
    ),
    (
        0x81,
        &[
            0,
            0,
            0,
            0,
            0x7FFF_FFFF_FFFF_FFFF,
            0xFFFF_FFFF_FFFF_FFF8,
            0xFFFF_FFFF_FFFF_FFFF,
            1,
            0x30,
            0xFFFF_FFFF_FFFF_FFF9,
            0,
        ],
    ),
    (
        0x82,
        &[
            0,
            0,
            0,
            0x8000_0000_0000_0000,
            0x7FFF_FFFF_FFFF_FFFF,
            8,
            0,
            7,
            0x30,
            9,
            0,
        ],
    ),
];

/// The codes and operands, of those above, at which the module trapped.
static TRAPS: [(u8, u64, u64, Trap); 10] = [
    (0x6D, 0x8000_0000, 0xFFFF_FFFF, Trap::Overflow),
    (0x6D, 5, 0, Trap::DivideByZero),
    (0x6E, 5, 0, Trap::DivideByZero),
    (0x6F, 5, 0, Trap::DivideByZero),
    (0x70, 5, 0, Trap::DivideByZero),
    (
        0x7F,
        0x8000_0000_0000_0000,
        0xFFFF_FFFF_FFFF_FFFF,
        Trap::Overflow,
    ),
    (0x7F, 5, 0, Trap::DivideByZero),
    (0x80, 5, 0, Trap::DivideByZero),
    (0x81, 5, 0, Trap::DivideByZero),
    (0x82, 5, 0, Trap::DivideByZero),
];

#[test]
fn arithmetic_of_i32(rt: HostRuntime) -> Result<(), Fail> {
    assert_eq!(rt; giving(&CASES_32, &PAIRS_32, 0), 7);
    assert_eq!(rt; giving(&CASES_32, &PAIRS_32, ABOVE), 7);
    Ok(())
}

#[test]
fn arithmetic_of_i64(rt: HostRuntime) -> Result<(), Fail> {
    assert_eq!(rt; giving(&CASES_64, &PAIRS_64, 0), 7);
    Ok(())
}

/// How many operators trap so before the first that doesn't.
fn trapping() -> u32 {
    let mut passed = 0u32;
    for (code, a, b, trap) in &TRAPS {
        if trap_at(*code, *a, *b) != Some(*trap) {
            break;
        }
        passed = passed.wrapping_add(1);
    }
    passed
}

#[test]
fn operators_trap_where_node_s_do(rt: HostRuntime) -> Result<(), Fail> {
    assert_eq!(rt; trapping(), 10);
    let all = count_traps(&CASES_32, &PAIRS_32).wrapping_add(count_traps(&CASES_64, &PAIRS_64));
    assert_eq!(rt; all, 10);
    Ok(())
}
