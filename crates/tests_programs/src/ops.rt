//! Cases whose wanted numbers were computed outside of this program: a script wrote a WebAssembly module for each code,
//! with one function that applies it to its parameters (or a memory of eight bytes for an access), ran it with node
//! v20.20's WebAssembly on the operands below, and printed these tables. Where the module trapped, the number is that
//! of the operators' own rule: 0 by zero, and the least number for the quotient that overflows.
mod accesses;
mod arithmetic;
mod bits;
mod comparisons;
mod conversions;
mod images;
mod shifts;

use bl_base::Trap;
use bl_ops::{by_code, eval, trap_of};

/// Operands of i32: least, greatest, 0, 1, -1, and shifts by less than the width, by the width and beyond.
static PAIRS_32: [(u64, u64); 11] = [
    (0, 1),
    (0xFFFF_FFFF, 0xFFFF_FFFF),
    (0xFFFF_FFFF, 1),
    (0x8000_0000, 0xFFFF_FFFF),
    (0x7FFF_FFFF, 0x8000_0000),
    (0x8000_0000, 0x1F),
    (0xFFFF_FFF9, 3),
    (7, 0xFFFF_FFFD),
    (0x1234_5678, 0x20),
    (0x8000_0001, 0x21),
    (5, 0),
];

/// Operands of i64.
static PAIRS_64: [(u64, u64); 11] = [
    (0, 1),
    (0xFFFF_FFFF_FFFF_FFFF, 0xFFFF_FFFF_FFFF_FFFF),
    (0xFFFF_FFFF_FFFF_FFFF, 1),
    (0x8000_0000_0000_0000, 0xFFFF_FFFF_FFFF_FFFF),
    (0x7FFF_FFFF_FFFF_FFFF, 0x8000_0000_0000_0000),
    (0x8000_0000_0000_0000, 0x3F),
    (0xFFFF_FFFF_FFFF_FFF9, 3),
    (7, 0xFFFF_FFFF_FFFF_FFFD),
    (0x1234_5678_9ABC_DEF0, 0x40),
    (0x8000_0000_0000_0001, 0x41),
    (5, 0),
];

/// Bits that an operand of type i32 is read without.
const ABOVE: u64 = 0xABCD_EF01_0000_0000;

/// A code, and the numbers that its operator gives at the pairs.
type Case = (u8, &'static [u64]);

/// Whether the operator of a code gives those numbers at these pairs, where each operand has those bits beside its own.
fn gives(code: u8, pairs: &[(u64, u64)], above: u64, wanted: &[u64]) -> bool {
    let Some(op) = by_code(code) else {
        return false;
    };
    for (pair, number) in pairs.iter().zip(wanted) {
        let (a, b) = *pair;
        if eval(op, a | above, b | above, 0) != *number {
            return false;
        }
    }
    pairs.len() == wanted.len()
}

/// How many codes give their numbers before the first that doesn't.
fn giving(cases: &[Case], pairs: &[(u64, u64)], above: u64) -> u32 {
    let mut passed = 0u32;
    for (code, wanted) in cases {
        if !gives(*code, pairs, above, *wanted) {
            break;
        }
        passed = passed.wrapping_add(1);
    }
    passed
}

/// The trap of the operator of a code.
fn trap_at(code: u8, a: u64, b: u64) -> Option<Trap> {
    trap_of(by_code(code)?, a, b)
}

/// At how many of these pairs the operator of a code traps.
fn traps_of(code: u8, pairs: &[(u64, u64)]) -> u32 {
    let mut count = 0u32;
    for (a, b) in pairs {
        if trap_at(code, *a, *b).is_some() {
            count = count.wrapping_add(1);
        }
    }
    count
}

/// How often the operators of these codes trap at these pairs.
fn count_traps(cases: &[Case], pairs: &[(u64, u64)]) -> u32 {
    let mut count = 0u32;
    for (code, _) in cases {
        count = count.wrapping_add(traps_of(*code, pairs));
    }
    count
}
