//! Runs of modules with extensions by sign, several results, and block types that name a type. The outcomes are those of node v20.20's
//! WebAssembly, and the same modules are refused there but for one: it takes the spelling `C0 7F` of a negative number for `40`. The limit on
//! results is this program's own.
use bl_base::NoMemory;
use std::alloc::Global;
use std::test::Fail;
use tests_calls::{Run, interprets};
use tests_samples::{
    I32_EXTEND8, I32_EXTEND16, I64_EXTEND8, I64_EXTEND16, I64_EXTEND32, LOOP_OF_A_TYPE, SWAP,
};

/// A function of type 0, [] -> [i32], with a block of type 1, [i32] -> [i32], whose index is spelled in five bytes.
const LONG_INDEX: [u8; 41] = [
    0x01, 0x0A, 0x02, 0x60, 0x00, 0x01, 0x7F, 0x60, 0x01, 0x7F, 0x01, 0x7F, 0x03, 0x02, 0x01, 0x00,
    0x07, 0x05, 0x01, 0x01, 0x66, 0x00, 0x00, 0x0A, 0x10, 0x01, 0x0E, 0x00, 0x41, 0x07, 0x02, 0x81,
    0x80, 0x80, 0x80, 0x00, 0x41, 0x02, 0x6A, 0x0B, 0x0B,
];

static RUNS: [Run; 8] = [
    (&I32_EXTEND8, "arg 200\n", 0, "returned i32 4294967240\n"),
    (&I32_EXTEND16, "arg 32768\n", 0, "returned i32 4294934528\n"),
    (&I64_EXTEND8, "arg 383\n", 0, "returned i64 127\n"),
    (
        &I64_EXTEND16,
        "arg 65535\n",
        0,
        "returned i64 18446744073709551615\n",
    ),
    (
        &I64_EXTEND32,
        "arg 2147483648\n",
        0,
        "returned i64 18446744071562067968\n",
    ),
    (&SWAP, "arg 3\narg 4\n", 0, "returned i32 4 i32 3\n"),
    (&LOOP_OF_A_TYPE, "arg 3\n", 0, "returned i32 0\n"),
    (&LONG_INDEX, "", 0, "returned i32 9\n"),
];

/// How many runs pass before the first that doesn't.
fn interpreted(alloc: Global, runs: &[Run]) -> Result<u32, NoMemory> {
    let mut passed = 0u32;
    for (sections, start, status, text) in runs {
        if !interprets(alloc, *sections, *start, *status, *text)? {
            break;
        }
        passed = passed.wrapping_add(1);
    }
    Ok(passed)
}

#[test]
fn extensions_by_sign_several_results_and_blocks_of_a_type(rt: HostRuntime) -> Result<(), Fail> {
    assert_eq!(rt; interpreted(rt.alloc(), &RUNS)?, 8);
    Ok(())
}

/// The sections of a function of type 0, [] -> [], with one block of that block type, which is spelled in one byte or in two.
macro_rules! of_block {
    ($byte:literal) => {
        [
            0x01, 0x04, 0x01, 0x60, 0x00, 0x00, 0x03, 0x02, 0x01, 0x00, 0x07, 0x05, 0x01, 0x01,
            0x66, 0x00, 0x00, 0x0A, 0x07, 0x01, 0x05, 0x00, 0x02, $byte, 0x0B, 0x0B,
        ]
    };
    ($first:literal, $second:literal) => {
        [
            0x01, 0x04, 0x01, 0x60, 0x00, 0x00, 0x03, 0x02, 0x01, 0x00, 0x07, 0x05, 0x01, 0x01,
            0x66, 0x00, 0x00, 0x0A, 0x08, 0x01, 0x06, 0x00, 0x02, $first, $second, 0x0B, 0x0B,
        ]
    };
}

static BLOCK_TYPES: [Run; 8] = [
    (&of_block!(0x40), "", 0, "returned\n"),
    (&of_block!(0x00), "", 0, "returned\n"),
    (&of_block!(0x80, 0x00), "", 0, "returned\n"),
    (&of_block!(0x01), "", 6, "invalid: m function 0\n"),
    (&of_block!(0x81, 0x00), "", 6, "invalid: m function 0\n"),
    (&of_block!(0xC0, 0x7F), "", 5, "malformed: m\n"),
    (&of_block!(0xFF, 0x7F), "", 5, "malformed: m\n"),
    (&of_block!(0x41), "", 5, "malformed: m\n"),
];

#[test]
fn a_block_type_is_one_of_values_or_names_a_type(rt: HostRuntime) -> Result<(), Fail> {
    assert_eq!(rt; interpreted(rt.alloc(), &BLOCK_TYPES)?, 8);
    Ok(())
}

/// The sections of a module with a type of 1,025 results.
fn many_results(alloc: Global) -> Result<Vec<u8>, NoMemory> {
    let mut bytes = [0x01, 0x86, 0x08, 0x01, 0x60, 0x00, 0x81, 0x08].to_vec(alloc)?;
    for _result in 0..1_025 {
        bytes.push(0x7F)?;
    }
    Ok(bytes)
}

/// Whether a module with that type is interpreted so.
fn are_too_many(alloc: Global, status: u8, text: &str) -> Result<bool, NoMemory> {
    interprets(alloc, &many_results(alloc)?, "", status, text)
}

#[test]
fn a_type_of_1025_results_exceeds_a_limit(rt: HostRuntime) -> Result<(), Fail> {
    assert!(rt; are_too_many(rt.alloc(), 8, "limit: results 1025\n")?);
    Ok(())
}
