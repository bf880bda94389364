//! The least protects of programs with loops and calls, whose commands were drawn at random. `oracles/least.py` found what is expected, by
//! trying every set of sites.
use crate::images::{
    DRAWN_0, DRAWN_1, DRAWN_2, DRAWN_3, DRAWN_4, DRAWN_7, DRAWN_9, DRAWN_10, DRAWN_11, DRAWN_12,
    DRAWN_14, DRAWN_15, DRAWN_16, DRAWN_17, DRAWN_18, DRAWN_19, DRAWN_20, DRAWN_21, DRAWN_23,
    DRAWN_24,
};
use crate::least::is_least;
use bl_base::NoMemory;
use std::alloc::Global;
use std::test::Fail;

/// An image, the least protects of its program and their weight.
static CASES: [(&[u8], &[u32], u64); 20] = [
    (DRAWN_0, &[22], 10),
    (DRAWN_1, &[9, 13], 11),
    (DRAWN_2, &[12, 19], 11),
    (DRAWN_3, &[9, 23], 2),
    (DRAWN_4, &[10, 14], 20),
    (DRAWN_7, &[11], 10),
    (DRAWN_9, &[11], 10),
    (DRAWN_10, &[10, 22], 11),
    (DRAWN_11, &[10, 20], 2),
    (DRAWN_12, &[13], 10),
    (DRAWN_14, &[9, 26], 11),
    (DRAWN_15, &[18], 1),
    (DRAWN_16, &[9, 12], 2),
    (DRAWN_17, &[14], 10),
    (DRAWN_18, &[24], 10),
    (DRAWN_19, &[10, 26], 11),
    (DRAWN_20, &[11, 14, 21], 12),
    (DRAWN_21, &[12, 23], 11),
    (DRAWN_23, &[10, 21], 2),
    (DRAWN_24, &[9], 1),
];

/// How many cases pass before the first that doesn't.
fn passing(alloc: Global) -> Result<u32, NoMemory> {
    let mut passed = 0u32;
    for (image, protects, weight) in &CASES {
        if !is_least(alloc, image, protects, *weight)? {
            break;
        }
        passed = passed.wrapping_add(1);
    }
    Ok(passed)
}

#[test]
fn twenty_programs(rt: HostRuntime) -> Result<(), Fail> {
    assert_eq!(rt; passing(rt.alloc())?, 20);
    Ok(())
}
