//! Images that are read, written and refused. Which rule a changed byte breaks, and where, was worked by hand from the rules of programs in FORMATS;
//! `formats/read.py`, which was written from that page alone, answers the same. Lengths are those of the arrays.
use crate::seq::program_of;
use bl_base::{NoMemory, Pos, SiteSet};
use bl_image::{ImageError, decode_image, encode, image_length};
use bl_program::{WellFormed, weight};
use std::alloc::Global;
use std::test::Fail;
use tests_samples::{ADD_ONE_IMAGE, DEMANDED_IMAGE, EMPTY_IMAGE, GROWTH_IMAGE, LOADS_IMAGE};

/// The image of a secret memory of one page.
static VAULT: [u8; 13] = [
    0x42, 0x4C, 0x49, 0x4D, 0x01, 0x00, 0x01, 0x01, 0x01, 0x01, 0x00, 0x00, 0x00,
];

/// The image of the program that the bytes are the image of.
fn written_again(alloc: Global, image: &[u8]) -> Result<Vec<u8>, NoMemory> {
    let program = program_of(alloc, image)?;
    encode(alloc, &program)
}

/// Whether an image is read, and written as it was.
fn is_read_again(alloc: Global, image: &[u8]) -> Result<bool, NoMemory> {
    let bytes = written_again(alloc, image)?;
    Ok(bytes.as_slice() == image)
}

/// How many of the images are read again before the first that isn't.
fn read_again(alloc: Global) -> Result<u32, NoMemory> {
    let images: [&[u8]; 6] = [
        &EMPTY_IMAGE,
        &ADD_ONE_IMAGE,
        &LOADS_IMAGE,
        &GROWTH_IMAGE,
        &VAULT,
        &DEMANDED_IMAGE,
    ];
    let mut passed = 0u32;
    for image in images {
        if !is_read_again(alloc, image)? {
            break;
        }
        passed = passed.wrapping_add(1);
    }
    Ok(passed)
}

#[test]
fn an_image_is_read_and_written_again(rt: HostRuntime) -> Result<(), Fail> {
    assert_eq!(rt; read_again(rt.alloc())?, 6);
    Ok(())
}

/// The image of a memory of one page with one row that isn't zero.
static ROW: [u8; 30] = [
    0x42, 0x4C, 0x49, 0x4D, 0x01, 0x00, 0x01, 0x01, 0x01, 0x00, 0x01, 0x00, 0x05, 0x00, 0x00, 0x00,
    0x00, 0x00, 0x00, 0x00, 0x00, 0x00, 0x00, 0x00, 0x00, 0x00, 0x00, 0x00, 0x00, 0x00,
];

/// What stands before the name of an export of 128 letters, whose length takes two bytes, in an image of a function that returns at once.
static BEFORE_NAME: [u8; 14] = [
    0x42, 0x4C, 0x49, 0x4D, 0x01, 0x00, 0x00, 0x01, 0x00, 0x00, 0x00, 0x01, 0x01, 0x80,
];

/// That image.
fn long_name(alloc: Global) -> Result<Vec<u8>, NoMemory> {
    let mut bytes = BEFORE_NAME.to_vec(alloc)?;
    bytes.push(0x01)?;
    bytes.extend_from_slice(&[0x6D; 128])?;
    bytes.extend_from_slice(&[0x00, 0x08])?;
    Ok(bytes)
}

/// The length that is told of the image of the program that the bytes are the image of.
fn length_told(alloc: Global, image: &[u8]) -> Result<u64, NoMemory> {
    let program = program_of(alloc, image)?;
    Ok(image_length(&program))
}

/// How many of the images have the length that is told before the first that hasn't.
fn lengths_told(alloc: Global) -> Result<u32, NoMemory> {
    let images: [(&[u8], u64); 7] = [
        (&EMPTY_IMAGE, 9),
        (&ADD_ONE_IMAGE, 53),
        (&LOADS_IMAGE, 86),
        (&GROWTH_IMAGE, 78),
        (&VAULT, 13),
        (&DEMANDED_IMAGE, 41),
        (&ROW, 30),
    ];
    let mut passed = 0u32;
    for (image, length) in images {
        if length_told(alloc, image)? != length {
            break;
        }
        passed = passed.wrapping_add(1);
    }
    Ok(passed)
}

#[test]
fn the_length_of_an_image_is_told_before_it_is_made(rt: HostRuntime) -> Result<(), Fail> {
    assert_eq!(rt; lengths_told(rt.alloc())?, 7);
    Ok(())
}

/// The length that is told of an image with a long name.
fn length_of_long_name(alloc: Global) -> Result<u64, NoMemory> {
    let image = long_name(alloc)?;
    length_told(alloc, image.as_slice())
}

#[test]
fn a_name_of_128_letters_has_a_length_of_two_bytes(rt: HostRuntime) -> Result<(), Fail> {
    assert_eq!(rt; length_of_long_name(rt.alloc())?, 145);
    Ok(())
}

/// Whether bytes are refused so.
fn is_refused(alloc: Global, bytes: &[u8], error: ImageError) -> bool {
    let found = decode_image(alloc, bytes);
    matches!(&found, Err(other) if *other == error)
}

/// How many prefixes of an image are no image before the first that is one.
fn prefixes(alloc: Global) -> u32 {
    let mut passed = 0u32;
    for length in 0..ADD_ONE_IMAGE.len() {
        if !is_refused(alloc, &ADD_ONE_IMAGE[..length], ImageError::NotAnImage) {
            break;
        }
        passed = passed.wrapping_add(1);
    }
    passed
}

#[test]
fn no_proper_prefix_is_an_image(rt: HostRuntime) -> Result<(), Fail> {
    assert_eq!(rt; prefixes(rt.alloc()), 53);
    Ok(())
}

/// An image with one byte changed.
fn changed(alloc: Global, image: &[u8], at: usize, byte: u8) -> Result<Vec<u8>, NoMemory> {
    let mut bytes = image.to_vec(alloc)?;
    if at < bytes.len() {
        bytes[at] = byte;
    }
    Ok(bytes)
}

/// A changed byte of an image, and the rule that is broken then, with the position; None where the bytes are no image.
type Change = (usize, u8, Option<(u8, u32)>);

/// The error of a broken rule at a position, or of bytes that are no image.
fn error_of(broken: Option<(u8, u32)>) -> ImageError {
    match broken {
        Some((rule, position)) => ImageError::IllFormed {
            rule,
            position: Pos(position),
        },
        None => ImageError::NotAnImage,
    }
}

/// How many changes of an image are answered so before the first that isn't.
fn answered(alloc: Global, image: &[u8], changes: &[Change]) -> Result<u32, NoMemory> {
    let mut passed = 0u32;
    for (at, byte, broken) in changes {
        let bytes = changed(alloc, image, *at, *byte)?;
        if !is_refused(alloc, &bytes, error_of(*broken)) {
            break;
        }
        passed = passed.wrapping_add(1);
    }
    Ok(passed)
}

static CHANGES: [Change; 7] = [
    (0, 0x43, None),
    (13, 0x04, Some((4, 10))),
    (14, 0x05, None),
    (14, 0x07, None),
    (24, 0x01, Some((3, 0))),
    (26, 0x0D, Some((5, 7))),
    (28, 0x07, None),
];

/// Whether another entry of the function makes another image.
fn is_another(alloc: Global) -> Result<bool, NoMemory> {
    let bytes = changed(alloc, &ADD_ONE_IMAGE, 28, 0x08)?;
    is_read_again(alloc, &bytes)
}

#[test]
fn a_changed_byte_is_answered(rt: HostRuntime) -> Result<(), Fail> {
    assert_eq!(rt; answered(rt.alloc(), &ADD_ONE_IMAGE, &CHANGES)?, 7);
    assert!(rt; is_another(rt.alloc())?);
    Ok(())
}

static EMPTY_FUNCTION: [u8; 13] = [
    0x42, 0x4C, 0x49, 0x4D, 0x01, 0x00, 0x00, 0x01, 0x00, 0x00, 0x00, 0x00, 0x00,
];

static BREAKS: [Change; 9] = [
    // a reserve of 512 pages
    (9, 0x04, Some((1, 0))),
    (25, 0x01, Some((3, 0))),
    // a variable of no function is read, and the result is written by a Set
    (33, 0x08, Some((4, 8))),
    (31, 0x02, Some((4, 8))),
    (27, 0x11, Some((5, 7))),
    // the function has one result
    (82, 0x01, Some((6, 15))),
    // a bounds test of five bytes before a load of four, and a jump over the tests to the load
    (43, 0x05, Some((7, 11))),
    (27, 0x0B, Some((7, 11))),
    // the size is written outside a growth
    (31, 0x00, Some((8, 8))),
];

// the growth is tested against three pages, where the memory's reserve is two
static GROWN: [Change; 1] = [(30, 0x03, Some((8, 11)))];

#[test]
fn a_program_that_breaks_one_rule_is_told_it(rt: HostRuntime) -> Result<(), Fail> {
    assert!(rt; is_refused(rt.alloc(), &EMPTY_FUNCTION, error_of(Some((2, 0)))));
    assert_eq!(rt; answered(rt.alloc(), &LOADS_IMAGE, &BREAKS)?, 9);
    assert_eq!(rt; answered(rt.alloc(), &GROWTH_IMAGE, &GROWN)?, 1);
    Ok(())
}

// rule 4 at 8 stands before rule 7 at 11; of rules 6 and 7 at one position, the lower is told
static SECOND_BREAKS: [Change; 2] = [(33, 0x08, Some((4, 8))), (52, 0x01, Some((6, 11)))];

/// How many of them are answered so where the loads break another rule.
fn second_broken(alloc: Global) -> Result<u32, NoMemory> {
    let bytes = changed(alloc, &LOADS_IMAGE, 43, 0x05)?;
    answered(alloc, &bytes, &SECOND_BREAKS)
}

#[test]
fn of_two_broken_rules_the_first_is_told(rt: HostRuntime) -> Result<(), Fail> {
    assert_eq!(rt; second_broken(rt.alloc())?, 2);
    Ok(())
}

/// The image of the loads with no demands, where the Set at 9 weighs 5 and the mark of the Set at 8 has depth 2.
fn listed(alloc: Global) -> Result<Vec<u8>, NoMemory> {
    let mut bytes = LOADS_IMAGE[..26].to_vec(alloc)?;
    bytes.extend_from_slice(&[0x00, 0x01, 0x09, 0x05])?;
    bytes.extend_from_slice(&LOADS_IMAGE[26..])?;
    if bytes.len() > 33 {
        bytes[4] = 0x02;
        bytes[33] = 0x02;
    }
    Ok(bytes)
}

/// The sites at 8, 9 and 10.
fn three_sites(alloc: Global) -> Result<SiteSet, NoMemory> {
    let mut protects = SiteSet::new(alloc);
    for at in [8, 9, 10] {
        protects.insert(Pos(at))?;
    }
    Ok(protects)
}

/// What three sites of a program weigh.
fn weight_of_three(alloc: Global, program: &WellFormed) -> Result<u64, NoMemory> {
    let protects = three_sites(alloc)?;
    Ok(weight(program, &protects))
}

/// The program of the loads with a listed weight.
fn listed_program(alloc: Global) -> Result<WellFormed, NoMemory> {
    let bytes = listed(alloc)?;
    program_of(alloc, &bytes)
}

/// Whether the sites weigh 100 for the mark and 5 as listed; at 10 stands no site.
fn is_weighed(alloc: Global) -> Result<bool, NoMemory> {
    let program = listed_program(alloc)?;
    Ok(weight_of_three(alloc, &program)? == 105)
}

#[test]
fn listed_weights_take_the_place_of_those_of_marks(rt: HostRuntime) -> Result<(), Fail> {
    assert!(rt; is_weighed(rt.alloc())?);
    Ok(())
}

/// The image of a function that adds 1, with a number in a longer spelling.
fn longer(alloc: Global) -> Result<Vec<u8>, NoMemory> {
    let mut bytes = ADD_ONE_IMAGE[..13].to_vec(alloc)?;
    bytes.extend_from_slice(&[0x85, 0x00])?;
    bytes.extend_from_slice(&ADD_ONE_IMAGE[14..])?;
    Ok(bytes)
}

/// Whether those bytes are no image.
fn is_too_long(alloc: Global) -> Result<bool, NoMemory> {
    let bytes = longer(alloc)?;
    Ok(is_refused(alloc, &bytes, ImageError::NotAnImage))
}

#[test]
fn a_longer_spelling_is_no_image(rt: HostRuntime) -> Result<(), Fail> {
    assert!(rt; is_too_long(rt.alloc())?);
    Ok(())
}

static NO_RESULT: [Change; 1] = [(25, 0x01, Some((9, 0)))];

#[test]
fn a_demand_of_a_result_that_does_not_exist(rt: HostRuntime) -> Result<(), Fail> {
    assert_eq!(rt; answered(rt.alloc(), &DEMANDED_IMAGE, &NO_RESULT)?, 1);
    Ok(())
}

/// Version 2 without demands and weights.
static NEEDLESS: [u8; 11] = [
    0x42, 0x4C, 0x49, 0x4D, 0x02, 0x00, 0x00, 0x00, 0x00, 0x00, 0x00,
];

#[test]
fn version_2_without_demands_and_weights_is_no_image(rt: HostRuntime) -> Result<(), Fail> {
    assert!(rt; is_refused(rt.alloc(), &NEEDLESS, ImageError::NotAnImage));
    Ok(())
}

/// What stands in front of the commands where a function has 1,048,570: one more than the limit, with the traps.
static MANY: [u8; 15] = [
    0x42, 0x4C, 0x49, 0x4D, 0x01, 0x00, 0x00, 0x01, 0x00, 0x00, 0x00, 0xFA, 0xFF, 0x3F, 0x00,
];

/// The same behind a memory whose reserve is of 512 pages.
static MANY_AND_RESERVE: [u8; 20] = [
    0x42, 0x4C, 0x49, 0x4D, 0x01, 0x00, 0x01, 0x00, 0x80, 0x04, 0x00, 0x00, 0x01, 0x00, 0x00, 0x00,
    0xFA, 0xFF, 0x3F, 0x00,
];

/// The bytes with so many returns and a last command of that code behind them.
fn with_returns(alloc: Global, front: &[u8], count: u32, last: u8) -> Result<Vec<u8>, NoMemory> {
    let mut bytes = front.to_vec(alloc)?;
    for _ in 0..count {
        bytes.push(0x08)?;
    }
    bytes.push(last)?;
    Ok(bytes)
}

/// Whether such bytes are refused for that rule at 0, or as no image.
fn are_refused(
    alloc: Global,
    front: &[u8],
    count: u32,
    last: u8,
    rule: Option<u8>,
) -> Result<bool, NoMemory> {
    let bytes = with_returns(alloc, front, count, last)?;
    let error = match rule {
        Some(rule) => error_of(Some((rule, 0))),
        None => ImageError::NotAnImage,
    };
    Ok(is_refused(alloc, &bytes, error))
}

/// How many images of more commands than the limit are answered so before the first that isn't.
fn many_answered(alloc: Global) -> Result<u32, NoMemory> {
    let cases: [(&[u8], u32, u8, Option<u8>); 4] = [
        (&MANY, 1_048_569, 0x08, Some(2)),
        (&MANY_AND_RESERVE, 1_048_569, 0x08, Some(1)),
        // a jump without its target, and a command that isn't declared
        (&MANY, 1_048_569, 0x04, None),
        (&MANY, 1_048_570, 0x08, None),
    ];
    let mut passed = 0u32;
    for (front, count, last, rule) in cases {
        if !are_refused(alloc, front, count, last, rule)? {
            break;
        }
        passed = passed.wrapping_add(1);
    }
    Ok(passed)
}

#[test]
fn more_commands_than_the_limit(rt: HostRuntime) -> Result<(), Fail> {
    assert_eq!(rt; many_answered(rt.alloc())?, 4);
    Ok(())
}
