//! Modules that are made, byte by byte, and read. Their bytes and lengths are those that `oracles/made.py` prints.
ghost use Rattle.std.specs.Prelude.{◌<◌, ◌^◌, length};
ghost use Rattle.bl_wasm.specs.Validity.{functions_of};

use bl_base::NoMemory;
use bl_decode::decode;
use bl_gen::make;
use bl_validate::validate;
use bl_wasm::Module;
use std::alloc::Global;
use std::test::Fail;

/// The module of one function for the seed 0, whose items are of the kinds 0, 1, 3, 2, 2, 3, 1 and 0.
static ONE: [u8; 104] = [
    // magic number, version
    0x00, 0x61, 0x73, 0x6D, 0x01, 0x00, 0x00, 0x00,
    // type, function, memory, export
    0x01, 0x06, 0x01, 0x60, 0x01, 0x7F, 0x01, 0x7F, 0x03, 0x02, 0x01, 0x00, 0x05, 0x03, 0x01, 0x00,
    0x01, 0x07, 0x05, 0x01, 0x01, 0x66, 0x00, 0x00,
    // code: 70 bytes, one function of 68 bytes, one run of one i32
    0x0A, 0x46, 0x01, 0x44, 0x01, 0x01, 0x7F,
    // items 0 to 3
    0x20, 0x00, 0x28, 0x02, 0x00, 0x21, 0x01, 0x20, 0x01, 0x28, 0x02, 0x00, 0x21, 0x01, 0x20, 0x00,
    0x20, 0x01, 0x6A, 0x21, 0x01, 0x03, 0x40, 0x20, 0x01, 0x28, 0x02, 0x00, 0x21, 0x00, 0x0B,
    // items 4 to 7
    0x03, 0x40, 0x20, 0x01, 0x28, 0x02, 0x00, 0x21, 0x00, 0x0B, 0x20, 0x00, 0x20, 0x01, 0x6A, 0x21,
    0x01, 0x20, 0x01, 0x28, 0x02, 0x00, 0x21, 0x01, 0x20, 0x00, 0x28, 0x02, 0x00, 0x21, 0x01,
    // local.get 1, end
    0x20, 0x01, 0x0B,
];

/// Of two functions for the greatest seed: the code section's beginning, and items 0 to 2 of the first, of the kinds 3, 0 and 2.
static FIRST: [u8; 32] = [
    0x0A, 0x91, 0x01, 0x02, 0x44, 0x01, 0x01, 0x7F, 0x20, 0x00, 0x20, 0x01, 0x6A, 0x21, 0x01, 0x20,
    0x00, 0x28, 0x02, 0x00, 0x21, 0x01, 0x03, 0x40, 0x20, 0x01, 0x28, 0x02, 0x00, 0x21, 0x00, 0x0B,
];

/// The second function's size and locals, and its items 0 to 2, of the kinds 0, 1 and 3.
static SECOND: [u8; 25] = [
    0x4A, 0x01, 0x01, 0x7F, 0x20, 0x00, 0x28, 0x02, 0x00, 0x21, 0x01, 0x20, 0x01, 0x28, 0x02, 0x00,
    0x21, 0x01, 0x20, 0x00, 0x20, 0x01, 0x6A, 0x21, 0x01,
];

/// The second function's end: the call of function 0, local.get 1 and end.
static CALL: [u8; 9] = [0x20, 0x01, 0x10, 0x00, 0x21, 0x01, 0x20, 0x01, 0x0B];

/// Whether the module of so many functions for the seed 0 is that one.
fn is_made(alloc: Global, size: u32, wanted: &[u8]) -> Result<bool, NoMemory> {
    if size == 0 || size > 10_000 {
        return Ok(false);
    }
    let bytes = make(alloc, 0, size)?;
    Ok(bytes.as_slice() == wanted)
}

#[test]
fn a_module_of_one_function_is_made_byte_by_byte(rt: HostRuntime) -> Result<(), Fail> {
    assert!(rt; is_made(rt.alloc(), 1, &ONE)?);
    Ok(())
}

/// Whether the module of so many functions for the seed 5 has that length.
fn has_length(alloc: Global, size: u32, length: usize) -> Result<bool, NoMemory> {
    if size == 0 || size > 10_000 {
        return Ok(false);
    }
    let bytes = make(alloc, 5, size)?;
    Ok(bytes.len() == length)
}

#[test]
fn modules_have_the_lengths_that_the_rule_gives(rt: HostRuntime) -> Result<(), Fail> {
    assert!(rt; has_length(rt.alloc(), 100, 7_629)?);
    assert!(rt; has_length(rt.alloc(), 1_000, 76_905)?);
    Ok(())
}

/// Whether those bytes stand between two places.
fn stands(bytes: &[u8], from: usize, to: usize, wanted: &[u8]) -> bool {
    match bytes.get(from..to) {
        Some(found) => found == wanted,
        None => false,
    }
}

/// Whether bytes have the length and the parts of the module of two functions for the greatest seed.
fn has_parts(bytes: &[u8]) -> bool {
    bytes.len() == 181
        && stands(bytes, 33, 65, &FIRST)
        && stands(bytes, 106, 131, &SECOND)
        && stands(bytes, 172, 181, &CALL)
}

/// Whether the module of two functions for the greatest seed has these parts.
fn is_whole(alloc: Global) -> Result<bool, NoMemory> {
    let bytes = make(alloc, 18_446_744_073_709_551_615, 2)?;
    Ok(has_parts(&bytes))
}

#[test]
fn the_sum_with_the_greatest_seed_is_a_whole_number(rt: HostRuntime) -> Result<(), Fail> {
    assert!(rt; is_whole(rt.alloc())?);
    Ok(())
}

/// Whether a module of few functions is found valid.
fn is_found_valid(alloc: Global, tree: Module) -> bool
    requires { length (functions_of tree) < 2 ^ 32 }
{
    validate(alloc, tree).is_ok()
}

/// Whether the bytes are decoded and found valid.
#[tactic(auto, using(bl_wasm::proofs::LimitLemmas::few_functions))]
fn is_accepted(alloc: Global, bytes: &[u8]) -> bool {
    match decode(alloc, bytes) {
        Ok(tree) => is_found_valid(alloc, tree),
        Err(_) => false,
    }
}

/// Whether the module of 100 functions for the seed 5 is.
fn made_is_accepted(alloc: Global) -> Result<bool, NoMemory> {
    let bytes = make(alloc, 5, 100)?;
    Ok(is_accepted(alloc, &bytes))
}

#[test]
fn a_module_that_is_made_is_accepted(rt: HostRuntime) -> Result<(), Fail> {
    assert!(rt; made_is_accepted(rt.alloc())?);
    Ok(())
}
