//! The verdict on two runs of a program. By hand: the secret is moved at 8 and given at 9; the first load's value is tested at 13, unless that is protected.
use bl_base::{NoMemory, Pos};
use bl_graph::{Origin, SecretChain};
use bl_image::decode_image;
use bl_sct::{Verdict, assess};
use std::alloc::Global;
use std::test::Fail;
use tests_samples::{DEMANDED_IMAGE, LOADS_IMAGE, LOWERED_LOADS_IMAGE};

/// The chain goes from the parameter through 8 to 9.
fn is_way_of_the_parameter(chain: &SecretChain) -> bool {
    if !matches!(
        chain.origin,
        Origin::Parameter {
            function: 0,
            index: 0
        }
    ) {
        return false;
    }
    match chain.through.as_slice() {
        [site] => site.0 == 8 && chain.end.0 == 9,
        _ => false,
    }
}

/// The verdict on an image's program; bytes that are no image are answered like want of memory.
fn verdict(alloc: Global, image: &[u8]) -> Result<Verdict, NoMemory> {
    let Ok(program) = decode_image(alloc, image) else {
        return Err(NoMemory);
    };
    assess(alloc, &program)
}

/// Whether the parameter's way alone leaves the program not constant time.
fn is_given(alloc: Global) -> Result<bool, NoMemory> {
    match &verdict(alloc, &DEMANDED_IMAGE)? {
        Verdict::NotConstantTime(chain) => Ok(is_way_of_the_parameter(chain)),
        _ => Ok(false),
    }
}

#[test]
fn a_secret_that_is_demanded_public_isnt_constant_time(rt: HostRuntime) -> Result<(), Fail> {
    assert!(rt; is_given(rt.alloc())?);
    Ok(())
}

/// Whether a sink at that position keeps the program from passing.
fn is_unstable(alloc: Global, image: &[u8], at: u32) -> Result<bool, NoMemory> {
    match &verdict(alloc, image)? {
        Verdict::NotStable(Pos(found)) => Ok(*found == at),
        _ => Ok(false),
    }
}

#[test]
fn what_a_load_gives_reaches_a_test(rt: HostRuntime) -> Result<(), Fail> {
    assert!(rt; is_unstable(rt.alloc(), &LOWERED_LOADS_IMAGE, 13)?);
    Ok(())
}

/// Whether a program is safe.
fn is_safe(alloc: Global, image: &[u8]) -> Result<bool, NoMemory> {
    Ok(matches!(&verdict(alloc, image)?, Verdict::Safe))
}

#[test]
fn a_protect_makes_it_safe(rt: HostRuntime) -> Result<(), Fail> {
    assert!(rt; is_safe(rt.alloc(), &LOADS_IMAGE)?);
    Ok(())
}
