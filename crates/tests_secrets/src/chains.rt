//! Programs with a secret chain, which was followed by hand from what is secret to where it may not go; where there are two, either is taken.
use crate::labelled::{ADDRESS, CALLED, COPIED, DIVISOR, FETCHED, LOADED, STORED, TAKEN, TESTED};
use crate::verdicts::leaks;
use bl_graph::Origin;
use std::test::Fail;
use tests_samples::{DEMANDED_IMAGE, DIVIDED_IMAGE};

/// The only parameter of the first function.
const PARAMETER: Origin = Origin::Parameter {
    function: 0,
    index: 0,
};

#[test]
fn a_secret_is_tested(rt: HostRuntime) -> Result<(), Fail> {
    assert!(rt; leaks(rt.alloc(), &TESTED, PARAMETER, &[8], 9)?);
    Ok(())
}

#[test]
fn a_secret_is_divided(rt: HostRuntime) -> Result<(), Fail> {
    assert!(rt; leaks(rt.alloc(), &DIVIDED_IMAGE, PARAMETER, &[], 7)?);
    assert!(rt; leaks(rt.alloc(), &DIVISOR, PARAMETER, &[], 7)?);
    Ok(())
}

#[test]
fn a_secret_is_an_address(rt: HostRuntime) -> Result<(), Fail> {
    let as_address = leaks(rt.alloc(), &ADDRESS, PARAMETER, &[], 9)?;
    let as_condition = leaks(rt.alloc(), &ADDRESS, PARAMETER, &[7], 8)?;
    assert!(rt; as_address || as_condition);
    Ok(())
}

#[test]
fn a_secret_is_stored_to_a_public_memory(rt: HostRuntime) -> Result<(), Fail> {
    assert!(rt; leaks(rt.alloc(), &STORED, PARAMETER, &[], 9)?);
    Ok(())
}

#[test]
fn a_secret_is_given_as_a_demanded_result(rt: HostRuntime) -> Result<(), Fail> {
    assert!(rt; leaks(rt.alloc(), &DEMANDED_IMAGE, PARAMETER, &[8], 9)?);
    assert!(rt; leaks(rt.alloc(), &LOADED, Origin::Memory(0), &[11], 12)?);
    Ok(())
}

#[test]
fn a_secret_is_left_in_a_demanded_global(rt: HostRuntime) -> Result<(), Fail> {
    assert!(rt; leaks(rt.alloc(), &COPIED, Origin::Global(0), &[], 7)?);
    assert!(rt; leaks(rt.alloc(), &TAKEN, Origin::Memory(0), &[9], 9)?);
    Ok(())
}

#[test]
fn a_secret_goes_through_a_call(rt: HostRuntime) -> Result<(), Fail> {
    assert!(rt; leaks(rt.alloc(), &CALLED, PARAMETER, &[7, 11], 9)?);
    Ok(())
}

#[test]
fn a_secret_comes_of_a_memory(rt: HostRuntime) -> Result<(), Fail> {
    assert!(rt; leaks(rt.alloc(), &FETCHED, Origin::Memory(1), &[9], 10)?);
    Ok(())
}
