//! Programs that are constant time, and the labels of their variables. By hand: a variable is secret where it is declared so, or a site writes it that reads
//! a secret or loads from a secret memory.
use crate::labelled::{KEPT, MULTIPLIED, OPEN, PUBLIC};
use crate::verdicts::has_labels;
use bl_base::Label;
use std::test::Fail;
use tests_samples::IDENTITY_IMAGE;

/// Short names in a list.
const P: Label = Label::Public;
/// The same of a secret variable.
const S: Label = Label::Secret;

#[test]
fn a_secret_result_that_nobody_demands(rt: HostRuntime) -> Result<(), Fail> {
    assert!(rt; has_labels(rt.alloc(), &IDENTITY_IMAGE, &[S, S, S])?);
    Ok(())
}

#[test]
fn a_public_result_that_is_demanded(rt: HostRuntime) -> Result<(), Fail> {
    assert!(rt; has_labels(rt.alloc(), &PUBLIC, &[P, P, P])?);
    assert!(rt; has_labels(rt.alloc(), &OPEN, &[P, P, P, P, P, P])?);
    Ok(())
}

#[test]
fn a_secret_that_is_multiplied(rt: HostRuntime) -> Result<(), Fail> {
    assert!(rt; has_labels(rt.alloc(), &MULTIPLIED, &[S, S])?);
    Ok(())
}

#[test]
fn a_secret_memory_keeps_a_secret(rt: HostRuntime) -> Result<(), Fail> {
    assert!(rt; has_labels(rt.alloc(), &KEPT, &[P, S, P])?);
    Ok(())
}
