//! Programs whose least protects were found by hand, and by `oracles/least.py`.
use crate::images::{BEFORE_LOOP, DOUBLED, IN_LOOP, LOADS, SUM, TWICE, WEIGHTED};
use crate::least::{is_certified_by, is_least};
use std::test::Fail;

#[test]
fn a_load_whose_value_is_an_address(rt: HostRuntime) -> Result<(), Fail> {
    assert!(rt; is_least(rt.alloc(), LOADS, &[11], 1)?);
    assert!(rt;
        is_certified_by(
            rt.alloc(),
            LOADS,
            &[
                "{\"paths\":[{\"amount\":1,\"sink\":14,\"sites\":[11]}],\"weight\":1}",
                "{\"paths\":[{\"amount\":1,\"sink\":13,\"sites\":[11,12]}],\"weight\":1}",
            ]
        )?
    );
    Ok(())
}

#[test]
fn a_listed_weight_is_followed(rt: HostRuntime) -> Result<(), Fail> {
    assert!(rt; is_least(rt.alloc(), WEIGHTED, &[11], 5)?);
    Ok(())
}

#[test]
fn two_loads_are_held_back_at_their_sum(rt: HostRuntime) -> Result<(), Fail> {
    assert!(rt; is_least(rt.alloc(), SUM, &[16], 1)?);
    assert!(rt;
        is_certified_by(
            rt.alloc(),
            SUM,
            &[
                "{\"paths\":[{\"amount\":1,\"sink\":19,\"sites\":[11,16]}],\"weight\":1}",
                "{\"paths\":[{\"amount\":1,\"sink\":19,\"sites\":[15,16]}],\"weight\":1}",
                "{\"paths\":[{\"amount\":1,\"sink\":18,\"sites\":[11,16,17]}],\"weight\":1}",
                "{\"paths\":[{\"amount\":1,\"sink\":18,\"sites\":[15,16,17]}],\"weight\":1}",
            ]
        )?
    );
    Ok(())
}

#[test]
fn one_load_feeds_two(rt: HostRuntime) -> Result<(), Fail> {
    assert!(rt; is_least(rt.alloc(), TWICE, &[12], 1)?);
    assert!(rt;
        is_certified_by(
            rt.alloc(),
            TWICE,
            &[
                "{\"paths\":[{\"amount\":1,\"sink\":16,\"sites\":[12]}],\"weight\":1}",
                "{\"paths\":[{\"amount\":1,\"sink\":15,\"sites\":[12,14]}],\"weight\":1}",
                "{\"paths\":[{\"amount\":1,\"sink\":20,\"sites\":[12,13,17]}],\"weight\":1}",
                "{\"paths\":[{\"amount\":1,\"sink\":19,\"sites\":[12,13,17,18]}],\"weight\":1}",
            ]
        )?
    );
    Ok(())
}

#[test]
fn the_set_nearest_the_loads_is_taken(rt: HostRuntime) -> Result<(), Fail> {
    assert!(rt; is_least(rt.alloc(), BEFORE_LOOP, &[12], 1)?);
    assert!(rt;
        is_certified_by(
            rt.alloc(),
            BEFORE_LOOP,
            &[
                "{\"paths\":[{\"amount\":1,\"sink\":18,\"sites\":[12,13,15]}],\"weight\":1}",
                "{\"paths\":[{\"amount\":1,\"sink\":17,\"sites\":[12,13,15,16]}],\"weight\":1}",
            ]
        )?
    );
    Ok(())
}

#[test]
fn a_site_behind_the_loop_is_cheaper(rt: HostRuntime) -> Result<(), Fail> {
    assert!(rt; is_least(rt.alloc(), IN_LOOP, &[16], 1)?);
    assert!(rt;
        is_certified_by(
            rt.alloc(),
            IN_LOOP,
            &[
                "{\"paths\":[{\"amount\":1,\"sink\":19,\"sites\":[13,14,16]}],\"weight\":1}",
                "{\"paths\":[{\"amount\":1,\"sink\":18,\"sites\":[13,14,16,17]}],\"weight\":1}",
            ]
        )?
    );
    Ok(())
}

#[test]
fn a_loop_weighs_ten(rt: HostRuntime) -> Result<(), Fail> {
    assert!(rt; is_least(rt.alloc(), DOUBLED, &[10], 10)?);
    Ok(())
}
