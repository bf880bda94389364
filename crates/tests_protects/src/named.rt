//! Programs that declare more variables than their commands name. By hand, from the transient rules: 13 tests what comes of the first load, 14 takes it
//! for an address, and the protect at 11 keeps both from it.
use crate::certificates::sites_of;
use crate::images::LOADS;
use crate::least::{is_chosen, program_of};
use bl_base::NoMemory;
use bl_graph::graph;
use bl_transient::first_leak_of;
use std::alloc::Global;
use std::test::Fail;

/// A load of a load, as `LOADS`, in a function that declares 2,147,483,646 variables.
const MANY: &[u8] =
    b"BLIM\x01\x00\x01\x01\x80\x02\x00\x00\x01\x01\x7f\x00\x01\x7f\xfe\xff\xff\xff\x07\x0a\x01\x03m/f\x00\x04\x08\x00\x00\x00\x03\x00\x01\x00\x00\x01\x04\x00\x03\x00\x00\x01\x04\x03\x00\x04\x03\x0b\x01\x00(\x00\x05\x00\x00\x03\x00\x00\x01\x06\x00\x05\x00\x00\x01\x04\x03\x00\x06\x03\x0e\x01\x00(\x00\x07\x00\x00\x05\x07\x00\x00\x00\x07\x08";

/// Whether the least position of a sink that reads what comes of a guess is that one, where those sites are protected; none is told as 0.
fn leaks_at(
    alloc: Global,
    image: &[u8],
    protects: &[u32],
    position: u32,
) -> Result<bool, NoMemory> {
    let program = program_of(alloc, image)?;
    let graph = graph(alloc, &program)?;
    let sites = sites_of(alloc, protects)?;
    let found = match first_leak_of(alloc, &program, &graph, &sites)? {
        Some(at) => at.0,
        None => 0,
    };
    Ok(found == position)
}

#[test]
fn the_first_sink_that_reads_a_guess(rt: HostRuntime) -> Result<(), Fail> {
    assert!(rt; leaks_at(rt.alloc(), LOADS, &[], 13)?);
    assert!(rt; leaks_at(rt.alloc(), LOADS, &[12], 14)?);
    assert!(rt; leaks_at(rt.alloc(), LOADS, &[11], 0)?);
    Ok(())
}

#[test]
fn a_variable_that_is_declared_alone_costs_nothing(rt: HostRuntime) -> Result<(), Fail> {
    assert!(rt; leaks_at(rt.alloc(), MANY, &[], 13)?);
    assert!(rt; leaks_at(rt.alloc(), MANY, &[12], 14)?);
    assert!(rt; leaks_at(rt.alloc(), MANY, &[11], 0)?);
    assert!(rt; is_chosen(rt.alloc(), MANY, &[11], 1)?);
    Ok(())
}
