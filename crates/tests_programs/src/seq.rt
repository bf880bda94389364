//! What plain runs come to. The six commands of the one program and the bounds test of the other were followed by hand.
use bl_base::{List, NoMemory, Pages, Run, Start, Trap};
use bl_image::decode_image;
use bl_program::WellFormed;
use bl_seq::run;
use std::alloc::Global;
use std::test::Fail;
use tests_samples::{ADD_ONE_IMAGE, LOADS_IMAGE};
use tests_starts::is_start;

/// The program that the bytes are the image of; bytes that are none are answered like want of memory.
pub(crate) fn program_of(alloc: Global, image: &[u8]) -> Result<WellFormed, NoMemory> {
    match decode_image(alloc, image) {
        Ok(program) => Ok(program),
        Err(_) => Err(NoMemory),
    }
}

/// The start of one argument.
fn start_of(alloc: Global, argument: u64) -> Result<Start, NoMemory> {
    let args = vec![in alloc; argument]?;
    Ok(Start {
        args: List::of(args),
        patches: List::new(alloc),
    })
}

/// The outcome of the first function of a program within so many steps; None where the start doesn't fit.
fn run_from(
    alloc: Global,
    program: &WellFormed,
    start: &Start,
    steps: u64,
) -> Result<Option<Run>, NoMemory> {
    if !is_start(alloc, program, 0, start)? {
        return Ok(None);
    }
    Ok(Some(run(alloc, program, 0, start, steps)?))
}

/// The outcome of the first function of an image's program, from a start of one argument; None where the start doesn't fit.
fn outcome(
    alloc: Global,
    image: &[u8],
    argument: u64,
    steps: u64,
) -> Result<Option<Run>, NoMemory> {
    let start = start_of(alloc, argument)?;
    let program = program_of(alloc, image)?;
    run_from(alloc, &program, &start, steps)
}

/// Whether the run of `ADD_ONE_IMAGE` with the greatest argument returns 0 within six steps.
fn returns(alloc: Global) -> Result<bool, NoMemory> {
    match &outcome(alloc, &ADD_ONE_IMAGE, 4_294_967_295, 6)? {
        Some(Run::Returned { values, memories }) => {
            Ok(values.as_slice() == [0].as_slice() && memories.is_empty())
        }
        _ => Ok(false),
    }
}

/// Whether five steps are too few for it.
fn is_spent(alloc: Global) -> Result<bool, NoMemory> {
    Ok(matches!(
        &outcome(alloc, &ADD_ONE_IMAGE, 4_294_967_295, 5)?,
        Some(Run::Spent)
    ))
}

/// Whether an argument of 33 bits fits no start.
fn is_unfit(alloc: Global) -> Result<bool, NoMemory> {
    Ok(outcome(alloc, &ADD_ONE_IMAGE, 4_294_967_296, 5)?.is_none())
}

#[test]
fn a_run_returns_within_its_steps(rt: HostRuntime) -> Result<(), Fail> {
    assert!(rt; returns(rt.alloc())?);
    assert!(rt; is_spent(rt.alloc())?);
    assert!(rt; is_unfit(rt.alloc())?);
    Ok(())
}

/// Whether those are one memory of one page.
fn is_one_page(memories: &[Pages]) -> bool {
    let Some(memory) = memories.first() else {
        return false;
    };
    memories.len() == 1 && memory.pages == 1 && memory.bytes.len() == 65_536
}

/// Whether the second load of `LOADS_IMAGE` leaves its memory.
fn leaves(alloc: Global) -> Result<bool, NoMemory> {
    match &outcome(alloc, &LOADS_IMAGE, 65_533, 100)? {
        Some(Run::Trapped { kind, memories }) => {
            Ok(*kind == Trap::OutOfBounds && is_one_page(memories.as_slice()))
        }
        _ => Ok(false),
    }
}

#[test]
fn a_run_traps_where_an_access_leaves_its_memory(rt: HostRuntime) -> Result<(), Fail> {
    assert!(rt; leaves(rt.alloc())?);
    Ok(())
}
