//! A buffer with room for one entry. How many directives are made is as `oracles/traces.py` prints it.
use bl_base::{List, NoMemory, Start};
use bl_image::decode_image;
use bl_program::WellFormed;
use bl_rob::{Directive, Observation, Observed, Rob};
use std::alloc::Global;
use std::test::Fail;
use tests_samples::ADD_ONE_IMAGE;
use tests_starts::is_start;

/// A start of the argument 41.
pub(crate) fn start_of(alloc: Global) -> Result<Start, NoMemory> {
    let mut args = List::new(alloc);
    args.push(41)?;
    Ok(Start {
        args,
        patches: List::new(alloc),
    })
}

/// What is observed of directives on a program's first function, where the buffer has room for one entry; a start that doesn't fit is
/// answered like want of memory.
fn seen_in_one(
    alloc: Global,
    program: &WellFormed,
    start: &Start,
    directives: &[Directive],
) -> Result<Observed<Observation>, NoMemory> {
    if !is_start(alloc, program, 0, start)? {
        return Err(NoMemory);
    }
    let mut rob: Rob<'_, 1> = Rob::begin(alloc, program, 0, start)?;
    rob.observe(alloc, directives)
}

/// Whether so many directives are observed of a program before the one that is refused, if any.
fn is_seen_of(
    alloc: Global,
    program: &WellFormed,
    directives: &[Directive],
    made: usize,
    refused: Option<u64>,
) -> Result<bool, NoMemory> {
    let start = start_of(alloc)?;
    let seen = seen_in_one(alloc, program, &start, directives)?;
    Ok(seen.made.len() == made && seen.refused == refused)
}

/// The same of the function that adds 1.
fn is_seen(
    alloc: Global,
    directives: &[Directive],
    made: usize,
    refused: Option<u64>,
) -> Result<bool, NoMemory> {
    match decode_image(alloc, &ADD_ONE_IMAGE) {
        Ok(program) => is_seen_of(alloc, &program, directives, made, refused),
        Err(_) => Ok(false),
    }
}

static TWICE: [Directive; 2] = [Directive::Fetch, Directive::Fetch];

static IN_TURN: [Directive; 6] = [
    Directive::Fetch,
    Directive::Retire,
    Directive::Fetch,
    Directive::Exec(0),
    Directive::Retire,
    Directive::Fetch,
];

#[test]
fn a_buffer_of_one_entry_has_no_room_for_a_second(rt: HostRuntime) -> Result<(), Fail> {
    assert!(rt; is_seen(rt.alloc(), &TWICE, 1, Some(2))?);
    assert!(rt; is_seen(rt.alloc(), &IN_TURN, 6, None)?);
    Ok(())
}
