//! What the buffer machine says of itself without a step: which directives are enabled, where its front end is, and its entries. By hand: a directive that
//! is enabled is made, or refused for memory alone, and a fetch goes on behind its command, or to where that jumps.
use crate::room::start_of;
use bl_base::{NoMemory, Pos, Start};
use bl_image::decode_image;
use bl_program::WellFormed;
use bl_rob::{Directive, Kind, Machine, Observation, Rob, StepError};
use bl_seq::Layout;
use std::alloc::Global;
use std::test::Fail;
use tests_samples::ADD_ONE_IMAGE;
use tests_starts::is_start;

/// The program of `ADD_ONE_IMAGE`; where there is none, that is answered like want of memory.
fn program(alloc: Global) -> Result<WellFormed, NoMemory> {
    match decode_image(alloc, &ADD_ONE_IMAGE) {
        Ok(program) => Ok(program),
        Err(_) => Err(NoMemory),
    }
}

/// Directives on a buffer with room for one entry, some of which aren't enabled. The first command, at 7, goes on to 8, which is a move.
static TRIED: [Directive; 12] = [
    Directive::Retire,
    Directive::Exec(0),
    Directive::Predict(true),
    Directive::Fetch,
    Directive::Fetch,
    Directive::Exec(0),
    Directive::Exec(1),
    Directive::Retire,
    Directive::Fetch,
    Directive::Retire,
    Directive::Exec(0),
    Directive::Retire,
];

/// How many directives are enabled exactly where they are made, before the first that isn't.
fn agreed(alloc: Global, rob: &mut Rob<'_, 1>, directives: &[Directive]) -> u32 {
    let mut passed = 0u32;
    for directive in directives {
        let enabled = rob.enabled(*directive);
        if enabled != rob.step(alloc, *directive).is_ok() {
            break;
        }
        passed = passed.wrapping_add(1);
    }
    passed
}

/// Whether two entries were retired then, and the front end is at 9.
fn agrees(alloc: Global, rob: &mut Rob<'_, 1>) -> bool {
    agreed(alloc, rob, &TRIED) == 12 && rob.retired() == 2 && rob.front() == Some(Pos(9))
}

/// Whether the front end and the entry are told at each step.
fn tells(alloc: Global, rob: &mut Rob<'_, 1>) -> bool {
    let opened = rob.front() == Some(Pos(7)) && rob.entry(0).is_none();
    let fetched = rob.step(alloc, Directive::Fetch).is_ok();
    let first = matches!(rob.entry(0), Some((Pos(7), Kind::Nop))) && rob.front() == Some(Pos(8));
    let left = rob.step(alloc, Directive::Retire).is_ok() && rob.entry(0).is_none();
    let moved = rob.step(alloc, Directive::Fetch).is_ok();
    let second = matches!(rob.entry(0), Some((Pos(8), Kind::Assign)));
    let done = rob.step(alloc, Directive::Exec(0)).is_ok();
    let third = matches!(rob.entry(0), Some((Pos(8), Kind::Done)));
    opened && fetched && first && left && moved && second && done && third && rob.entry(1).is_none()
}

/// Whether both hold of machines of a program's first function; a start that doesn't fit is answered like want of memory.
fn both_hold(alloc: Global, program: &WellFormed, start: &Start) -> Result<bool, NoMemory> {
    if !is_start(alloc, program, 0, start)? {
        return Err(NoMemory);
    }
    let mut one: Rob<'_, 1> = Rob::begin(alloc, program, 0, start)?;
    let mut other: Rob<'_, 1> = Rob::begin(alloc, program, 0, start)?;
    Ok(agrees(alloc, &mut one) && tells(alloc, &mut other))
}

/// Whether both hold of that program.
fn both_hold_of_it(alloc: Global) -> Result<bool, NoMemory> {
    both_hold(alloc, &program(alloc)?, &start_of(alloc)?)
}

#[test]
fn what_is_enabled_is_made_and_nothing_else(rt: HostRuntime) -> Result<(), Fail> {
    assert!(rt; both_hold_of_it(rt.alloc())?);
    Ok(())
}

/// What a machine that has retired so many entries answers to the retirement of the next: whether that is enabled, and, of the answer, whether it is
/// done or refused for memory; None where it is neither. A start that doesn't fit is answered like want of memory.
fn retires_behind(
    alloc: Global,
    program: &WellFormed,
    start: &Start,
    retired: u64,
) -> Result<(bool, Option<bool>, u64), NoMemory> {
    if !is_start(alloc, program, 0, start)? {
        return Err(NoMemory);
    }
    let layout = Layout::of(alloc, program.program().parts())?;
    let mut machine = Machine::begin(alloc, &layout, 0, start)?;
    machine.retired = retired;
    if machine.fetch(&layout, 1).is_err() {
        return Ok((false, None, retired));
    }
    let enabled = machine.may_retire();
    let answer = match machine.retire(alloc, &layout) {
        Ok(Observation::Nothing) => Some(true),
        Err(StepError::Memory) => Some(false),
        _ => None,
    };
    Ok((enabled, answer, machine.retired))
}

/// Whether the last entry that can be counted is retired, and the next one is refused for memory and not as one that isn't enabled.
fn counts_to_the_end(alloc: Global) -> Result<bool, NoMemory> {
    let program = program(alloc)?;
    let start = start_of(alloc)?;
    let last = retires_behind(alloc, &program, &start, u64::MAX - 1)?;
    let next = retires_behind(alloc, &program, &start, u64::MAX)?;
    Ok(last == (true, Some(true), u64::MAX) && next == (true, Some(false), u64::MAX))
}

#[test]
fn an_entry_behind_the_last_that_is_counted_is_enabled_and_refused_for_memory(
    rt: HostRuntime,
) -> Result<(), Fail> {
    assert!(rt; counts_to_the_end(rt.alloc())?);
    Ok(())
}
