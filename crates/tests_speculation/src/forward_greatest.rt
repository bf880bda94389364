//! The machine that forwards stores near its greatest inputs, where want of memory could hide. By hand: no sink reads what is loaded, so two runs are alike
//! to the last directive.
use bl_base::{List, NoMemory, Run, Start};
use bl_forward::{ForwardVerdict, Fwd, compare_forwarding, forward_safe};
use bl_image::decode_image;
use bl_program::WellFormed;
use bl_rob::Directive;
use bl_twin::{Compared, Comparison};
use std::alloc::Global;
use std::test::Fail;
use tests_starts::is_start;

/// Of the image of a function that stores its argument at place 8 and loads it again, without end: what stands before the number of its
/// commands. The loop is 8: v2 = outside 8; 9: test v2; 10: store; 11: v3 = outside 8; 12: test v3; 13: load; 14: go to 8.
static BEFORE: [u8; 18] = [
    0x42, 0x4C, 0x49, 0x4D, 0x01, 0x00, 0x01, 0x01, 0x01, 0x00, 0x00, 0x01, 0x01, 0x7F, 0x00, 0x00,
    0x04, 0xF9,
];

/// What stands behind the first byte of that number, which is 1,048,569; with the seven traps there are 1,048,576.
static BEHIND: [u8; 58] = [
    0xFF, 0x3F, 0x01, 0x03, 0x6D, 0x2F, 0x66, 0x00, 0x04, 0x08, 0x00, 0x00, 0x01, 0x02, 0x01, 0x08,
    0x00, 0x00, 0x01, 0x04, 0x03, 0x00, 0x02, 0x03, 0x0A, 0x02, 0x36, 0x00, 0x00, 0x01, 0x08, 0x00,
    0x01, 0x00, 0x00, 0x01, 0x03, 0x01, 0x08, 0x00, 0x00, 0x01, 0x04, 0x03, 0x00, 0x03, 0x03, 0x0D,
    0x01, 0x00, 0x28, 0x00, 0x04, 0x00, 0x01, 0x08, 0x04, 0x08,
];

/// The image of the loop, and returns behind it.
fn longest_image(alloc: Global) -> Result<Vec<u8>, NoMemory> {
    let mut bytes = BEFORE.to_vec(alloc)?;
    bytes.extend_from_slice(&BEHIND)?;
    let commands = bytes.len() + 1_048_561;
    bytes.resize(commands, 0x08)?;
    Ok(bytes)
}

/// The directive at a place of a round: four loops are fetched, executed in order and retired.
fn in_round(place: u32) -> Directive {
    match place {
        0..=27 => match place % 7 {
            1 | 4 => Directive::Predict(false),
            _ => Directive::Fetch,
        },
        28..=51 => Directive::Exec((place - 28) / 6 * 7 + (place - 28) % 6),
        _ => Directive::Retire,
    }
}

/// A million directives on the loop.
fn many_directives(alloc: Global) -> Result<Vec<Directive>, NoMemory> {
    let mut directives = Vec::new(alloc);
    directives.push(Directive::Fetch)?;
    directives.push(Directive::Retire)?;
    for i in 0..999_998u32 {
        directives.push(in_round(i % 80))?;
    }
    Ok(directives)
}

/// A start of one argument.
fn start_of(alloc: Global, argument: u64) -> Result<Start, NoMemory> {
    let mut args = List::new(alloc);
    args.push(argument)?;
    Ok(Start {
        args,
        patches: List::new(alloc),
    })
}

/// Whether two runs are alike to the end of a million directives.
fn are_alike(compared: &Compared) -> bool {
    compared.comparison == Comparison::Equal
        && compared.text.as_slice().ends_with(b"equal 1000000\n")
}

/// Compares two runs of a program's first function; starts that don't fit are answered like want of memory.
fn runs_from(
    alloc: Global,
    program: &WellFormed,
    one: &Start,
    other: &Start,
) -> Result<Compared, NoMemory> {
    if !is_start(alloc, program, 0, one)? || !is_start(alloc, program, 0, other)? {
        return Err(NoMemory);
    }
    let directives = many_directives(alloc)?;
    compare_forwarding(alloc, program, 0, one, other, &directives)
}

/// Compares those from 5 and 7.
fn runs(alloc: Global, program: &WellFormed) -> Result<Compared, NoMemory> {
    let one = start_of(alloc, 5)?;
    let other = start_of(alloc, 7)?;
    runs_from(alloc, program, &one, &other)
}

/// Whether two runs of a program are alike.
fn has_alike_runs(alloc: Global, program: &WellFormed) -> Result<bool, NoMemory> {
    let compared = runs(alloc, program)?;
    Ok(are_alike(&compared))
}

/// Whether a program is safe.
fn is_safe(alloc: Global, program: &WellFormed) -> Result<bool, NoMemory> {
    let verdict = forward_safe(alloc, program)?;
    Ok(matches!(&verdict, ForwardVerdict::Safe))
}

/// The program of an image; where there is none, that is answered like want of memory.
fn program_of(alloc: Global, image: &[u8]) -> Result<WellFormed, NoMemory> {
    match decode_image(alloc, image) {
        Ok(program) => Ok(program),
        Err(_) => Err(NoMemory),
    }
}

/// The program of the longest image.
fn longest_program(alloc: Global) -> Result<WellFormed, NoMemory> {
    let image = longest_image(alloc)?;
    program_of(alloc, &image)
}

/// Whether it is safe, and two runs of it are alike.
fn is_longest_alike(alloc: Global) -> Result<bool, NoMemory> {
    let program = longest_program(alloc)?;
    let safe = is_safe(alloc, &program)?;
    let alike = has_alike_runs(alloc, &program)?;
    Ok(safe && alike)
}

#[test]
fn the_most_commands_and_directives_are_compared(rt: HostRuntime) -> Result<(), Fail> {
    assert!(rt; is_longest_alike(rt.alloc())?);
    Ok(())
}

/// The image of a function that returns, beside four memories of 256 pages.
static LARGEST: [u8; 43] = [
    0x42, 0x4C, 0x49, 0x4D, 0x01, 0x00, 0x04, 0x80, 0x02, 0x80, 0x02, 0x00, 0x00, 0x80, 0x02, 0x80,
    0x02, 0x00, 0x00, 0x80, 0x02, 0x80, 0x02, 0x00, 0x00, 0x80, 0x02, 0x80, 0x02, 0x00, 0x00, 0x01,
    0x00, 0x00, 0x00, 0x01, 0x01, 0x03, 0x6D, 0x2F, 0x66, 0x00, 0x08,
];

/// Whether a run has returned with four memories.
fn has_four_memories(outcome: &Option<Run>) -> bool {
    match outcome {
        Some(Run::Returned { memories, .. }) => memories.len() == 4,
        _ => false,
    }
}

/// The machine of a program's first function without arguments; a start that doesn't fit is answered like want of memory.
fn begun<'p>(alloc: Global, program: &'p WellFormed) -> Result<Fwd<'p, 32>, NoMemory> {
    let start = Start {
        args: List::new(alloc),
        patches: List::new(alloc),
    };
    if !is_start(alloc, program, 0, &start)? {
        return Err(NoMemory);
    }
    Fwd::begin(alloc, program, 0, &start)
}

/// Whether a command is fetched and retired.
fn is_retired(alloc: Global, fwd: &mut Fwd<'_, 32>) -> bool {
    let fetched = fwd.step(alloc, Directive::Fetch).is_ok();
    fetched && fwd.step(alloc, Directive::Retire).is_ok()
}

/// Whether a program's first function returns with its memories behind one command.
fn has_outcome(alloc: Global, program: &WellFormed) -> Result<bool, NoMemory> {
    let mut fwd = begun(alloc, program)?;
    let retired = is_retired(alloc, &mut fwd);
    let outcome = fwd.outcome(alloc)?;
    Ok(retired && has_four_memories(&outcome))
}

/// Whether the program of the largest memories does.
fn has_largest_outcome(alloc: Global) -> Result<bool, NoMemory> {
    let program = program_of(alloc, &LARGEST)?;
    has_outcome(alloc, &program)
}

#[test]
fn the_largest_memories_are_told(rt: HostRuntime) -> Result<(), Fail> {
    assert!(rt; has_largest_outcome(rt.alloc())?);
    Ok(())
}
