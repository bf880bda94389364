//! The texts on two runs of eleven directives, of which the first ten are observed alike. They were written by hand, by the rules of `twin` in docs/CLI.md:
//! the lines that both begin with, and then how many there are, or where and how the runs differ.
use bl_base::{List, NoMemory};
use bl_rob::{Observation, Observed};
use bl_twin::{Comparison, compare};
use std::alloc::Global;
use std::test::Fail;

/// The lines of the first ten observations.
static FRONT: [u8; 65] =
    *b"none\nnone\nnone\nnone\nnone\nnone\nnone\nnone\nnone\nread 65536 guards 3\n";

/// A run that is observed so at its eleventh directive, if at all, and that refuses the directive at that place, if any.
fn run(
    alloc: Global,
    last: Option<u64>,
    refused: Option<u64>,
) -> Result<Observed<Observation>, NoMemory> {
    let mut made = List::new(alloc);
    for _ in 0..9 {
        made.push(Observation::Nothing)?;
    }
    made.push(Observation::Read {
        address: 65_536,
        guards: 0b1000,
    })?;
    if let Some(address) = last {
        made.push(Observation::Read {
            address,
            guards: 0b100_1000,
        })?;
    }
    Ok(Observed { made, refused })
}

/// Whether the comparison of two runs is that one, and the text on them is a first line, the lines of the first ten
/// observations and an end.
fn is_told(
    alloc: Global,
    agree: bool,
    runs: (&Observed<Observation>, &Observed<Observation>),
    comparison: Comparison,
    lines: (&str, &str),
) -> Result<bool, NoMemory> {
    let found = compare(alloc, agree, runs.0, runs.1)?;
    let mut text = lines.0.as_bytes().to_vec(alloc)?;
    text.extend_from_slice(&FRONT)?;
    text.extend_from_slice(lines.1.as_bytes())?;
    Ok(found.comparison == comparison && found.text.as_slice() == text.as_slice())
}

/// Whether two runs with those last observations and refusals, whose starts agree in public, differ with that end.
fn differ(
    alloc: Global,
    one: (Option<u64>, Option<u64>),
    other: (Option<u64>, Option<u64>),
    end: &str,
) -> Result<bool, NoMemory> {
    let one = run(alloc, one.0, one.1)?;
    let other = run(alloc, other.0, other.1)?;
    is_told(
        alloc,
        true,
        (&one, &other),
        Comparison::Differ,
        ("public agree\n", end),
    )
}

#[test]
fn two_runs_that_read_from_different_places_differ(rt: HostRuntime) -> Result<(), Fail> {
    let end = "differ 11\nread 5 guards 3 6\nread 7 guards 3 6\n";
    assert!(rt; differ(rt.alloc(), (Some(5), None), (Some(7), None), end)?);
    Ok(())
}

#[test]
fn a_run_that_is_stuck_alone_differs(rt: HostRuntime) -> Result<(), Fail> {
    let end = "differ 11\nstuck\nread 7 guards 3 6\n";
    assert!(rt; differ(rt.alloc(), (None, Some(11)), (Some(7), None), end)?);
    Ok(())
}

/// Whether a run with that refusal, if any, is told so beside itself, where the starts don't agree in public.
fn is_told_of_itself(
    alloc: Global,
    refused: Option<u64>,
    comparison: Comparison,
    end: &str,
) -> Result<bool, NoMemory> {
    let run = run(alloc, None, refused)?;
    is_told(
        alloc,
        false,
        (&run, &run),
        comparison,
        ("public differ\n", end),
    )
}

#[test]
fn two_runs_are_equal_to_their_end_or_to_what_both_refuse(rt: HostRuntime) -> Result<(), Fail> {
    assert!(rt; is_told_of_itself(rt.alloc(), None, Comparison::Equal, "equal 10\n")?);
    assert!(rt; is_told_of_itself(rt.alloc(), Some(11), Comparison::Stuck, "stuck 11\n")?);
    Ok(())
}
