//! Counted runs, and hardening by counts. The counts are those of the commands that a run executes, followed by hand; a site weighs its count times
//! 2^21, and 1 more. What is refused follows from the table of statuses in docs/CLI.md, by hand.
use crate::harden::LOOP_WRITES;
use bl_base::NoMemory;
use bl_outside::{MemoryShelf, MemorySink};
use std::alloc::Global;
use std::test::Fail;
use tests_calls::{ends, holds, say, shelf_of, stands, status_of};
use tests_samples::EMPTY;

/// The count file of a run that returns: each of the nine sites is executed once.
const ALL: &str =
    "commands 22\nsite 7 1\nsite 10 1\nsite 11 1\nsite 13 1\nsite 14 1\nsite 16 1\nsite 17 1\nsite 19 1\nsite 20 1\n";

/// That of a run that traps at its first load.
const FEW: &str = "commands 22\nsite 7 1\nsite 10 1\nsite 11 1\n";

/// Both, added line by line.
const SUMS: &str =
    "commands 22\nsite 7 2\nsite 10 2\nsite 11 2\nsite 13 1\nsite 14 1\nsite 16 1\nsite 17 1\nsite 19 1\nsite 20 1";

/// A shelf with the module, its image and a start file.
fn shelf_at(alloc: Global, start: &str) -> Result<MemoryShelf, NoMemory> {
    let mut module = EMPTY.to_vec(alloc)?;
    module.extend_from_slice(&LOOP_WRITES)?;
    let mut shelf = shelf_of(alloc, &[("s", start.as_bytes())])?;
    shelf.put("m.wasm", &module)?;
    if !ends(
        alloc,
        &mut shelf,
        "blade lower i m.wasm",
        0,
        "commands 22\n",
    )? {
        return Err(NoMemory);
    }
    Ok(shelf)
}

/// A run's start file, its status and its text, and the count file that it leaves.
type Run = (&'static str, u8, &'static str, &'static str);

static RUNS: [Run; 2] = [
    ("arg 0", 0, "returned i32 0\nmemory 0 pages 1\n", ALL),
    (
        "arg 65536",
        16,
        "trapped out of bounds memory access\nmemory 0 pages 1\n",
        FEW,
    ),
];

/// Whether a run on a shelf leaves its count file, and prints what it does without.
fn is_counted_on(alloc: Global, shelf: &mut MemoryShelf, run: &Run) -> Result<bool, NoMemory> {
    let (_, status, text, counts) = *run;
    if !ends(alloc, shelf, "blade run i m/f s", status, text)? || stands(shelf, "c") {
        return Ok(false);
    }
    let answered = ends(alloc, shelf, "blade run --counts c i m/f s", status, text)?;
    Ok(answered && holds(shelf, "c", counts.as_bytes()))
}

/// Whether that holds on a shelf with its start file.
fn is_counted(alloc: Global, run: &Run) -> Result<bool, NoMemory> {
    let mut shelf = shelf_at(alloc, run.0)?;
    is_counted_on(alloc, &mut shelf, run)
}

#[test]
fn a_run_leaves_how_often_each_site_was_executed(rt: HostRuntime) -> Result<(), Fail> {
    assert!(rt; is_counted(rt.alloc(), &RUNS[0])?);
    assert!(rt; is_counted(rt.alloc(), &RUNS[1])?);
    Ok(())
}

/// A count file, and what the report begins with.
type Report = (&'static str, &'static str);

static REPORTS: [Report; 4] = [
    (
        ALL,
        "functions 1\ncommands 22\nsites 9\nprotects 1 weight 2097153\nprotect 13 weight 2097153 path ",
    ),
    (
        FEW,
        "functions 1\ncommands 22\nsites 9\nprotects 1 weight 1\nprotect 13 weight 1 path ",
    ),
    (
        SUMS,
        "functions 1\ncommands 22\nsites 9\nprotects 1 weight 2097153\nprotect 13 weight 2097153 path ",
    ),
    // No site was executed.
    (
        "commands 22",
        "functions 1\ncommands 22\nsites 9\nprotects 1 weight 1\nprotect 13 weight 1 path ",
    ),
];

/// Whether hardening a module by a count file reports so, and the certificate is verified.
fn is_reported_on(alloc: Global, shelf: &mut MemoryShelf, head: &str) -> Result<bool, NoMemory> {
    let mut out = MemorySink::new(alloc, None);
    let status = say(alloc, shelf, "blade harden --counts c i p m.wasm", &mut out)?;
    if status != 0 || out.bytes().strip_prefix(head.as_bytes()).is_none() {
        return Ok(false);
    }
    Ok(status_of(alloc, shelf, "blade verify i p")? == 0)
}

/// Whether that holds on a shelf with the count file.
fn is_reported(alloc: Global, report: &Report) -> Result<bool, NoMemory> {
    let mut shelf = shelf_at(alloc, "arg 0")?;
    shelf.put("c", report.0.as_bytes())?;
    is_reported_on(alloc, &mut shelf, report.1)
}

/// How many count files lead to their reports before the first that doesn't.
fn reported(alloc: Global) -> Result<u32, NoMemory> {
    let mut passed = 0u32;
    for report in &REPORTS {
        if !is_reported(alloc, report)? {
            break;
        }
        passed = passed.wrapping_add(1);
    }
    Ok(passed)
}

#[test]
fn protects_are_chosen_where_they_are_executed_least(rt: HostRuntime) -> Result<(), Fail> {
    assert_eq!(rt; reported(rt.alloc())?, 4);
    Ok(())
}

/// A count file, and the line of its refusal.
static REFUSED: [(&str, &str); 10] = [
    ("commands 23\nsite 7 1\n", "counts: commands 23\n"),
    ("", "counts: line 1\n"),
    ("commands 22\nsite 7 0\n", "counts: line 2\n"),
    ("commands 22\nsite 7 1 \n", "counts: line 2\n"),
    ("commands 22\nsite 9 1\n", "counts: site 9\n"),
    ("commands 22\nsite 10 1\nsite 7 1\n", "counts: site 7\n"),
    (
        "commands 22\nsite 7 4294967295\nsite 10 1\n",
        "counts: total 4294967296\n",
    ),
    // A bad line comes before another number of commands, that before a position, and that before the sum.
    ("commands 23\nsite 9 1\nsite 7\n", "counts: line 3\n"),
    ("commands 21\nsite 9 1\n", "counts: commands 21\n"),
    (
        "commands 22\nsite 7 4294967295\nsite 10 1\nsite 10 1\n",
        "counts: site 10\n",
    ),
];

/// Whether a count file is refused so, and nothing is written.
fn is_refused(alloc: Global, counts: &str, line: &str) -> Result<bool, NoMemory> {
    let mut shelf = shelf_at(alloc, "arg 0")?;
    shelf.put("c", counts.as_bytes())?;
    let answered = ends(
        alloc,
        &mut shelf,
        "blade harden --counts=c o p m.wasm",
        19,
        line,
    )?;
    Ok(answered && !stands(&shelf, "o") && !stands(&shelf, "p"))
}

/// How many count files are refused so before the first that isn't.
fn refused(alloc: Global) -> Result<u32, NoMemory> {
    let mut passed = 0u32;
    for (counts, line) in &REFUSED {
        if !is_refused(alloc, *counts, *line)? {
            break;
        }
        passed = passed.wrapping_add(1);
    }
    Ok(passed)
}

#[test]
fn the_first_thing_wrong_with_a_count_file_is_told(rt: HostRuntime) -> Result<(), Fail> {
    assert_eq!(rt; refused(rt.alloc())?, 10);
    Ok(())
}
