//! Weights by counted runs: runs of a loop that loads, the least protects by their counts, and count files. The runs were followed by hand; a site weighs
//! its count times 2^21, and 1 more. Which line of a count file is the first bad one follows from FORMATS, by hand.
ghost use Rattle.std.specs.Prelude.{◌<◌, ◌^◌, IsTrue};
ghost use Rattle.std.specs.List.{All};

use bl_base::{List, NoMemory, Pos, Start};
use bl_counts::{CountError, CountFile, CountFileError, SiteCount, count_run, read_counts, weigh};
use bl_cut::least_protects;
use bl_image::decode_image;
use bl_program::WellFormed;
use std::alloc::Global;
use std::test::Fail;
use tests_starts::is_start;

/// A function whose loop loads a number at its argument, which is an address behind the loop: the image that `lower` makes of it. The load
/// stands at 13, its move to a local at 14, and what is read behind the loop at 16.
const LOOP: &[u8] = &[
    66, 76, 73, 77, 1, 0, 1, 1, 128, 2, 0, 0, 1, 1, 127, 0, 1, 127, 9, 15, 1, 4, 114, 55, 47, 102,
    0, 0, 0, 0, 3, 1, 0, 4, 9, 4, 10, 0, 1, 0, 4, 0, 1, 0, 1, 1, 5, 0, 4, 0, 0, 1, 4, 3, 0, 5, 3,
    13, 1, 1, 40, 0, 6, 0, 0, 4, 0, 1, 0, 3, 0, 6, 4, 16, 0, 0, 0, 7, 0, 3, 0, 0, 1, 8, 0, 7, 0, 0,
    1, 4, 3, 0, 8, 3, 19, 1, 0, 40, 0, 9, 0, 0, 7, 7, 0, 0, 0, 9, 8,
];

fn program_of(alloc: Global) -> Result<WellFormed, NoMemory> {
    match decode_image(alloc, LOOP) {
        Ok(program) => Ok(program),
        Err(_) => Err(NoMemory),
    }
}

/// The counts of the run with that argument; a start that doesn't fit is answered like want of memory.
fn counts_at(
    alloc: Global,
    program: &WellFormed,
    argument: u64,
) -> Result<List<SiteCount>, NoMemory> {
    let mut args = List::new(alloc);
    args.push(argument)?;
    let start = Start {
        args,
        patches: List::new(alloc),
    };
    counts_from(alloc, program, &start)
}

/// The counts of the run from that start.
fn counts_from(
    alloc: Global,
    program: &WellFormed,
    start: &Start,
) -> Result<List<SiteCount>, NoMemory> {
    if !is_start(alloc, program, 0, start)? {
        return Err(NoMemory);
    }
    let counted = count_run(alloc, program, 0, start, 1000)?;
    Ok(counted.counts)
}

/// Whether all counts are below 2^32.
fn are_small(counts: &[SiteCount]) -> bool
    ensures { IsTrue result → All (λ one. one.count < 2 ^ 32) counts.now }
{
    counts.iter().all(|one| one.count < 0x1_0000_0000)
}

/// Whether the counts are 1 at these positions alone.
fn are_once(counts: &[SiteCount], positions: &[u32]) -> bool {
    if counts.len() != positions.len() {
        return false;
    }
    for i in 0..counts.len() {
        if counts[i].at.0 != positions[i] || counts[i].count != 1 {
            return false;
        }
    }
    true
}

/// Whether the least protects of a program are the one at 13, at that weight.
fn is_least_at_the_load(
    alloc: Global,
    program: &WellFormed,
    weight: u64,
) -> Result<bool, NoMemory> {
    let choice = least_protects(alloc, program)?;
    Ok(
        choice.weight == weight
            && choice.protects.contains(Pos(13))
            && !choice.protects.contains(Pos(16)),
    )
}

/// Whether those of the program weighed by these counts are.
fn is_at_the_load(
    alloc: Global,
    program: WellFormed,
    counts: &[SiteCount],
    weight: u64,
) -> Result<bool, NoMemory> {
    if !are_small(counts) {
        return Err(NoMemory);
    }
    match weigh(alloc, program, counts) {
        Ok(weighed) => is_least_at_the_load(alloc, &weighed, weight),
        Err(_) => Ok(false),
    }
}

#[test]
fn a_loop_that_runs_once_is_protected_at_its_load(rt: HostRuntime) -> Result<(), Fail> {
    let program = program_of(rt.alloc())?;
    let counts = counts_at(rt.alloc(), &program, 0)?;
    assert!(rt; are_once(counts.as_slice(), &[7, 10, 11, 13, 14, 16, 17, 19, 20]));
    assert!(rt; is_at_the_load(rt.alloc(), program, counts.as_slice(), 2_097_153)?);
    Ok(())
}

#[test]
fn a_run_that_traps_counts_what_was_executed(rt: HostRuntime) -> Result<(), Fail> {
    let program = program_of(rt.alloc())?;
    let counts = counts_at(rt.alloc(), &program, 65_536)?;
    assert!(rt; are_once(counts.as_slice(), &[7, 10, 11]));
    assert!(rt; is_at_the_load(rt.alloc(), program, counts.as_slice(), 1)?);
    Ok(())
}

/// Why counts don't weigh the program, if they don't.
fn refusal(alloc: Global, counts: &[SiteCount]) -> Result<Option<CountError>, NoMemory> {
    if !are_small(counts) {
        return Err(NoMemory);
    }
    match weigh(alloc, program_of(alloc)?, counts) {
        Ok(_) => Ok(None),
        Err((_, error)) => Ok(Some(error)),
    }
}

/// The position that counts are refused for, if they are for that.
fn refused_site(alloc: Global, counts: &[SiteCount]) -> Result<Option<u32>, NoMemory> {
    match refusal(alloc, counts)? {
        Some(CountError::Site(at)) => Ok(Some(at.0)),
        _ => Ok(None),
    }
}

/// The sum that counts are refused for, if they are for that.
fn refused_total(alloc: Global, counts: &[SiteCount]) -> Result<Option<u64>, NoMemory> {
    match refusal(alloc, counts)? {
        Some(CountError::Total(total)) => Ok(Some(total)),
        _ => Ok(None),
    }
}

fn at(at: u32, count: u64) -> SiteCount {
    SiteCount { at: Pos(at), count }
}

#[test]
fn counts_are_of_sites_that_rise_and_add_up_to_32_bits(rt: HostRuntime) -> Result<(), Fail> {
    assert_eq!(rt; refused_site(rt.alloc(), &[at(7, 1), at(9, 1)])?, Some(9));
    assert_eq!(rt; refused_site(rt.alloc(), &[at(10, 1), at(7, 1)])?, Some(7));
    assert_eq!(rt; refused_site(rt.alloc(), &[at(7, 1), at(7, 1)])?, Some(7));
    assert_eq!(rt;
        refused_total(rt.alloc(), &[at(7, 0xFFFF_FFFF), at(10, 1)])?,
        Some(0x1_0000_0000)
    );
    assert_eq!(rt;
        refused_total(rt.alloc(), &[at(7, 0xFFFF_FFFE), at(10, 1)])?,
        None
    );
    Ok(())
}

/// Whether a file has that number of commands and these counts, as positions and counts in turn.
fn says(file: &CountFile, commands: u64, counts: &[(u32, u64)]) -> bool {
    if file.commands != commands || file.counts.len() != counts.len() {
        return false;
    }
    for i in 0..counts.len() {
        let one = file.counts.as_slice()[i];
        if one.at.0 != counts[i].0 || one.count != counts[i].1 {
            return false;
        }
    }
    true
}

fn is_read(alloc: Global, text: &str, commands: u64, counts: &[(u32, u64)]) -> bool {
    match read_counts(alloc, text.as_bytes()) {
        Ok(file) => says(&file, commands, counts),
        Err(_) => false,
    }
}

#[test]
fn count_files_are_read(rt: HostRuntime) -> Result<(), Fail> {
    assert!(rt; is_read(rt.alloc(), "commands 22\n", 22, &[]));
    assert!(rt; is_read(rt.alloc(), "commands 22", 22, &[]));
    assert!(rt;
        is_read(
            rt.alloc(),
            "commands 18446744073709551615\nsite 007 01\n",
            u64::MAX,
            &[(7, 1)]
        )
    );
    assert!(rt;
        is_read(
            rt.alloc(),
            "commands 0\nsite 4294967295 4294967295\nsite 7 2",
            0,
            &[(u32::MAX, 0xFFFF_FFFF), (7, 2)]
        )
    );
    Ok(())
}

/// The number of the first bad line; 0 where the file is read.
fn bad_line(alloc: Global, text: &str) -> u64 {
    match read_counts(alloc, text.as_bytes()) {
        Err(CountFileError::Line(number)) => number,
        _ => 0,
    }
}

#[test]
fn the_first_bad_line_of_a_count_file_is_told(rt: HostRuntime) -> Result<(), Fail> {
    assert_eq!(rt; bad_line(rt.alloc(), ""), 1);
    assert_eq!(rt; bad_line(rt.alloc(), "\n"), 1);
    assert_eq!(rt; bad_line(rt.alloc(), "commands\n"), 1);
    assert_eq!(rt; bad_line(rt.alloc(), "commands 18446744073709551616\n"), 1);
    assert_eq!(rt; bad_line(rt.alloc(), "site 7 1\n"), 1);
    assert_eq!(rt; bad_line(rt.alloc(), "commands 22\nsite 7 0\n"), 2);
    assert_eq!(rt; bad_line(rt.alloc(), "commands 22\nsite 7\n"), 2);
    assert_eq!(rt; bad_line(rt.alloc(), "commands 22\nsite 4294967296 1\n"), 2);
    assert_eq!(rt; bad_line(rt.alloc(), "commands 22\nsite 7 4294967296\n"), 2);
    assert_eq!(rt; bad_line(rt.alloc(), "commands 22\nsite 7  1\n"), 2);
    assert_eq!(rt;
        bad_line(rt.alloc(), "commands 22\nsite 7 1\nsite 7 1 \n"),
        3
    );
    assert_eq!(rt; bad_line(rt.alloc(), "commands 22\nsite 7 1\n\n"), 3);
    Ok(())
}
