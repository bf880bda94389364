//! Programs that are weighed by the counts of recorded runs.
ghost use Rattle.std.specs.Prelude.{◌≡◌, Some};
ghost use Rattle.bl_build.specs.WeightStages.{IsCounted, IsOfProgram, bad_counts, refusal_of_count_file, refusal_of_weighing, weighing};
ghost use Rattle.bl_job.specs.WorkAnswers.{IsStaged, IsTold};

use bl_base::List;
use bl_counts::{CountError, CountFile, CountFileError, SiteCount, read_counts, weigh};
use bl_job::{Reason, WorkError, refused_at};
use bl_program::WellFormed;
use std::alloc::Global;

/// What is wrong with a count file: a bad line is told first, then another number of commands, then a position, then the sum.
#[derive(Clone, Copy, Debug, PartialEq, Eq)]
pub(crate) enum CountFault {
    /// A line is bad: the first one's number, from 1.
    Line(u64),
    /// The counts are of a program with another number of commands: this one.
    Commands(u64),
    /// A position isn't a site, or isn't above the one before it: the first one.
    Site(u32),
    /// The counts add up to more than 4,294,967,295: their sum.
    Total(u64),
}

/// The refusal of a count file.
fn bad_counts(alloc: Global, fault: CountFault) -> WorkError
    ensures { IsTold (Some (bad_counts fault)) result }
{
    match fault {
        CountFault::Line(number) => refused_at(alloc, Reason::Counts, "counts: line ", "", number),
        CountFault::Commands(count) => refused_at(
            alloc,
            Reason::Counts,
            "counts: commands ",
            "",
            count,
        ),
        CountFault::Site(at) => refused_at(
            alloc,
            Reason::Counts,
            "counts: site ",
            "",
            u64::from(at),
        ),
        CountFault::Total(sum) => refused_at(alloc, Reason::Counts, "counts: total ", "", sum),
    }
}

/// The program with the weights by the counts of a file's bytes; Refused exactly where the file has a bad line, is of another number of
/// commands, has a position that isn't a site or doesn't rise, or counts that add up to too much, in this order. Linear in the bytes and
/// in the program.
pub(crate) fn weighed(
    alloc: Global,
    program: WellFormed,
    bytes: &[u8],
) -> Result<WellFormed, WorkError>
    ensures { IsStaged (weighing bytes.now) (λ weighted. weighted) program result }
{
    let counts = match counts_of(alloc, &program, bytes) {
        Ok(counts) => counts,
        Err(error) => return Err(error),
    };
    match weigh(alloc, program, counts.as_slice()) {
        Ok(weighted) => Ok(weighted),
        Err((_, error)) => Err(of_weighing(alloc, error)),
    }
}

/// The counts of a file that is of a program with as many commands.
fn counts_of(
    alloc: Global,
    program: &WellFormed,
    bytes: &[u8],
) -> Result<List<SiteCount>, WorkError>
    ensures { IsCounted bytes.now program.now result }
{
    match read_counts(alloc, bytes) {
        Ok(file) => of_program(alloc, program, file),
        Err(error) => Err(of_count_file(alloc, error)),
    }
}

/// The counts of a file, where the program has as many commands.
fn of_program(
    alloc: Global,
    program: &WellFormed,
    file: CountFile,
) -> Result<List<SiteCount>, WorkError>
    ensures { IsOfProgram program.now file result }
{
    let commands = program.program().parts().commands.len() as u64;
    if file.commands != commands {
        return Err(bad_counts(alloc, CountFault::Commands(file.commands)));
    }
    Ok(file.counts)
}

/// Why a count file isn't read.
fn of_count_file(alloc: Global, error: CountFileError) -> WorkError
    ensures { IsTold (refusal_of_count_file error) result }
{
    match error {
        CountFileError::Line(number) => bad_counts(alloc, CountFault::Line(number)),
        CountFileError::Memory => WorkError::Memory,
    }
}

/// Why a program isn't weighed.
fn of_weighing(alloc: Global, error: CountError) -> WorkError
    ensures { IsTold (refusal_of_weighing error) result }
{
    match error {
        CountError::Site(at) => bad_counts(alloc, CountFault::Site(at.0)),
        CountError::Total(sum) => bad_counts(alloc, CountFault::Total(sum)),
        CountError::Memory => WorkError::Memory,
    }
}
