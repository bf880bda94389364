//! A start file, read line by line.
ghost use Rattle.std.specs.Prelude.{◌≡◌, IfOk, OnOk, slice_get};
ghost use Rattle.bl_base.specs.Fits.{Fits};
ghost use Rattle.bl_text.specs.Lines.{lines_of};
ghost use Rattle.bl_trace.specs.StartFiles.{said, answer_of, IsAnswer};
ghost use Rattle.bl_trace.specs.PartialStarts.{entry_behind, IsRead};

use crate::entry::Entry;
use crate::error::StartError;
use crate::line::read_line;
use bl_base::{List, NoMemory, Start, ValueType};
use bl_text::Lines;
use std::alloc::Global;

/// The type of a parameter, counted from 0; None beyond the last.
fn parameter(params: &[ValueType], place: usize) -> Option<ValueType>
    ensures { result ≡ slice_get params.now place }
{
    params.get(place).copied()
}

/// Adds what a line says.
fn add(start: &mut Start, entry: Entry) -> Result<(), NoMemory>
    ensures { OnOk result (start.new ≡ entry_behind start.old entry) }
{
    match entry {
        Entry::Argument(value) => start.args.push(value),
        Entry::Contents(patch) => start.patches.push(patch),
    }
}

/// What all lines say; Line where there is a bad one.
fn read_lines(
    alloc: Global,
    bytes: &[u8],
    params: &[ValueType],
    sizes: &[u32],
) -> Result<Start, StartError>
    ensures { IsRead (said params.now sizes.now 0 (lines_of bytes.now)) result }
{
    let mut start = Start {
        args: List::new(alloc),
        patches: List::new(alloc),
    };
    let mut number = 0u64;
    for line in Lines::of(bytes) {
        number += 1;
        let kind = parameter(params, start.args.len());
        let Some(entry) = read_line(alloc, line, kind, sizes)? else {
            return Err(StartError::Line(number));
        };
        add(&mut start, entry)?;
    }
    Ok(start)
}

/// The start that a start file asks for, for a function of these parameters in a program whose memories have
/// these first pages.
///
/// Each line is `arg V`, the argument of the next parameter, or `memory M OFFSET HEX`, a patch of memory M from
/// an offset on. A line ends with LF, which the last one may lack; single spaces part its words. V, M and OFFSET
/// are decimal digits, leading zeros among them: V is below 2^32 for an i32 and below 2^64 for an i64, M and
/// OFFSET are below 2^32. HEX is the bytes in hexadecimal digits of either case, two digits a byte and a byte at
/// least; they lie in the memory's first pages, of 65,536 bytes each. Arguments and patches stand in the order of
/// their lines.
///
/// Line where a line is bad: it has another form, or it is an argument beyond the parameters; the first one's
/// number, from 1. Count where no line is bad and there are fewer arguments than parameters: how many there are.
/// Linear in the bytes, of which no copy is made.
pub fn read_start(
    alloc: Global,
    bytes: &[u8],
    params: &[ValueType],
    sizes: &[u32],
) -> Result<Start, StartError>
    ensures answer { IsAnswer (answer_of params.now sizes.now bytes.now) result }
    ensures fits { IfOk result (λ start. Fits params.now sizes.now start) }
{
    let start = read_lines(alloc, bytes, params, sizes)?;
    let count = start.args.len();
    if count < params.len() {
        return Err(StartError::Count(count as u64));
    }
    Ok(start)
}
