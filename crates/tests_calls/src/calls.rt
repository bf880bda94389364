//! Calls of the program over files in memory, and how they end.
use crate::shelves::{shelf_failing, shelf_of};
use bl_app::blade;
use bl_base::NoMemory;
use bl_outside::{MemoryShelf, MemorySink};
use std::alloc::Global;

/// The words of a line.
fn words_of(alloc: Global, line: &str) -> Result<Vec<String>, NoMemory> {
    let mut words = Vec::new(alloc);
    for word in line.split(' ') {
        words.push(String::from_str(alloc, word)?)?;
    }
    Ok(words)
}

/// Calls `blade` with the words of a line, and answers its status; it prints to that sink, which gets room for 20,000 bytes
/// before, where it has no more.
pub fn say(
    alloc: Global,
    shelf: &mut MemoryShelf,
    line: &str,
    out: &mut MemorySink,
) -> Result<u8, NoMemory> {
    out.reserve(20_000)?;
    let words = words_of(alloc, line)?;
    Ok(blade(alloc, words.as_slice(), shelf, out))
}

/// Whether a call ends with that status and prints that text to that sink.
pub fn ends_to(
    alloc: Global,
    shelf: &mut MemoryShelf,
    line: &str,
    out: &mut MemorySink,
    status: u8,
    text: &str,
) -> Result<bool, NoMemory> {
    let answer = say(alloc, shelf, line, out)?;
    Ok(answer == status && out.bytes() == text.as_bytes())
}

/// Whether a call ends with that status and prints that text, on a sink with that limit.
pub fn ends_within(
    alloc: Global,
    shelf: &mut MemoryShelf,
    line: &str,
    limit: Option<u64>,
    status: u8,
    text: &str,
) -> Result<bool, NoMemory> {
    let mut out = MemorySink::new(alloc, limit);
    ends_to(alloc, shelf, line, &mut out, status, text)
}

/// Whether a call ends with that status and prints that text.
pub fn ends(
    alloc: Global,
    shelf: &mut MemoryShelf,
    line: &str,
    status: u8,
    text: &str,
) -> Result<bool, NoMemory> {
    ends_within(alloc, shelf, line, None, status, text)
}

/// The same on a sink that takes one byte at a push.
pub fn ends_narrowly(
    alloc: Global,
    shelf: &mut MemoryShelf,
    line: &str,
    status: u8,
    text: &str,
) -> Result<bool, NoMemory> {
    let mut out = MemorySink::narrow(alloc, 1, None);
    ends_to(alloc, shelf, line, &mut out, status, text)
}

/// The status of a call.
pub fn status_of(alloc: Global, shelf: &mut MemoryShelf, line: &str) -> Result<u8, NoMemory> {
    let mut out = MemorySink::new(alloc, None);
    say(alloc, shelf, line, &mut out)
}

/// Whether a call on a shelf with these files, of which the call of that number fails, ends with that status and prints that text.
pub fn ends_on(
    alloc: Global,
    files: &[(&str, &[u8])],
    failing: Option<u64>,
    line: &str,
    status: u8,
    text: &str,
) -> Result<bool, NoMemory> {
    let mut shelf = shelf_failing(alloc, files, failing)?;
    ends(alloc, &mut shelf, line, status, text)
}

/// A line, the start file, the call of the shelf that fails, the status and the text.
pub type Case = (&'static str, &'static [u8], Option<u64>, u8, &'static str);

/// How many cases of a file of that name beside the start file pass before the first that doesn't.
pub fn passed(alloc: Global, name: &str, bytes: &[u8], cases: &[Case]) -> Result<u32, NoMemory> {
    let mut count = 0u32;
    for (line, start, failing, status, text) in cases {
        let files = [(name, bytes), ("start", *start)];
        if !ends_on(alloc, &files, *failing, *line, *status, *text)? {
            break;
        }
        count = count.wrapping_add(1);
    }
    Ok(count)
}

/// Whether two calls end with that status, each with its own text.
pub fn both_end(
    alloc: Global,
    shelf: &mut MemoryShelf,
    lines: (&str, &str),
    status: u8,
    texts: (&str, &str),
) -> Result<bool, NoMemory> {
    let first = ends(alloc, shelf, lines.0, status, texts.0)?;
    let second = ends(alloc, shelf, lines.1, status, texts.1)?;
    Ok(first && second)
}

/// Whether a call ends well, and two others end so.
pub fn end_alike(
    alloc: Global,
    shelf: &mut MemoryShelf,
    lines: [&str; 3],
    status: u8,
    text: &str,
) -> Result<bool, NoMemory> {
    let [first, second, third] = lines;
    let answer = status_of(alloc, shelf, first)?;
    let both = both_end(alloc, shelf, (second, third), status, (text, text))?;
    Ok(answer == 0 && both)
}

/// How many of these lines are no request, before the first that is one.
pub fn are_no_requests(alloc: Global, lines: &[&str]) -> Result<u32, NoMemory> {
    let mut shelf = shelf_of(alloc, &[])?;
    let mut passed = 0u32;
    for line in lines {
        if !ends(
            alloc,
            &mut shelf,
            *line,
            2,
            "usage: blade COMMAND ARGUMENTS\n",
        )? {
            break;
        }
        passed = passed.wrapping_add(1);
    }
    Ok(passed)
}

/// Whether each of these calls ends with status 0.
pub fn are_done(alloc: Global, shelf: &mut MemoryShelf, lines: &[&str]) -> Result<bool, NoMemory> {
    let mut out = MemorySink::new(alloc, None);
    for line in lines {
        if say(alloc, shelf, *line, &mut out)? != 0 {
            return Ok(false);
        }
    }
    Ok(true)
}
