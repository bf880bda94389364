//! Count files.
ghost use Rattle.std.specs.Prelude.{◌≡◌, ◌<◌, ◌++◌, ◌^◌, IfOk, IfSome};
ghost use Rattle.std.specs.List.{All, flat_map};
ghost use Rattle.bl_text.specs.{Items.items_of, Lines.lines_of};
ghost use Rattle.bl_counts.specs.CountFiles.{IsCountFile, commands_of, count_file_of, counts_text, site_in, site_of, site_text, with_commands};

use crate::counts::SiteCount;
use crate::error::CountFileError;
use bl_base::{List, NoMemory, Pos};
use bl_text::{Lines, place_of, read_decimal};
use std::alloc::Global;

/// What a count file says.
#[derive(Debug, Drop)]
pub struct CountFile {
    /// How many commands the program has whose sites were counted.
    pub commands: u64,
    /// The counts, in the order of the lines.
    pub counts: List<SiteCount>,
}

/// The counts of a file.
///
/// The first line is `commands N`, each other one `site POS COUNT`, with one space between words: decimal digits, leading zeros among them, N below
/// 2^64, POS below 2^32 and COUNT from 1 to 4,294,967,295. A line ends with LF, which the last one may lack. Line where one is bad: the first such
/// line's number, from 1; an empty file is bad at line 1. Positions may stand in any order here. Linear in the bytes, of which no copy is made.
pub fn read_counts(alloc: Global, bytes: &[u8]) -> Result<CountFile, CountFileError>
    ensures file { IsCountFile (count_file_of bytes.now) result }
    ensures small { IfOk result (λ file. All (λ one. one.count < 2 ^ 32) file.counts) }
{
    let end = place_of(bytes, b'\n');
    let Some(commands) = read_commands(&bytes[..end]) else {
        return Err(CountFileError::Line(1));
    };
    if end == bytes.len() {
        return Ok(CountFile {
            commands,
            counts: List::new(alloc),
        });
    }
    read_sites(alloc, commands, &bytes[end + 1..])
}

/// The sites of the lines behind the first, which says the number of commands.
fn read_sites(alloc: Global, commands: u64, bytes: &[u8]) -> Result<CountFile, CountFileError>
    ensures file { IsCountFile (with_commands commands (items_of site_of (lines_of bytes.now))) result }
    ensures small { IfOk result (λ file. All (λ one. one.count < 2 ^ 32) file.counts) }
{
    let mut counts = List::new(alloc);
    let mut number = 0u64;
    for line in Lines::of(bytes) {
        number += 1;
        let Some(site) = read_site(line) else {
            return Err(CountFileError::Line(number + 1));
        };
        counts.push(site)?;
    }
    Ok(CountFile { commands, counts })
}

/// The number of commands that the first line says.
fn read_commands(line: &[u8]) -> Option<u64>
    ensures { result ≡ commands_of line.now }
{
    let digits = line.strip_prefix(b"commands ".as_slice())?;
    read_decimal(digits, u64::MAX)
}

/// The site and the count that a line says.
fn read_site(line: &[u8]) -> Option<SiteCount>
    ensures site { result ≡ site_of line.now }
    ensures small { IfSome result (λ one. one.count < 2 ^ 32) }
{
    let text = line.strip_prefix(b"site ".as_slice())?;
    read_pair(text)
}

/// Those that a text `POS COUNT` says.
fn read_pair(text: &[u8]) -> Option<SiteCount>
    ensures site { result ≡ site_in text.now }
    ensures small { IfSome result (λ one. one.count < 2 ^ 32) }
{
    let end = place_of(text, b' ');
    if end == text.len() {
        return None;
    }
    let at = read_decimal(&text[..end], u64::from(u32::MAX))?;
    let count = read_decimal(&text[end + 1..], u64::from(u32::MAX))?;
    if count == 0 {
        return None;
    }
    Some(SiteCount {
        at: Pos(at as u32),
        count,
    })
}

/// The text of a count file: a line of the program's number of commands, and a line of each count. What `read_counts` says of it is that
/// number and these counts, where none is 0 or above 4,294,967,295. Linear in the counts.
pub fn counts_text(alloc: Global, commands: u64, counts: &[SiteCount]) -> Result<Vec<u8>, NoMemory>
    ensures { IfOk result (λ text. text.items ≡ counts_text commands counts.now) }
{
    let head = format!(in alloc; "commands {commands}\n")?;
    let mut text = head.into_bytes();
    push_sites(alloc, &mut text, counts)?;
    Ok(text)
}

/// Puts a line of each count behind the text.
fn push_sites(alloc: Global, text: &mut Vec<u8>, counts: &[SiteCount]) -> Result<(), NoMemory>
    ensures { IfOk result (λ _. text.new.items ≡ text.old.items ++ flat_map site_text counts.now) }
{
    for one in counts {
        push_site(alloc, text, one.at, one.count)?;
    }
    Ok(())
}

/// Puts the line of a site and its count behind the text.
fn push_site(alloc: Global, text: &mut Vec<u8>, at: Pos, count: u64) -> Result<(), NoMemory>
    ensures { IfOk result (λ _. text.new.items ≡ text.old.items ++ site_text (record { at = at; count = count })) }
{
    let line = site_line(alloc, at.0, count)?;
    text.extend_from_slice(&line)?;
    Ok(())
}

/// The line of a site and its count.
fn site_line(alloc: Global, at: u32, count: u64) -> Result<Vec<u8>, NoMemory>
    ensures { IfOk result (λ text. text.items ≡ site_text (record { at = record { 0 = at }; count = count })) }
{
    let text = format!(in alloc; "site {at} {count}\n")?;
    Ok(text.into_bytes())
}
