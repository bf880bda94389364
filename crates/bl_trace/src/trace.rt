//! A trace file, read line by line.
ghost use Rattle.std.specs.Prelude.{◌≡◌, ◌++◌, ◌∷◌, [], IfOk, OnOk, codes, length};
ghost use Rattle.std.specs.Fmt.{decimal};
ghost use Rattle.bl_text.specs.Lines.{lines_of};
ghost use Rattle.bl_trace.specs.Traces.{IsTrace, directive_of, directive_text, executed, trace_of, trace_text};

use crate::error::TraceError;
use bl_base::{List, NoMemory};
use bl_rob::Directive;
use bl_text::{Lines, read_decimal};
use std::alloc::Global;

/// The number of lines of a file: each ends with LF, which the last one may lack. Takes no memory.
pub fn count_lines(bytes: &[u8]) -> u64
    ensures { result ≡ length (lines_of bytes.now) }
{
    let mut ended = 0u64;
    for byte in bytes {
        if *byte == b'\n' {
            ended += 1;
        }
    }
    match bytes {
        [.., last] if *last != b'\n' => ended + 1,
        _ => ended,
    }
}

/// The directives of a trace file.
///
/// Each line is `fetch`; `fetch 1`, which predicts that the condition of a Test isn't 0, or `fetch 0`; `exec N`, N being
/// decimal digits, leading zeros among them, of a number below 2^32; or `retire`. A line ends with LF, which the last one may lack.
/// Line where a line is another one: the first one's number, from 1. Linear in the bytes, of which no copy is made.
pub fn read_trace(alloc: Global, bytes: &[u8]) -> Result<List<Directive>, TraceError>
    ensures { IsTrace (trace_of bytes.now) result }
{
    let mut directives = List::new(alloc);
    let mut number = 0u64;
    for line in Lines::of(bytes) {
        number += 1;
        let Some(directive) = read_directive(line) else {
            return Err(TraceError::Line(number));
        };
        directives.push(directive)?;
    }
    Ok(directives)
}

/// The directive that a line says.
fn read_directive(line: &[u8]) -> Option<Directive>
    ensures { result ≡ directive_of line.now }
{
    if line == b"fetch".as_slice() {
        return Some(Directive::Fetch);
    }
    if line == b"fetch 0".as_slice() {
        return Some(Directive::Predict(false));
    }
    if line == b"fetch 1".as_slice() {
        return Some(Directive::Predict(true));
    }
    if line == b"retire".as_slice() {
        return Some(Directive::Retire);
    }
    read_exec(line).map(Directive::Exec)
}

/// The entry that a line `exec N` names.
fn read_exec(line: &[u8]) -> Option<u32>
    ensures { result ≡ executed line.now }
{
    let digits = line.strip_prefix(b"exec ".as_slice())?;
    let entry = read_decimal(digits, u64::from(u32::MAX))?;
    Some(entry as u32)
}

/// The text of a trace file: a line for each directive, which `read_trace` reads back. Linear in the directives.
pub fn trace_text(alloc: Global, directives: &[Directive]) -> Result<Vec<u8>, NoMemory>
    ensures { IfOk result (λ text. text.items ≡ trace_text directives.now) }
{
    let mut text = Vec::new(alloc);
    for directive in directives {
        push_directive(alloc, &mut text, *directive)?;
    }
    Ok(text)
}

/// Puts the line of a directive behind the text.
fn push_directive(alloc: Global, text: &mut Vec<u8>, directive: Directive) -> Result<(), NoMemory>
    ensures { OnOk result (text.new.items ≡ text.old.items ++ (directive_text directive ++ 10 ∷ [])) }
{
    match directive {
        Directive::Fetch => text.extend_from_slice(b"fetch\n".as_slice())?,
        Directive::Predict(true) => text.extend_from_slice(b"fetch 1\n".as_slice())?,
        Directive::Predict(false) => text.extend_from_slice(b"fetch 0\n".as_slice())?,
        Directive::Exec(n) => {
            let line = exec_line(alloc, n)?;
            text.extend_from_slice(&line)?;
        }
        Directive::Retire => text.extend_from_slice(b"retire\n".as_slice())?,
    }
    Ok(())
}

/// The line that executes an entry.
fn exec_line(alloc: Global, n: u32) -> Result<Vec<u8>, NoMemory>
    ensures { IfOk result (λ line. line.items ≡ codes "exec " ++ decimal n ++ 10 ∷ []) }
{
    Ok(format!(in alloc; "exec {n}\n")?.into_bytes())
}
