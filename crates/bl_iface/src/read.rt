//! Interface files.
ghost use Rattle.std.specs.Prelude.{◌≡◌, IfOk, MatchOption, None, Some};
ghost use Rattle.bl_text.specs.Lines.{lines_of};
ghost use Rattle.bl_iface.specs.Files.{IsIface, cut, flow_of, flows_of, function_of, letters, parts_of};

use crate::error::IfaceError;
use crate::iface::{FnIface, Iface};
use bl_base::{Flow, List, NoMemory, Text};
use bl_text::{Lines, place_of};
use std::alloc::Global;
use std::collections::BTreeSet;

/// What stands in a line behind `function`.
#[derive(Clone, Copy, Debug)]
struct Parts<'p> {
    /// The letters of the parameters.
    params: &'p [u8],
    /// Those of the results.
    results: &'p [u8],
    /// The name.
    name: &'p [u8],
}

/// The interface of a file.
///
/// Each line is `function PARAMS RESULTS NAME`, with one space between two. PARAMS has a letter for each parameter, `s` for stable or `t` for
/// transient, or is `-` where there is none; RESULTS so for the results; NAME is all that follows the third space, any bytes, none too. A line
/// ends with LF, which the last one may lack. Line where one is bad, or has a name that stood before: the first such line's number, from 1.
/// Costs the bytes times the logarithm of how many lines there are.
pub fn read_iface(alloc: Global, bytes: &[u8]) -> Result<Iface, IfaceError>
    ensures { IsIface (lines_of bytes.now) result }
{
    let mut functions = List::new(alloc);
    let mut names = BTreeSet::new(alloc);
    let mut number = 0u64;
    for line in Lines::of(bytes) {
        number += 1;
        let Some(parts) = parts_of(line) else {
            return Err(IfaceError::Line(number));
        };
        let Some(function) = read_function(alloc, &parts)? else {
            return Err(IfaceError::Line(number));
        };
        if !names.insert(parts.name)? {
            return Err(IfaceError::Line(number));
        }
        functions.push(function)?;
    }
    Ok(Iface { functions })
}

/// The bytes before the first space and those behind it; None where there is no space.
fn cut(text: &[u8]) -> Option<(&[u8], &[u8])>
    ensures { MatchOption result (cut text.now ≡ None) (λ parts. cut text.now ≡ Some (parts.0.now, parts.1.now)) }
{
    let end = place_of(text, b' ');
    if end == text.len() {
        return None;
    }
    Some((&text[..end], &text[end + 1..]))
}

/// What stands in a line behind `function`; None where the line has another form.
fn parts_of(line: &[u8]) -> Option<Parts<'_>>
    ensures { MatchOption result (parts_of line.now ≡ None) (λ parts. parts_of line.now ≡ Some (parts.params.now, parts.results.now, parts.name.now)) }
{
    let (keyword, rest) = cut(line)?;
    if keyword != b"function".as_slice() {
        return None;
    }
    let (params, rest) = cut(rest)?;
    let (results, name) = cut(rest)?;
    Some(Parts {
        params,
        results,
        name,
    })
}

/// What is agreed of a function; None where letters are bad.
fn read_function(alloc: Global, parts: &Parts) -> Result<Option<FnIface>, NoMemory>
    ensures { IfOk result (λ found. found ≡ function_of (parts.now.params.now, parts.now.results.now, parts.now.name.now)) }
{
    let Some(params) = read_flows(alloc, parts.params)? else {
        return Ok(None);
    };
    let Some(results) = read_flows(alloc, parts.results)? else {
        return Ok(None);
    };
    Ok(Some(FnIface {
        name: Text::copy_of(alloc, parts.name)?,
        params,
        results,
    }))
}

/// The flows that letters say; None where the word is no such one.
fn read_flows(alloc: Global, word: &[u8]) -> Result<Option<List<Flow>>, NoMemory>
    ensures { IfOk result (λ found. found ≡ flows_of word.now) }
{
    if word.is_empty() {
        return Ok(None);
    }
    if word == b"-".as_slice() {
        return Ok(Some(List::new(alloc)));
    }
    read_letters(alloc, word)
}

/// The flows that letters say, one each; None where one says none.
fn read_letters(alloc: Global, word: &[u8]) -> Result<Option<List<Flow>>, NoMemory>
    ensures { IfOk result (λ found. found ≡ letters word.now) }
{
    let mut flows = List::new(alloc);
    for letter in word {
        let Some(flow) = flow_of(*letter) else {
            return Ok(None);
        };
        flows.push(flow)?;
    }
    Ok(Some(flows))
}

/// The flow that a letter says.
fn flow_of(letter: u8) -> Option<Flow>
    ensures { result ≡ flow_of letter }
{
    match letter {
        b's' => Some(Flow::Stable),
        b't' => Some(Flow::Transient),
        _ => None,
    }
}
