//! The line on constant time.
ghost use Rattle.std.specs.Prelude.{◌≡◌, ◌++◌, IfOk, codes, option_map};
ghost use Rattle.std.specs.Fmt.{decimal};
ghost use Rattle.bl_outcome.specs.Lines.{line};
ghost use Rattle.bl_report.specs.Reports.{chain_line, chain_text, origin_text, through_text};

use crate::lines::push_places;
use bl_base::{NoMemory, Pos};
use bl_graph::{Origin, SecretChain};
use std::alloc::Global;

/// Puts the line on constant time behind a text: `constant-time yes`, or `constant-time no` with where a secret comes from, the
/// positions that it passes, and the one where it may not go. Linear in those positions. Want of memory is the only error.
pub(crate) fn push_constant_time(
    alloc: Global,
    text: &mut Vec<u8>,
    chain: Option<&SecretChain>,
) -> Result<(), NoMemory>
    ensures { IfOk result (λ _. text.new.items ≡ text.old.items ++ chain_line (option_map (λ chain. chain.now) chain.entry)) }
{
    match chain {
        None => text.extend_from_slice(b"constant-time yes\n")?,
        Some(chain) => push_chain(alloc, text, chain)?,
    }
    Ok(())
}

/// Puts the line of a program that isn't constant-time behind a text, with the way of a secret.
fn push_chain(alloc: Global, text: &mut Vec<u8>, chain: &SecretChain) -> Result<(), NoMemory>
    ensures { IfOk result (λ _. text.new.items ≡ text.old.items ++ line (codes "constant-time no " ++ chain_text chain.now)) }
{
    let from = origin(alloc, chain.origin)?;
    let end = chain.end.0;
    let tail = format!(in alloc; " end {end}\n")?;
    text.extend_from_slice(b"constant-time no ")?;
    text.extend_from_slice(&from)?;
    push_through(text, chain.through.as_slice())?;
    text.extend_from_slice(tail.as_bytes())?;
    Ok(())
}

/// Where a secret comes from.
fn origin(alloc: Global, origin: Origin) -> Result<Vec<u8>, NoMemory>
    ensures { IfOk result (λ text. text.items ≡ origin_text origin) }
{
    match origin {
        Origin::Parameter { function, index } => parameter(alloc, function, index),
        Origin::Global(number) => {
            let text = format!(in alloc; "global {number}")?;
            Ok(text.into_bytes())
        }
        Origin::Memory(number) => {
            let text = format!(in alloc; "memory {number}")?;
            Ok(text.into_bytes())
        }
    }
}

/// A parameter, by its function's number and its index.
fn parameter(alloc: Global, function: u32, index: u32) -> Result<Vec<u8>, NoMemory>
    ensures { IfOk result (λ text. text.items ≡ codes "parameter " ++ decimal function ++ codes " " ++ decimal index) }
{
    let text = format!(in alloc; "parameter {function} {index}")?;
    Ok(text.into_bytes())
}

/// Puts the positions that a secret passes behind a text; nothing where there is none.
fn push_through(text: &mut Vec<u8>, sites: &[Pos]) -> Result<(), NoMemory>
    ensures { IfOk result (λ _. text.new.items ≡ text.old.items ++ through_text sites.now) }
{
    if sites.is_empty() {
        return Ok(());
    }
    text.extend_from_slice(b" through")?;
    push_places(text, sites)?;
    Ok(())
}
