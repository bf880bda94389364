//! The image writer: a program to its bytes, and how many these are.
ghost use Rattle.std.specs.Prelude.{◌≡◌, ◌<◌, ◌^◌, All, IfOk, OnOk, length, drop};
ghost use Rattle.bl_format.specs.Grammar.{each};
ghost use Rattle.bl_format.specs.Image.{Image, header, definitions, additions, exports, command};
ghost use Rattle.bl_format.specs.WriterAnswers.{Adds, CommandFits, DefinitionsFit, AdditionsFit, HasLength};

use crate::header::{MAGIC, version_of};
use crate::rising::{length_of_numbered, write_numbered};
use crate::write::{Write, length_of_count, length_of_each, write_byte, write_each, write_u64};
use bl_base::{List, NoMemory};
use bl_program::{Demand, ExportDef, FIRST_ENTRY, ProgramParts, SiteWeight, WellFormed};
use std::alloc::Global;

/// How many bytes the magic and the version have.
const HEADER: u64 = 5;

/// Appends the magic and the version.
fn write_header(version: u8, to: &mut Vec<u8>) -> Result<(), NoMemory>
    ensures { OnOk result (Adds (header version) to.old.items to.new.items) }
{
    to.extend_from_slice(&MAGIC)?;
    write_byte(version, to)?;
    Ok(())
}

/// Appends the exports, behind a count below 2^64.
fn write_exports(these: &List<ExportDef>, to: &mut Vec<u8>) -> Result<(), NoMemory>
    ensures { OnOk result (Adds (exports these.now) to.old.items to.new.items) }
{
    write_u64(these.len() as u64, to)?;
    write_each(these.as_slice(), to)?;
    Ok(())
}

/// Appends globals, memories, functions and exports.
fn write_definitions(program: &ProgramParts, to: &mut Vec<u8>) -> Result<(), NoMemory>
    requires { DefinitionsFit program.now }
    ensures { OnOk result (Adds (definitions program.now) to.old.items to.new.items) }
{
    program.globals.write(to)?;
    program.memories.write(to)?;
    program.functions.write(to)?;
    write_exports(&program.exports, to)?;
    Ok(())
}

/// Appends demands and weights, where there are any.
fn write_additions(
    demands: &List<Demand>,
    weights: &List<SiteWeight>,
    to: &mut Vec<u8>,
) -> Result<(), NoMemory>
    requires { AdditionsFit demands.now weights.now }
    ensures { OnOk result (Adds (additions demands.now weights.now) to.old.items to.new.items) }
{
    if version_of(demands.as_slice(), weights.as_slice()) == 1 {
        return Ok(());
    }
    demands.write(to)?;
    write_numbered(weights, to)?;
    Ok(())
}

/// The image of a program. Linear in the program.
pub fn encode(alloc: Global, program: &WellFormed) -> Result<Vec<u8>, NoMemory>
    ensures { IfOk result (λ bytes. Image program.now bytes.items) }
{
    let parts = program.program().parts();
    let mut bytes = Vec::new(alloc);
    let version = version_of(parts.demands.as_slice(), parts.weights.as_slice());
    write_header(version, &mut bytes)?;
    write_definitions(parts, &mut bytes)?;
    write_additions(&parts.demands, &parts.weights, &mut bytes)?;
    write_each(
        &parts.commands.as_slice()[FIRST_ENTRY as usize..],
        &mut bytes,
    )?;
    Ok(bytes)
}

/// How many bytes the exports have, behind their count.
fn length_of_exports(these: &List<ExportDef>) -> u64
    ensures { HasLength (exports these.now) result }
{
    let count = length_of_count(these);
    count.saturating_add(length_of_each(these.as_slice()))
}

/// How many bytes globals, memories, functions and exports have.
fn length_of_definitions(program: &ProgramParts) -> u64
    requires { DefinitionsFit program.now }
    ensures { HasLength (definitions program.now) result }
{
    let globals = program.globals.spelled_length();
    let memories = program.memories.spelled_length();
    let functions = program.functions.spelled_length();
    let exports = length_of_exports(&program.exports);
    globals
        .saturating_add(memories)
        .saturating_add(functions)
        .saturating_add(exports)
}

/// How many bytes demands and weights have, where there are any.
fn length_of_additions(demands: &List<Demand>, weights: &List<SiteWeight>) -> u64
    requires { AdditionsFit demands.now weights.now }
    ensures { HasLength (additions demands.now weights.now) result }
{
    if version_of(demands.as_slice(), weights.as_slice()) == 1 {
        return 0;
    }
    let demanded = demands.spelled_length();
    demanded.saturating_add(length_of_numbered(weights))
}

/// How many bytes the image of a program has, or the greatest number of 64 bits where it has more. Takes no memory. Linear in the program.
pub fn image_length(program: &WellFormed) -> u64
    ensures { HasLength (Image program.now) result }
{
    let parts = program.program().parts();
    let definitions = length_of_definitions(parts);
    let additions = length_of_additions(&parts.demands, &parts.weights);
    let commands = length_of_each(&parts.commands.as_slice()[FIRST_ENTRY as usize..]);
    definitions
        .saturating_add(additions)
        .saturating_add(commands)
        .saturating_add(HEADER)
}
