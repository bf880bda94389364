//! From the bytes of an image to its program, to an exported function of it, and to a start of the function.
ghost use Rattle.std.specs.Prelude.{◌≡◌, ◌<◌, IfOk, MatchOption, None, Some, length};
ghost use Rattle.bl_program.specs.Outcomes.{IsStart};
ghost use Rattle.bl_build.specs.EntryStages.{Finds, broken_rule, finding, function_named, imaging, kinds_of, pages_of, starting};
ghost use Rattle.bl_job.specs.{Stages.chain, WorkAnswers.IsStaged, WorkAnswers.IsTold};
ghost use Rattle.bl_build.specs.StageAnswers.{defined_in, entered_in, entry_in, found_in, refusal_of_image};

use crate::start::{no_export, of_start};
use bl_base::{NoMemory, Start, ValueType};
use bl_image::{ImageError, decode_image};
use bl_job::{Reason, WorkError, refused, refused_at};
use bl_program::{ExportDef, FunctionDef, MemoryDef, ProgramParts, WellFormed};
use bl_trace::read_start;
use std::alloc::Global;

/// The program of an image, and a function of it.
#[derive(Drop)]
pub(crate) struct Found {
    /// The program.
    pub program: WellFormed,
    /// The function's number.
    pub function: u32,
}

/// The program of an image, and its function that is exported under a name; Refused exactly where the bytes are no image, its program isn't
/// well-formed, or no function is exported so.
pub(crate) fn find_export(alloc: Global, image: &[u8], export: &str) -> Result<Found, WorkError>
    ensures staged { IsStaged (chain imaging (finding export.now)) found_in image.now result }
    ensures exists { IfOk result (λ found. found.function < length found.program.functions) }
{
    match read_image(alloc, image) {
        Ok(program) => match find_function(&program, export) {
            Some(function) => Ok(Found { program, function }),
            None => Err(no_export(alloc)),
        },
        Err(error) => Err(error),
    }
}

/// The program of an image; Refused exactly where the bytes are no image, or its program isn't well-formed.
pub(crate) fn read_image(alloc: Global, bytes: &[u8]) -> Result<WellFormed, WorkError>
    ensures { IsStaged imaging (λ program. program) bytes.now result }
{
    match decode_image(alloc, bytes) {
        Ok(program) => {
            // What is known of the program is read with it.
            let _rules = program.program();
            Ok(program)
        }
        Err(error) => Err(of_image(alloc, error)),
    }
}

/// Why there is no program.
fn of_image(alloc: Global, error: ImageError) -> WorkError
    ensures { IsTold (refusal_of_image error) result }
{
    match error {
        ImageError::NotAnImage => refused(alloc, Reason::Image, "image: not an image", "", ""),
        ImageError::IllFormed { rule, position } => broken_rule(alloc, rule, position.0),
        ImageError::Memory => WorkError::Memory,
    }
}

/// The program of an image breaks a rule, at a position.
fn broken_rule(alloc: Global, rule: u8, position: u32) -> WorkError
    ensures { IsTold (Some (broken_rule rule position)) result }
{
    match format!(in alloc; "{rule} at ") {
        Ok(rule) => {
            refused_at(
                alloc,
                Reason::Image,
                "image: rule ",
                rule.as_str(),
                u64::from(position),
            )
        }
        Err(_) => WorkError::Memory,
    }
}

/// The function that is exported under a name; None where none is. Linear in the exports; takes no memory.
fn find_function(program: &WellFormed, export: &str) -> Option<u32>
    ensures { MatchOption result (function_named export.now program.now.exports ≡ None)
        (λ function. Finds export.now program.now (entry_in program.now function)) }
{
    number_named(export, program.program().parts().exports.as_slice())
}

/// The function of the first export of a name.
fn number_named(name: &str, exports: &[ExportDef]) -> Option<u32>
    ensures { result ≡ function_named name.now exports.now }
{
    for export in exports {
        if name.as_bytes() == export.name.as_slice() {
            return Some(export.function);
        }
    }
    None
}

/// What a program says of a function that it has.
pub(crate) fn definition(program: &WellFormed, function: u32) -> &FunctionDef
    requires { function < length program.now.functions }
    ensures { result.now ≡ defined_in program.now function }
{
    &program.program().parts().functions.as_slice()[function as usize]
}

/// The start of a function that a start file asks for; Refused exactly where a line is bad or there are too few arguments.
pub(crate) fn read_entry_start(
    alloc: Global,
    program: &WellFormed,
    function: u32,
    bytes: &[u8],
) -> Result<Start, WorkError>
    requires { function < length program.now.functions }
    ensures staged { IsStaged (starting bytes.now) (entered_in (entry_in program.now function)) (entry_in program.now function) result }
    ensures fits { IfOk result (λ start. IsStart program.now function start) }
{
    let kinds = kinds_of(alloc, definition(program, function))?;
    let pages = pages_of(alloc, program.program().parts())?;
    match read_start(alloc, bytes, kinds.as_slice(), pages.as_slice()) {
        Ok(start) => Ok(start),
        Err(error) => Err(of_start(alloc, error)),
    }
}

/// The types of a function's parameters.
fn kinds_of(alloc: Global, defined: &FunctionDef) -> Result<Vec<ValueType>, NoMemory>
    ensures { IfOk result (λ kinds. kinds.items ≡ kinds_of defined.now) }
{
    let mut kinds = Vec::new(alloc);
    for param in defined.params.as_slice() {
        kinds.push(param.kind)?;
    }
    Ok(kinds)
}

/// The first pages of a program's memories.
fn pages_of(alloc: Global, parts: &ProgramParts) -> Result<Vec<u32>, NoMemory>
    ensures { IfOk result (λ pages. pages.items ≡ pages_of parts.now) }
{
    let mut pages = Vec::new(alloc);
    for memory in parts.memories.as_slice() {
        pages.push(memory.pages)?;
    }
    Ok(pages)
}
