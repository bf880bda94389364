//! Parts by the bytes of their modules, and what linking them gives.
ghost use Rattle.std.specs.Prelude.{◌≡◌, [], ◌++◌, ◌∷◌, ◌<◌, ◌^◌, length, Ok, IfOk, IfSome, IsTrue};
ghost use Rattle.std.specs.List.{All};
ghost use Rattle.bl_decode.specs.DecoderAnswers.{Answers};
ghost use Rattle.bl_labels.specs.Faults.{IsConsistent};
ghost use Rattle.bl_link.specs.Linkable.{AreParts, IsPart, NoSolidus};
ghost use Rattle.bl_wasm.specs.Validity.{functions_of};

use bl_base::{List, NoMemory, Text};
use bl_decode::decode;
use bl_labels::{Labels, labels_of};
use bl_link::{LinkError, Part, link};
use bl_validate::{ValidModule, validate};
use bl_wasm::{Linked, Module};
use std::alloc::Global;

/// Whether no solidus is in the name.
fn is_plain(name: &[u8]) -> bool
    ensures { IsTrue result → NoSolidus name.now }
{
    name.iter().all(|byte| *byte != b'/')
}

/// The module; None where it isn't valid.
fn valid(alloc: Global, tree: Module) -> Option<ValidModule>
    requires { length (functions_of tree) < 2 ^ 32 }
    ensures { IfSome result (λ wasm. wasm ≡ tree) }
{
    match validate(alloc, tree) {
        Ok(wasm) => Some(wasm),
        Err((tree, _)) => {
            drop(tree);
            None
        }
    }
}

/// The valid module that the bytes spell; None where there is none.
#[tactic(auto, using(bl_wasm::proofs::LimitLemmas::few_functions))]
fn read(alloc: Global, bytes: &[u8]) -> Option<ValidModule>
    ensures { IfSome result (λ wasm. Answers bytes.now (Ok wasm)) }
{
    match decode(alloc, bytes) {
        Ok(tree) => valid(alloc, tree),
        Err(_) => None,
    }
}

/// The part of that name with those labels and the module that the bytes spell.
fn named(name: Text, bytes: &[u8], wasm: ValidModule, labels: Labels) -> Part
    requires plain { NoSolidus name }
    requires few { length bytes.now < 2 ^ 25 }
    requires read { Answers bytes.now (Ok wasm) }
    requires consistent { IsConsistent labels }
    ensures { IsPart result }
{
    Part { name, wasm, labels }
}

/// The part of that name with the module that the bytes spell and the labels in it; None where these are refused.
fn labelled(alloc: Global, name: Text, bytes: &[u8], wasm: ValidModule) -> Option<Part>
    requires plain { NoSolidus name }
    requires few { length bytes.now < 2 ^ 25 }
    requires read { Answers bytes.now (Ok wasm) }
    ensures { IfSome result IsPart }
{
    match labels_of(alloc, wasm.module()) {
        Ok(labels) => Some(named(name, bytes, wasm, labels)),
        Err(_) => {
            drop(wasm);
            None
        }
    }
}

/// The part of that name whose module the bytes spell, with the labels in them; None where there is none.
fn part(alloc: Global, name: &str, bytes: &[u8]) -> Result<Option<Part>, NoMemory>
    ensures { IfOk result (λ part. IfSome part IsPart) }
{
    let letters = name.as_bytes();
    if bytes.len() > 0x1FF_FFFF {
        return Ok(None);
    }
    if !is_plain(letters) {
        return Ok(None);
    }
    let name = Text::copy_of(alloc, letters)?;
    match read(alloc, bytes) {
        Some(wasm) => Ok(labelled(alloc, name, bytes, wasm)),
        None => Ok(None),
    }
}

/// Whether the part has another name.
fn is_other(name: &[u8], one: &Part) -> bool
    ensures { IsTrue result → one.now.name ≡ name.now → ⊥ }
{
    one.name.as_slice() != name
}

/// Whether none of the parts has that name.
fn is_new(name: &[u8], parts: &[Part]) -> bool
    ensures { IsTrue result → All (λ one. one.name ≡ name.now → ⊥) parts.now }
{
    parts.iter().all(|one| is_other(name, one))
}

/// Whether the part is one more; it isn't where another has its name, or there are too many.
fn add(parts: &mut List<Part>, part: Part) -> Result<bool, NoMemory>
    requires parts { AreParts parts.old }
    requires part { IsPart part }
    ensures { AreParts parts.new }
{
    if parts.len() >= 8 || !is_new(part.name.as_slice(), parts.as_slice()) {
        drop(part);
        return Ok(false);
    }
    parts.push(part)?;
    Ok(true)
}

/// Whether the bytes and their name are one part more.
fn add_read(
    alloc: Global,
    parts: &mut List<Part>,
    name: &str,
    bytes: &[u8],
) -> Result<bool, NoMemory>
    requires { AreParts parts.old }
    ensures { AreParts parts.new }
{
    match part(alloc, name, bytes)? {
        Some(part) => add(parts, part),
        None => Ok(false),
    }
}

/// The parts of those names and bytes, in their order; None where one is no part, or two have one name, or there are too many.
pub fn parts_of(alloc: Global, modules: &[(&str, &[u8])]) -> Result<Option<List<Part>>, NoMemory>
    ensures { IfOk result (λ parts. IfSome parts AreParts) }
{
    let mut parts = List::new(alloc);
    for (name, bytes) in modules {
        if !add_read(alloc, &mut parts, name, bytes)? {
            return Ok(None);
        }
    }
    Ok(Some(parts))
}

/// What linking those modules gives; None where they are no parts.
pub fn linked(
    alloc: Global,
    modules: &[(&str, &[u8])],
) -> Result<Option<Result<Linked, LinkError>>, NoMemory> {
    match parts_of(alloc, modules)? {
        Some(parts) => Ok(Some(link(alloc, parts))),
        None => Ok(None),
    }
}
