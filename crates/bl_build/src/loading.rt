//! From modules' bytes to the linked tree: all are decoded, then all validated, then the labels of each are read, and then they are
//! linked.
ghost use Rattle.std.specs.Prelude.{◌≡◌, ◌<◌, ◌≤◌, ◌^◌, IfOk, Some, length, map};
ghost use Rattle.std.specs.List.{All};
ghost use Rattle.bl_base.specs.Quantity.{limit_of};
ghost use Rattle.bl_base.specs.declared.quantity.Quantity.TheVariants as quantity;
ghost use Rattle.bl_wasm.specs.Validity.{functions_of};
ghost use Rattle.bl_decode.specs.DecoderAnswers.{Answers};
ghost use Rattle.bl_labels.specs.Faults.{IsConsistent};
ghost use Rattle.bl_link.specs.{Faults.NamesPart, Linkable.AreParts, Links.part_of};
ghost use Rattle.bl_build.specs.LoadStages.{AreShort, bad_import, bad_labels, decoding, invalid_function, labelling, linked_parts, linking, loading, parts_of, validation};
ghost use Rattle.bl_text.specs.Names.{AreNamedApart, module_name as name_of};
ghost use Rattle.bl_job.specs.Stages.{each};
ghost use Rattle.bl_job.specs.WorkAnswers.{IsStaged, IsTold, content_in, contents_in};
ghost use Rattle.bl_build.specs.StageAnswers.{IsLinkingError, checked_in, refusal_of_decoding, refusal_of_labels, ready_in, spelled_in, refusal_of_validation};

use bl_base::{List, NoMemory, Text};
use bl_decode::{DecodeError, decode};
use bl_job::{Content, Reason, WorkError, limit, refused};
use bl_labels::{LabelError, Labels, labels_of};
use bl_link::{LinkError, Part, link};
use bl_text::module_name;
use bl_validate::{Invalid, ValidModule, validate};
use bl_wasm::{Linked, Module};
use std::alloc::Global;

/// A module that was decoded, under its name.
#[derive(Drop)]
pub struct Spelled<'a> {
    /// Its name.
    pub name: &'a str,
    /// The module.
    pub tree: Module,
}

/// A module that was validated, under its name.
#[derive(Drop)]
pub struct Checked<'a> {
    /// Its name.
    pub name: &'a str,
    /// The module.
    pub wasm: ValidModule,
}

/// A module that can be linked: one that was validated, under its name, with its labels.
#[derive(Drop)]
pub struct Ready<'a> {
    /// Its name.
    pub name: &'a str,
    /// The module.
    pub wasm: ValidModule,
    /// Its labels.
    pub labels: Labels,
}

/// The linked tree of the modules in files with these contents; Refused exactly where the first error is one of these, in this order:
/// the bytes of a file spell no module, or it isn't supported, or exceeds a limit; a module isn't valid; the labels of a module break a
/// rule; the modules can't be linked. Linear in the bytes and in those of the memories.
pub fn load(alloc: Global, words: &[&str], contents: Vec<Content>) -> Result<Linked, WorkError>
    requires few { length words.now ≤ limit_of quantity.Modules }
    requires apart { AreNamedApart (map (λ word. word.now) words.now) }
    requires short { AreShort (map (λ word. word.now) words.now) (contents_in contents.items) }
    ensures { IsStaged loading (λ tree. tree) (parts_of (map (λ word. word.now) words.now) (contents_in contents.items)) result }
{
    let spelled = match decode_all(alloc, words, contents) {
        Ok(spelled) => spelled,
        Err(error) => return Err(error),
    };
    let checked = match validate_all(alloc, spelled) {
        Ok(checked) => checked,
        Err(error) => return Err(error),
    };
    match label_all(alloc, checked) {
        Ok(ready) => link_all(alloc, ready),
        Err(error) => Err(error),
    }
}

/// The modules that the contents of files spell, all of which are supported and within the limits.
fn decode_all<'a>(
    alloc: Global,
    words: &[&'a str],
    contents: Vec<Content>,
) -> Result<Vec<Spelled<'a>>, WorkError>
    ensures staged { IsStaged (each decoding) (λ all. map spelled_in all.items) (parts_of (map (λ word. word.now) words.now) (contents_in contents.items)) result }
    ensures few { IfOk result (λ all. All (λ one. length (functions_of one.tree) < 2 ^ 32) all.items) }
{
    let mut all = Vec::new(alloc);
    let mut rest = contents.into_iter();
    for word in words {
        if let Some(content) = rest.next() {
            match decode_one(alloc, *word, content) {
                Ok(one) => all.push(one)?,
                Err(error) => return Err(error),
            }
        }
    }
    Ok(all)
}

/// The module that the contents of the file of that word spell, if it is supported and within the limits.
fn decode_one<'a>(alloc: Global, word: &'a str, content: Content) -> Result<Spelled<'a>, WorkError>
    ensures staged { IsStaged decoding spelled_in (record { name = name_of word.now; bytes = content_in content }) result }
    ensures few { IfOk result (λ one. length (functions_of one.tree) < 2 ^ 32) }
{
    let name = module_name(word);
    match decoded(alloc, content) {
        Ok(tree) => Ok(Spelled { name, tree }),
        Err(error) => Err(of_decoding(alloc, name, error)),
    }
}

/// The module that the contents of a file spell, as `decode` gives it.
fn decoded(alloc: Global, content: Content) -> Result<Module, DecodeError>
    ensures { Answers (content_in content) result }
{
    match content {
        Content::Bytes(bytes) => decode(alloc, &bytes),
        Content::Module(decoder) => decoder.finish(alloc),
    }
}

/// Why the bytes of a module of that name are refused that aren't decoded.
fn of_decoding(alloc: Global, name: &str, error: DecodeError) -> WorkError
    ensures { IsTold (refusal_of_decoding name.now error) result }
{
    match error {
        DecodeError::Malformed => refused(alloc, Reason::Malformed, "malformed: ", name, ""),
        DecodeError::Unsupported => refused(alloc, Reason::Unsupported, "unsupported: ", name, ""),
        DecodeError::Limit { which, value } => limit(alloc, which, value),
        DecodeError::Memory => WorkError::Memory,
    }
}

/// The modules, where all are valid.
fn validate_all<'a>(alloc: Global, spelled: Vec<Spelled<'a>>) -> Result<Vec<Checked<'a>>, WorkError>
    requires { All (λ one. length (functions_of one.tree) < 2 ^ 32) spelled.items }
    ensures { IsStaged (each validation) (λ all. map checked_in all.items) (map spelled_in spelled.entry.items) result }
{
    let mut all = Vec::new(alloc);
    let mut rest = spelled.into_iter();
    while let Some(one) = rest.next() {
        match validated(alloc, one) {
            Ok(checked) => all.push(checked)?,
            Err(error) => return Err(error),
        }
    }
    Ok(all)
}

/// The module, where it is valid.
fn validated<'a>(alloc: Global, one: Spelled<'a>) -> Result<Checked<'a>, WorkError>
    requires { length (functions_of one.tree) < 2 ^ 32 }
    ensures { IsStaged validation checked_in (spelled_in one.entry) result }
{
    let name = one.name;
    match validate(alloc, one.tree) {
        Ok(wasm) => Ok(Checked { name, wasm }),
        Err((wasm, reason)) => {
            drop(wasm);
            Err(of_validation(alloc, name, reason))
        }
    }
}

/// Why a module of that name is refused that isn't valid.
fn of_validation(alloc: Global, name: &str, reason: Invalid) -> WorkError
    ensures { IsTold (refusal_of_validation name.now reason) result }
{
    match reason {
        Invalid::Function(index) => invalid_function(alloc, name, index),
        Invalid::Module => refused(alloc, Reason::Invalid, "invalid: ", name, " module"),
        Invalid::Memory => WorkError::Memory,
    }
}

/// A function of a module has no typing.
fn invalid_function(alloc: Global, name: &str, index: u32) -> WorkError
    ensures { IsTold (Some (invalid_function name.now index)) result }
{
    match format!(in alloc; " function {index}") {
        Ok(tail) => refused(alloc, Reason::Invalid, "invalid: ", name, tail.as_str()),
        Err(_) => WorkError::Memory,
    }
}

/// The modules with their labels, where these break no rule.
fn label_all<'a>(alloc: Global, checked: Vec<Checked<'a>>) -> Result<Vec<Ready<'a>>, WorkError>
    ensures staged { IsStaged (each labelling) (λ all. map ready_in all.items) (map checked_in checked.entry.items) result }
    ensures consistent { IfOk result (λ all. All (λ one. IsConsistent one.labels) all.items) }
{
    let mut all = Vec::new(alloc);
    let mut rest = checked.into_iter();
    while let Some(one) = rest.next() {
        match labelled(alloc, one) {
            Ok(ready) => all.push(ready)?,
            Err(error) => return Err(error),
        }
    }
    Ok(all)
}

/// The module with its labels, where these break no rule.
fn labelled<'a>(alloc: Global, one: Checked<'a>) -> Result<Ready<'a>, WorkError>
    ensures staged { IsStaged labelling ready_in (checked_in one.entry) result }
    ensures consistent { IfOk result (λ ready. IsConsistent ready.labels) }
{
    let name = one.name;
    match labels_of(alloc, one.wasm.module()) {
        Ok(labels) => Ok(Ready {
            name,
            wasm: one.wasm,
            labels,
        }),
        Err(error) => {
            drop(one);
            Err(of_labels(alloc, name, error))
        }
    }
}

/// Why a module of that name is refused whose labels aren't read.
fn of_labels(alloc: Global, name: &str, error: LabelError) -> WorkError
    ensures { IsTold (refusal_of_labels name.now error) result }
{
    match error {
        LabelError::Malformed => bad_labels(alloc, name, " malformed"),
        LabelError::Twice => bad_labels(alloc, name, " twice"),
        LabelError::OutOfRange => bad_labels(alloc, name, " out of range"),
        LabelError::OnImport => bad_labels(alloc, name, " on import"),
        LabelError::Both => bad_labels(alloc, name, " both"),
        LabelError::Memory => WorkError::Memory,
    }
}

/// The labels of a module break a rule.
fn bad_labels(alloc: Global, name: &str, wrong: &str) -> WorkError
    ensures { IsTold (Some (bad_labels name.now wrong.now)) result }
{
    refused(alloc, Reason::Labels, "labels: ", name, wrong)
}

/// The linked tree of modules with their labels.
fn link_all(alloc: Global, ready: Vec<Ready<'_>>) -> Result<Linked, WorkError>
    requires { AreParts (linked_parts (map ready_in ready.items)) }
    ensures { IsStaged linking (λ tree. tree) (map ready_in ready.entry.items) result }
{
    let names = names_of(alloc, ready.as_slice())?;
    let parts = parts_of(alloc, ready)?;
    match link(alloc, parts) {
        Ok(linked) => Ok(linked),
        Err(error) => Err(of_linking(alloc, names.as_slice(), error)),
    }
}

/// The names of modules.
fn names_of<'a>(alloc: Global, ready: &[Ready<'a>]) -> Result<Vec<&'a str>, NoMemory>
    ensures { IfOk result (λ names. names.items ≡ map (λ one. one.name) ready.now) }
{
    let mut names = Vec::new(alloc);
    for one in ready {
        names.push(one.name)?;
    }
    Ok(names)
}

/// The modules as parts to be linked.
fn parts_of(alloc: Global, ready: Vec<Ready<'_>>) -> Result<List<Part>, NoMemory>
    ensures { IfOk result (λ parts. parts ≡ linked_parts (map ready_in ready.entry.items)) }
{
    let mut parts = List::new(alloc);
    let mut rest = ready.into_iter();
    while let Some(one) = rest.next() {
        parts.push(part_of(alloc, one)?)?;
    }
    Ok(parts)
}

/// The module as a part to be linked.
fn part_of(alloc: Global, one: Ready<'_>) -> Result<Part, NoMemory>
    ensures { IfOk result (λ part. part ≡ part_of one.entry.name.now one.entry.wasm one.entry.labels) }
{
    match Text::copy_of(alloc, one.name.as_bytes()) {
        Ok(name) => Ok(Part {
            name,
            wasm: one.wasm,
            labels: one.labels,
        }),
        Err(NoMemory) => {
            drop(one);
            Err(NoMemory)
        }
    }
}

/// Why modules of those names aren't linked.
fn of_linking(alloc: Global, names: &[&str], error: LinkError) -> WorkError
    requires { NamesPart (length names.now) error }
    ensures { IsLinkingError names.now error result }
{
    match error {
        LinkError::Unknown { part, import } => {
            bad_import(alloc, names[part as usize], import, " unknown")
        }
        LinkError::Mismatch { part, import } => {
            bad_import(alloc, names[part as usize], import, " mismatch")
        }
        LinkError::ElementRange(part) => {
            refused(
                alloc,
                Reason::Link,
                "link: ",
                names[part as usize],
                " element",
            )
        }
        LinkError::DataRange(part) => {
            refused(alloc, Reason::Link, "link: ", names[part as usize], " data")
        }
        LinkError::Limit { which, value } => limit(alloc, which, value),
        LinkError::Memory => WorkError::Memory,
    }
}

/// An import of a module has no match.
fn bad_import(alloc: Global, name: &str, import: u32, wrong: &str) -> WorkError
    ensures { IsTold (Some (bad_import name.now import wrong.now)) result }
{
    match format!(in alloc; " import {import}{wrong}") {
        Ok(tail) => refused(alloc, Reason::Link, "link: ", name, tail.as_str()),
        Err(_) => WorkError::Memory,
    }
}
