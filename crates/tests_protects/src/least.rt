//! What is found for the bytes of an image. Bytes that are no image, and texts that are no certificate, are answered like want of memory.
use bl_base::{NoMemory, Pos, SiteSet};
use bl_cut::{Choice, least_protects, protect};
use bl_graph::Certificate;
use bl_image::decode_image;
use bl_program::WellFormed;
use bl_transient::{FlowVerdict, flows};
use bl_witness::{CertVerdict, check_certificate, from_json, to_json};
use std::alloc::Global;

/// The program that the bytes are the image of.
pub(crate) fn program_of(alloc: Global, image: &[u8]) -> Result<WellFormed, NoMemory> {
    match decode_image(alloc, image) {
        Ok(program) => Ok(program),
        Err(_) => Err(NoMemory),
    }
}

/// The certificate that the bytes spell.
pub(crate) fn certificate_of(alloc: Global, text: &[u8]) -> Result<Certificate, NoMemory> {
    match from_json(alloc, text) {
        Ok(certificate) => Ok(certificate),
        Err(_) => Err(NoMemory),
    }
}

/// The verdict on the certificate that the bytes spell, in a program.
pub(crate) fn verdict(
    alloc: Global,
    program: &WellFormed,
    text: &[u8],
) -> Result<CertVerdict, NoMemory> {
    let certificate = certificate_of(alloc, text)?;
    check_certificate(alloc, program, &certificate)
}

/// The least protects of the program that the bytes are the image of.
fn choice_of(alloc: Global, image: &[u8]) -> Result<Choice, NoMemory> {
    let program = program_of(alloc, image)?;
    least_protects(alloc, &program)
}

/// The program that the bytes are the image of, with protects at those sites.
fn protected(alloc: Global, image: &[u8], protects: &SiteSet) -> Result<WellFormed, NoMemory> {
    let program = program_of(alloc, image)?;
    Ok(protect(program, protects))
}

/// Whether a certificate, read from its own text, keeps the rules in a program.
fn is_certified(
    alloc: Global,
    program: &WellFormed,
    certificate: &Certificate,
) -> Result<bool, NoMemory> {
    let text = to_json(alloc, certificate)?;
    Ok(verdict(alloc, program, text.as_slice())? == CertVerdict::Yes)
}

/// Whether a program with those protects passes.
fn is_stable(alloc: Global, program: &WellFormed, protects: &SiteSet) -> Result<bool, NoMemory> {
    Ok(matches!(&flows(alloc, program, protects)?, FlowVerdict::Yes(_)))
}

/// Whether the choice's protects, in the program that the bytes are the image of, are certified and pass.
fn holds(alloc: Global, image: &[u8], choice: &Choice) -> Result<bool, NoMemory> {
    let program = protected(alloc, image, &choice.protects)?;
    if !is_certified(alloc, &program, &choice.certificate)? {
        return Ok(false);
    }
    is_stable(alloc, &program, &choice.protects)
}

/// Whether the positions below 100 in a set are those, which rise.
fn are(sites: &SiteSet, positions: &[u32]) -> bool {
    let mut next = 0;
    for at in 0..100 {
        if sites.contains(Pos(at)) {
            if next >= positions.len() || positions[next] != at {
                return false;
            }
            next += 1;
        }
    }
    next == positions.len()
}

/// Whether the least protects are those positions, with that weight.
pub(crate) fn is_chosen(
    alloc: Global,
    image: &[u8],
    protects: &[u32],
    weight: u64,
) -> Result<bool, NoMemory> {
    let choice = choice_of(alloc, image)?;
    Ok(choice.weight == weight && are(&choice.protects, protects))
}

/// Whether the least protects are those positions, with that weight, are certified and pass.
pub(crate) fn is_least(
    alloc: Global,
    image: &[u8],
    protects: &[u32],
    weight: u64,
) -> Result<bool, NoMemory> {
    let choice = choice_of(alloc, image)?;
    if choice.weight != weight || !are(&choice.protects, protects) {
        return Ok(false);
    }
    holds(alloc, image, &choice)
}

/// Whether the bytes are those of one of the texts.
fn is_one_of(bytes: &[u8], texts: &[&str]) -> bool {
    for text in texts {
        if bytes == text.as_bytes() {
            return true;
        }
    }
    false
}

/// Whether the certificate's text is one of those.
pub(crate) fn is_certified_by(
    alloc: Global,
    image: &[u8],
    texts: &[&str],
) -> Result<bool, NoMemory> {
    let choice = choice_of(alloc, image)?;
    let text = to_json(alloc, &choice.certificate)?;
    Ok(is_one_of(text.as_slice(), texts))
}
