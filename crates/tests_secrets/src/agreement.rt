//! Starts that agree in public, and starts that don't. By hand: they agree where the arguments at public parameters and the bytes of public memories
//! behind the patches are equal.
use bl_base::{List, NoMemory, Patch, Start, Text};
use bl_cmd::WellFormed;
use bl_image::decode_image;
use bl_twin::agree;
use std::alloc::Global;
use std::test::Fail;
use tests_samples::{DEMANDED_IMAGE, GROWTH_IMAGE};
use tests_starts::is_start;

/// A start of one argument, and of patches of memory 0 of one byte each.
fn start_of(alloc: Global, argument: u64, patches: &[(u32, u8)]) -> Result<Start, NoMemory> {
    let mut start = Start {
        args: List::new(alloc),
        patches: List::new(alloc),
    };
    start.args.push(argument)?;
    for (offset, byte) in patches {
        start.patches.push(Patch {
            memory: 0,
            offset: *offset,
            bytes: Text::copy_of(alloc, &[*byte])?,
        })?;
    }
    Ok(start)
}

/// Whether two starts of a program's first function agree in public; None where one of them doesn't fit.
fn agreement(
    alloc: Global,
    program: &WellFormed,
    one: &Start,
    other: &Start,
) -> Result<Option<bool>, NoMemory> {
    if !is_start(alloc, program, 0, one)? {
        return Ok(None);
    }
    if !is_start(alloc, program, 0, other)? {
        return Ok(None);
    }
    Ok(Some(agree(alloc, program, 0, one, other)?))
}

/// The same of an image's first function; None where the bytes are no image, too.
fn answer(
    alloc: Global,
    image: &[u8],
    one: &Start,
    other: &Start,
) -> Result<Option<bool>, NoMemory> {
    match decode_image(alloc, image) {
        Ok(program) => agreement(alloc, &program, one, other),
        Err(_) => Ok(None),
    }
}

/// Whether two starts of an image's first function fit and agree in public, or don't agree.
fn answers(
    alloc: Global,
    image: &[u8],
    one: &Start,
    other: &Start,
    wanted: bool,
) -> Result<bool, NoMemory> {
    Ok(answer(alloc, image, one, other)? == Some(wanted))
}

/// Whether two arguments differ where the parameter is public alone.
fn differ_in_public(alloc: Global) -> Result<bool, NoMemory> {
    let five = start_of(alloc, 5, &[])?;
    let six = start_of(alloc, 6, &[])?;
    Ok(
        answers(alloc, &GROWTH_IMAGE, &five, &five, true)?
            && answers(alloc, &GROWTH_IMAGE, &five, &six, false)?
            && answers(alloc, &DEMANDED_IMAGE, &five, &six, true)?,
    )
}

#[test]
fn arguments_agree_at_public_parameters_alone(rt: HostRuntime) -> Result<(), Fail> {
    assert!(rt; differ_in_public(rt.alloc())?);
    Ok(())
}

/// Whether a start without patches and one of these patches agree in public, or don't.
fn is_like_none(alloc: Global, patches: &[(u32, u8)], wanted: bool) -> Result<bool, NoMemory> {
    let none = start_of(alloc, 5, &[])?;
    let patched = start_of(alloc, 5, patches)?;
    answers(alloc, &GROWTH_IMAGE, &none, &patched, wanted)
}

#[test]
fn memories_agree_by_their_contents_behind_the_patches(rt: HostRuntime) -> Result<(), Fail> {
    assert!(rt; is_like_none(rt.alloc(), &[(65_535, 9), (65_535, 0)], true)?);
    assert!(rt; is_like_none(rt.alloc(), &[(65_535, 0), (65_535, 9)], false)?);
    Ok(())
}
