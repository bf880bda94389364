//! Calls on one side of an interface, on a program whose Test reads a parameter directly: no program of modules has such a one. What is expected
//! was worked by hand from the two commands, at 7 and 8, by the transient rules.
ghost use Rattle.bl_iface.specs.InterfaceFunctions.{Matches};

use bl_base::{NoMemory, Pos, Role};
use bl_iface::{
    Iface, IfaceError, UnderError, UnderVerdict, least_under, passes_under, read_iface, unmatched,
};
use bl_image::{ImageError, decode_image};
use bl_program::WellFormed;
use std::alloc::Global;
use std::test::Fail;

/// The image of a function of one parameter, whose Test reads it and goes to the Ret in either case.
const TESTS: [u8; 26] = [
    0x42, 0x4C, 0x49, 0x4D, 0x01, 0x00, 0x00, 0x01, 0x01, 0x7F, 0x00, 0x00, 0x01, 0x02, 0x01, 0x03,
    0x6D, 0x2F, 0x66, 0x00, 0x03, 0x00, 0x00, 0x08, 0x08, 0x08,
];

/// The program.
fn program(alloc: Global) -> Result<Option<WellFormed>, NoMemory> {
    match decode_image(alloc, &TESTS) {
        Ok(program) => Ok(Some(program)),
        Err(ImageError::Memory) => Err(NoMemory),
        Err(_) => Ok(None),
    }
}

/// The interface of a line.
fn interface(alloc: Global, line: &str) -> Result<Option<Iface>, NoMemory> {
    match read_iface(alloc, line.as_bytes()) {
        Ok(iface) => Ok(Some(iface)),
        Err(IfaceError::Memory) => Err(NoMemory),
        Err(IfaceError::Line(_)) => Ok(None),
    }
}

/// What is asked of the program by an interface of one line.
#[derive(Clone, Copy, Debug, PartialEq, Eq)]
enum Found {
    /// Something stands against the images or the line.
    Nothing,
    /// The program doesn't have that function of the interface.
    Unmatched(u64),
    /// That weight suffices, and the verdict on the program's own marks.
    Chosen(u64, UnderVerdict),
    /// That sink reads what is given, and the verdict on the program's own marks.
    Sink(Pos, UnderVerdict),
}

/// What is found of a program that has the functions.
fn found_on(alloc: Global, p: &WellFormed, role: Role, i: &Iface) -> Result<Found, NoMemory>
    requires { Matches p.now i.now }
{
    let verdict = passes_under(alloc, p, role, i)?;
    match least_under(alloc, p, role, i) {
        Ok(choice) => Ok(Found::Chosen(choice.weight, verdict)),
        Err(UnderError::Sink(at)) => Ok(Found::Sink(at, verdict)),
        Err(UnderError::Memory) => Err(NoMemory),
    }
}

/// What is found of the program on one side.
fn find(alloc: Global, role: Role, line: &str) -> Result<Found, NoMemory> {
    let Some(p) = program(alloc)? else {
        return Ok(Found::Nothing);
    };
    let Some(i) = interface(alloc, line)? else {
        return Ok(Found::Nothing);
    };
    match unmatched(&p, &i) {
        Some(index) => Ok(Found::Unmatched(index)),
        None => found_on(alloc, &p, role, &i),
    }
}

#[test]
fn a_sink_that_reads_what_is_given_is_told(rt: HostRuntime) -> Result<(), Fail> {
    let told = find(rt.alloc(), Role::Library, "function t - m/f\n")?;
    assert!(rt; told == Found::Sink(Pos(7), UnderVerdict::No(Pos(7))));
    Ok(())
}

#[test]
fn what_is_stable_may_be_read(rt: HostRuntime) -> Result<(), Fail> {
    let library = find(rt.alloc(), Role::Library, "function s - m/f")?;
    assert!(rt; library == Found::Chosen(0, UnderVerdict::Yes));
    let client = find(rt.alloc(), Role::Client, "function t - m/f")?;
    assert!(rt; client == Found::Chosen(0, UnderVerdict::Yes));
    Ok(())
}

#[test]
fn functions_are_matched_by_their_counts(rt: HostRuntime) -> Result<(), Fail> {
    let wide = find(rt.alloc(), Role::Library, "function tt - m/f")?;
    assert!(rt; wide == Found::Unmatched(0));
    let absent = find(
        rt.alloc(),
        Role::Library,
        "function s - m/f\nfunction - - m/g\n",
    )?;
    assert!(rt; absent == Found::Unmatched(1));
    let bad = find(rt.alloc(), Role::Library, "function s -\n")?;
    assert!(rt; bad == Found::Nothing);
    Ok(())
}
