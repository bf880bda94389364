//! The operands of a case: the places at which they are, and their values.
ghost use Rattle.std.specs.Prelude.{◌<◌};

use crate::text::{push_byte, push_word};
use bl_base::NoMemory;
use bl_select::{Location, Source};
use bl_x64::Register;

/// Values of operands: small numbers, numbers next to the ends of 8, 16, 32 and 64 bits, and a mixture of digits.
static VALUES: [u64; 14] = [
    0,
    1,
    2,
    31,
    63,
    0x80,
    0x8000,
    0x7FFF_FFFF,
    0x8000_0000,
    0xFFFF_FFFF,
    0x1234_5678_9ABC_DEF0,
    0x7FFF_FFFF_FFFF_FFFF,
    0x8000_0000_0000_0000,
    0xFFFF_FFFF_FFFF_FFFF,
];

/// A value by its number, modulo 14.
pub fn value(i: usize) -> u64 {
    VALUES[i % 14]
}

/// A location of a kind: 0 is a register, 1 a slot, and any other number a place in the context.
fn location(kind: usize, register: Register, at: u32) -> Location {
    match kind {
        0 => Location::Register(register),
        1 => Location::Slot(at),
        _ => Location::Context(at),
    }
}

/// An operand of a kind: 3 is a number, and the others are locations.
pub fn source(kind: usize, register: Register, at: u32, number: u64) -> Source {
    if kind == 3 {
        return Source::Number(number);
    }
    Source::At(location(kind, register, at))
}

/// The location of a result: 3 is the location of the first operand, which is of the kind that is given.
pub fn target(kind: usize, first: usize) -> Location {
    if kind == 3 && first < 3 {
        return location(first, Register::Rsi, 16);
    }
    location(kind % 3, Register::Rbx, 64)
}

/// Appends a location as a letter and two digits, and a space.
pub fn push_location(l: Location, text: &mut Vec<u8>) -> Result<(), NoMemory> {
    let (letter, number) = match l {
        Location::Register(r) => (b'r', u32::from(r.code())),
        Location::Slot(at) => (b's', at),
        Location::Context(at) => (b'c', at),
    };
    text.push(letter)?;
    push_byte((number % 256) as u8, text)?;
    text.push(b' ')?;
    Ok(())
}

/// Appends an operand as a location; a number is `n00`.
pub fn push_source(from: Source, text: &mut Vec<u8>) -> Result<(), NoMemory> {
    match from {
        Source::At(l) => push_location(l, text),
        Source::Number(_) => push_word("n00 ", text),
    }
}
