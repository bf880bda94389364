//! What the types of the code say of parts: their modules are typed, and their numbers are of their widths.
ghost use Rattle.std.specs.Prelude.{◌≡◌, ◌<◌, ◌^◌};
ghost use Rattle.std.specs.List.{All};
ghost use Rattle.bl_base.specs.Fits.{AreBytes};
ghost use Rattle.bl_wasm.specs.{Linked.HasImmediates, Validity.Typed};
ghost use Rattle.bl_link.specs.Linkable.{HasWidths, IsSound};

use crate::part::Part;
use bl_wasm::{Code, DataSegment, DefinedGlobal, Instr};

/// A number of 32 bits is below 2^32.
fn check_width(number: u32)
    ensures { number < 2 ^ 32 }
{}

/// Reads the immediates of an item, whose types say that they are numbers of their widths.
fn read(item: &Instr)
    ensures { HasImmediates item.now }
{
    match item {
        Instr::I32Const(n) => {
            let _number = *n;
        }
        Instr::I64Const(n) => {
            let _number = *n;
        }
        Instr::Load { argument, .. } | Instr::Store { argument, .. } => {
            check_width(argument.offset);
        }
        _ => {}
    }
}

/// Reads the immediates of items.
fn read_all(items: &[Instr])
    ensures { All HasImmediates items.now }
{
    for item in items {
        read(item);
    }
}

/// Reads the numbers of bodies.
fn read_bodies(bodies: &[Code])
    ensures { All (λ code. All HasImmediates code.items) bodies.now }
{
    for code in bodies {
        read_all(code.items.as_slice());
    }
}

/// Reads the numbers of initial values.
fn read_initials(globals: &[DefinedGlobal])
    ensures { All (λ global. All HasImmediates global.initial) globals.now }
{
    for global in globals {
        read_all(global.initial.as_slice());
    }
}

/// Bytes are below 2^8.
fn check_bytes(bytes: &[u8])
    ensures { AreBytes bytes.now }
{}

/// Reads the bytes of segments.
fn read_segments(segments: &[DataSegment])
    ensures { All (λ segment. AreBytes segment.bytes) segments.now }
{
    for segment in segments {
        check_bytes(segment.bytes.as_slice());
    }
}

/// Reads the numbers of a part.
fn check_part(part: &Part)
    ensures { IsSound part.now }
{
    let wasm = part.wasm.module();
    read_bodies(wasm.bodies.as_slice());
    read_initials(wasm.globals.as_slice());
    read_segments(wasm.segments.as_slice());
}

/// Reads the numbers of all parts.
pub(crate) fn check_parts(parts: &[Part])
    ensures { All IsSound parts.now }
{
    for part in parts {
        check_part(part);
    }
}
