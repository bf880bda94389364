//! The instructions of a Load and of a Store.
ghost use Rattle.std.specs.Prelude.{◌≡◌, ◌++◌, OnOk};
ghost use Rattle.bl_x64.specs.declared.instruction.Instruction.TheVariants as i;
ghost use Rattle.bl_x64.specs.declared.instruction.Place.TheVariants as place;
ghost use Rattle.bl_x64.specs.declared.register.Register.TheVariants.{Rax, Rcx};
ghost use Rattle.bl_select.specs.Templates.{accessed as accessed_place, address as address_of, load_from as load_by, load_template, store_template, store_to as store_by};

use crate::location::{Location, Source};
use crate::operands::{alu, constant, load, push_finish};
use bl_base::NoMemory;
use bl_ops::AccessKind;
use bl_x64::{Address, Alu, Extension, Instruction, Place, Register, Size, Width};

/// The operand that names the first byte of an access.
fn accessed() -> Address
    ensures { result ≡ accessed_place }
{
    Address {
        base: Register::R14,
        index: Some(Register::Rax),
        displacement: 0,
    }
}

/// Writes the beginning of an access, relative to the bytes of all memories, to `rax`.
fn push_address(a: Source, offset: u64, code: &mut Vec<Instruction>) -> Result<(), NoMemory>
    ensures { OnOk result (code.new.items ≡ code.old.items ++ address_of a offset) }
{
    code.push(load(Size::Long, Register::Rax, a))?;
    code.push(constant(Register::Rcx, offset))?;
    code.push(alu(Alu::Add, Size::Quad, Register::Rax, Register::Rcx))?;
    Ok(())
}

/// Loads the bytes of an access to `rax`.
fn moved(size: Size) -> Instruction
    ensures { result ≡ i.Mov size Rax (place.Memory accessed_place) }
{
    Instruction::Mov {
        size,
        to: Register::Rax,
        from: Place::Memory(accessed()),
    }
}

/// Loads the bytes of an access to `rax`, and extends them.
fn extended(how: Extension, size: Size) -> Instruction
    ensures { result ≡ i.Extend how size Rax (place.Memory accessed_place) }
{
    Instruction::Extend {
        how,
        size,
        to: Register::Rax,
        from: Place::Memory(accessed()),
    }
}

/// Loads the bytes of an access of a kind to `rax`.
fn load_from(kind: AccessKind) -> Instruction
    ensures { result ≡ load_by kind }
{
    let (long, quad) = (Size::Long, Size::Quad);
    match kind {
        AccessKind::I32Load | AccessKind::I64Load32U => moved(long),
        AccessKind::I32Load8S => extended(Extension::Sign8, long),
        AccessKind::I32Load8U => extended(Extension::Zero8, long),
        AccessKind::I32Load16S => extended(Extension::Sign16, long),
        AccessKind::I32Load16U => extended(Extension::Zero16, long),
        AccessKind::I64Load8S => extended(Extension::Sign8, quad),
        AccessKind::I64Load8U => extended(Extension::Zero8, quad),
        AccessKind::I64Load16S => extended(Extension::Sign16, quad),
        AccessKind::I64Load16U => extended(Extension::Zero16, quad),
        AccessKind::I64Load32S => extended(Extension::Sign32, quad),
        _ => moved(quad),
    }
}

/// Stores bytes of `rcx` at the place of an access.
fn stored(width: Width) -> Instruction
    ensures { result ≡ i.Store width accessed_place Rcx }
{
    Instruction::Store {
        width,
        to: accessed(),
        from: Register::Rcx,
    }
}

/// Stores `rcx` by an access of a kind.
fn store_to(kind: AccessKind) -> Instruction
    ensures { result ≡ store_by kind }
{
    match kind {
        AccessKind::I32Store | AccessKind::I64Store32 => stored(Width::Long),
        AccessKind::I32Store8 | AccessKind::I64Store8 => stored(Width::Byte),
        AccessKind::I32Store16 | AccessKind::I64Store16 => stored(Width::Word),
        _ => stored(Width::Quad),
    }
}

/// Appends the instructions of a Load (`load_template`, specs/Templates.antt). The offset includes the place at which the memory begins among the
/// bytes of all memories. The kind should be that of a load: the laws speak of no other.
pub fn push_load(
    protect: bool,
    kind: AccessKind,
    to: Location,
    offset: u64,
    a: Source,
    code: &mut Vec<Instruction>,
) -> Result<(), NoMemory>
    ensures { OnOk result (code.new.items ≡ code.old.items ++ load_template protect kind to offset a) }
{
    push_address(a, offset, code)?;
    code.push(load_from(kind))?;
    push_finish(protect, to, code)
}

/// Appends the instructions of a Store (`store_template`, specs/Templates.antt) of the operand `b` at the address `a`. The offset is as for a load,
/// and the kind should be that of a store.
pub fn push_store(
    kind: AccessKind,
    offset: u64,
    a: Source,
    b: Source,
    code: &mut Vec<Instruction>,
) -> Result<(), NoMemory>
    ensures { OnOk result (code.new.items ≡ code.old.items ++ store_template kind offset a b) }
{
    push_address(a, offset, code)?;
    code.push(load(Size::Quad, Register::Rcx, b))?;
    code.push(store_to(kind))?;
    Ok(())
}
