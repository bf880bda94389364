//! Cases of Loads and Stores: `access KIND TO A B X Y OFFSET BYTES`, with the code of the kind, three places, the address, the value that a Store
//! writes, and the offset.
ghost use Rattle.std.specs.Prelude.{◌<◌};

use crate::case::{push_location, push_source, source, target, value};
use crate::text::{push_byte, push_code, push_number, push_word};
use bl_base::NoMemory;
use bl_ops::AccessKind;
use bl_select::{Location, Source, push_load, push_store};
use bl_x64::{Instruction, Register};
use std::alloc::Global;

/// The kinds of accesses.
static KINDS: [AccessKind; 19] = [
    AccessKind::I32Load,
    AccessKind::I64Load,
    AccessKind::I32Load8S,
    AccessKind::I32Load8U,
    AccessKind::I32Load16S,
    AccessKind::I32Load16U,
    AccessKind::I64Load8S,
    AccessKind::I64Load8U,
    AccessKind::I64Load16S,
    AccessKind::I64Load16U,
    AccessKind::I64Load32S,
    AccessKind::I64Load32U,
    AccessKind::I32Store,
    AccessKind::I64Store,
    AccessKind::I32Store8,
    AccessKind::I32Store16,
    AccessKind::I64Store8,
    AccessKind::I64Store16,
    AccessKind::I64Store32,
];

/// Addresses. One has bits above the lowest 32, which have no effect.
static ADDRESSES: [u64; 8] = [0, 1, 5, 8, 1000, 0x1_0000_0003, 77, 4088];

/// Offsets.
static OFFSETS: [u64; 4] = [0, 3, 65536, 70001];

/// The operands of an access, and their values.
#[derive(Clone, Copy)]
struct Operands {
    protect: bool,
    to: Location,
    a: Source,
    b: Source,
    x: u64,
    y: u64,
    offset: u64,
}

/// The operands of a form of places and a number of values.
fn operands_of(form: usize, i: usize) -> Operands
    requires form { form < 16 }
    requires i { i < 8 }
{
    let (first, second) = (form % 4, form / 4 % 4);
    let (x, y) = (ADDRESSES[i], value(i + form));
    Operands {
        protect: form % 2 == 1,
        to: target((form + i) % 4, first),
        a: source(first, Register::Rsi, 16, x),
        b: source(second, Register::Rdi, 24, y),
        x,
        y,
        offset: OFFSETS[(form + i) % 4],
    }
}

/// Appends the instructions of an access.
fn push_access(
    kind: AccessKind,
    it: Operands,
    code: &mut Vec<Instruction>,
) -> Result<(), NoMemory> {
    if kind.is_load() {
        return push_load(it.protect, kind, it.to, it.offset, it.a, code);
    }
    push_store(kind, it.offset, it.a, it.b, code)
}

/// Appends what a case says of its operands.
fn push_operands(kind: AccessKind, it: Operands, text: &mut Vec<u8>) -> Result<(), NoMemory> {
    push_word("access ", text)?;
    push_byte(kind.code(), text)?;
    text.push(b' ')?;
    push_location(it.to, text)?;
    push_source(it.a, text)?;
    push_source(it.b, text)?;
    push_number(it.x, text)?;
    push_number(it.y, text)?;
    push_number(it.offset, text)
}

/// Appends a case.
fn access_case(
    alloc: Global,
    kind: AccessKind,
    form: usize,
    i: usize,
    text: &mut Vec<u8>,
) -> Result<(), NoMemory>
    requires form { form < 16 }
    requires i { i < 8 }
{
    let it = operands_of(form, i);
    push_operands(kind, it, text)?;
    let mut code: Vec<Instruction> = Vec::new(alloc);
    push_access(kind, it, &mut code)?;
    push_code(alloc, &code, text)?;
    text.push(b'\n')?;
    Ok(())
}

/// Appends the cases of a kind and a form of places.
fn value_cases(
    alloc: Global,
    kind: AccessKind,
    form: usize,
    text: &mut Vec<u8>,
) -> Result<(), NoMemory>
    requires { form < 16 }
{
    for i in 0..8 {
        access_case(alloc, kind, form, i, text)?;
    }
    Ok(())
}

/// Appends the cases of a kind.
fn form_cases(alloc: Global, kind: AccessKind, text: &mut Vec<u8>) -> Result<(), NoMemory> {
    for form in 0..16 {
        value_cases(alloc, kind, form, text)?;
    }
    Ok(())
}

/// Appends all cases: each kind at 16 forms of places and 8 numbers of values.
pub fn each_access_case(alloc: Global, text: &mut Vec<u8>) -> Result<(), NoMemory> {
    for kind in &KINDS {
        form_cases(alloc, *kind, text)?;
    }
    Ok(())
}

/// Appends one case of each kind.
pub fn few_access_cases(alloc: Global, text: &mut Vec<u8>) -> Result<(), NoMemory> {
    for kind in &KINDS {
        let i = usize::from(kind.code());
        access_case(alloc, *kind, i % 16, i % 8, text)?;
    }
    Ok(())
}
