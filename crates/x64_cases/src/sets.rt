//! Cases of Sets: `set OPERATOR TO A B C X Y Z RESULT BYTES`, with the image code of the operator, four places, the values of the three operands,
//! and the result by bl_ops.
ghost use Rattle.std.specs.Prelude.{◌<◌};

use crate::case::{push_location, push_source, source, target, value};
use crate::text::{push_byte, push_code, push_number, push_word};
use bl_base::NoMemory;
use bl_ops::{Op, by_image_code, eval};
use bl_select::{Location, Source, push_set};
use bl_x64::{Instruction, Register};
use std::alloc::Global;

/// The operands of a Set, and their values.
#[derive(Clone, Copy)]
struct Operands {
    to: Location,
    a: Source,
    b: Source,
    c: Source,
    x: u64,
    y: u64,
    z: u64,
}

/// The operands of a form of places and a number of values.
fn operands_of(form: usize, i: usize) -> Operands
    requires form { form < 16 }
    requires i { i < 14 }
{
    let (first, second, third) = (form % 4, form / 4 % 4, (form + i) % 4);
    let (x, y, z) = (value(i), value(i * 5 + form), value(i * 3 + form / 2));
    Operands {
        to: target(third, first),
        a: source(first, Register::Rsi, 16, x),
        b: source(second, Register::Rdi, 24, y),
        c: source(third, Register::R8, 32, z),
        x,
        y,
        z,
    }
}

/// Appends what a case says of its operands.
fn push_operands(op: Op, number: u8, it: Operands, text: &mut Vec<u8>) -> Result<(), NoMemory> {
    push_word("set ", text)?;
    push_byte(number, text)?;
    text.push(b' ')?;
    push_location(it.to, text)?;
    push_source(it.a, text)?;
    push_source(it.b, text)?;
    push_source(it.c, text)?;
    push_number(it.x, text)?;
    push_number(it.y, text)?;
    push_number(it.z, text)?;
    push_number(eval(op, it.x, it.y, it.z), text)
}

/// Appends a case.
fn set_case(
    alloc: Global,
    number: u8,
    form: usize,
    i: usize,
    text: &mut Vec<u8>,
) -> Result<(), NoMemory>
    requires form { form < 16 }
    requires i { i < 14 }
{
    let Some(op) = by_image_code(number) else {
        return Ok(());
    };
    let it = operands_of(form, i);
    push_operands(op, number, it, text)?;
    let mut code: Vec<Instruction> = Vec::new(alloc);
    push_set((form + i) % 2 == 1, op, it.to, it.a, it.b, it.c, &mut code)?;
    push_code(alloc, &code, text)?;
    text.push(b'\n')?;
    Ok(())
}

/// Appends the cases of an operator and a form of places.
fn value_cases(alloc: Global, number: u8, form: usize, text: &mut Vec<u8>) -> Result<(), NoMemory>
    requires { form < 16 }
{
    for i in 0..14 {
        set_case(alloc, number, form, i, text)?;
    }
    Ok(())
}

/// Appends the cases of an operator.
fn form_cases(alloc: Global, number: u8, text: &mut Vec<u8>) -> Result<(), NoMemory> {
    for form in 0..16 {
        value_cases(alloc, number, form, text)?;
    }
    Ok(())
}

/// Appends all cases: each operator at 16 forms of places and 14 numbers of values.
pub fn each_set_case(alloc: Global, text: &mut Vec<u8>) -> Result<(), NoMemory> {
    for number in 0..=255u8 {
        form_cases(alloc, number, text)?;
    }
    Ok(())
}

/// Appends one case of each operator.
pub fn few_set_cases(alloc: Global, text: &mut Vec<u8>) -> Result<(), NoMemory> {
    for number in 0..=255u8 {
        let (form, i) = (usize::from(number % 16), usize::from(number % 14));
        set_case(alloc, number, form, i, text)?;
    }
    Ok(())
}
