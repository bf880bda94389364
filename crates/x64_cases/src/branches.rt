//! Cases of Tests and Jumps: `test A X BYTES`, where `rbx` becomes 1 or 2, and `loop N BYTES`, which runs a loop of N turns. The loop goes through the
//! assembler.
use crate::case::{push_source, source, value};
use crate::text::{push_bytes, push_code, push_number, push_word};
use bl_asm::assemble_checked;
use bl_base::NoMemory;
use bl_ops::{AccessKind, Op};
use bl_select::{Location, Source, push_jump, push_set, push_store, push_test};
use bl_x64::{Instruction, Register};
use std::alloc::Global;

/// The instruction that writes a number to `rbx`.
fn answer(value: u64) -> Instruction {
    Instruction::Constant {
        to: Register::Rbx,
        value,
    }
}

/// Appends a test whose targets write 1 and 2 to `rbx`. The targets are distances here: a JMP has 5 bytes, and the write of a number 6.
fn push_choice(a: Source, code: &mut Vec<Instruction>) -> Result<(), NoMemory> {
    push_test(a, 5, 11, code)?;
    code.push(answer(1))?;
    push_jump(6, code)?;
    code.push(answer(2))?;
    Ok(())
}

/// Appends a case of a Test.
fn test_case(alloc: Global, form: usize, i: usize, text: &mut Vec<u8>) -> Result<(), NoMemory> {
    let x = value(i);
    let a = source(form % 4, Register::Rsi, 16, x);
    push_word("test ", text)?;
    push_source(a, text)?;
    push_number(x, text)?;
    let mut code: Vec<Instruction> = Vec::new(alloc);
    push_choice(a, &mut code)?;
    push_code(alloc, &code, text)?;
    text.push(b'\n')?;
    Ok(())
}

/// Appends a Set of two operands that is not protected.
fn set(
    op: Op,
    to: Location,
    a: Location,
    b: Source,
    code: &mut Vec<Instruction>,
) -> Result<(), NoMemory> {
    push_set(false, op, to, Source::At(a), b, Source::Number(0), code)
}

/// The number of the next instruction.
fn next(code: &[Instruction]) -> u32 {
    u32::try_from(code.len()).unwrap_or(u32::MAX)
}

/// The variables of the loop.
static COUNTER: Location = Location::Register(Register::Rbx);

static SUM: Location = Location::Slot(16);

static FLAG: Location = Location::Register(Register::R13);

static SQUARE: Location = Location::Context(40);

static PLACE: Location = Location::Slot(48);

/// The numbers of the instructions at which the test, the body and the end of the loop begin.
#[derive(Clone, Copy)]
struct Targets {
    test: u32,
    body: u32,
    end: u32,
}

/// Appends the body of the loop: adds the square of the counter to the sum, stores the sum in memory, and counts.
fn push_body(code: &mut Vec<Instruction>) -> Result<(), NoMemory> {
    set(Op::I64Mul, SQUARE, COUNTER, Source::At(COUNTER), code)?;
    set(Op::I64Add, SUM, SUM, Source::At(SQUARE), code)?;
    set(Op::I32Shl, PLACE, COUNTER, Source::Number(3), code)?;
    let kind = AccessKind::I64Store;
    push_store(kind, 64, Source::At(PLACE), Source::At(SUM), code)?;
    set(Op::I64Add, COUNTER, COUNTER, Source::Number(1), code)
}

/// Appends the loop over the numbers below `rsi`, with jumps to the targets given, and answers where its parts begin.
fn push_loop(to: Targets, code: &mut Vec<Instruction>) -> Result<Targets, NoMemory> {
    let zero = Source::Number(0);
    push_set(false, Op::Move, COUNTER, zero, zero, zero, code)?;
    push_set(false, Op::Move, SUM, zero, zero, zero, code)?;
    let test = next(code);
    let most = Source::At(Location::Register(Register::Rsi));
    set(Op::I64LtU, FLAG, COUNTER, most, code)?;
    push_test(Source::At(FLAG), to.body, to.end, code)?;
    let body = next(code);
    push_body(code)?;
    push_jump(to.test, code)?;
    let end = next(code);
    Ok(Targets { test, body, end })
}

/// The places at which the parts of the loop begin, by a first pass.
fn loop_targets(alloc: Global) -> Result<Targets, NoMemory> {
    let mut code: Vec<Instruction> = Vec::new(alloc);
    let none = Targets {
        test: 0,
        body: 0,
        end: 0,
    };
    push_loop(none, &mut code)
}

/// Appends the bytes of the loop.
fn push_loop_bytes(alloc: Global, text: &mut Vec<u8>) -> Result<(), NoMemory> {
    let targets = loop_targets(alloc)?;
    let mut code: Vec<Instruction> = Vec::new(alloc);
    push_loop(targets, &mut code)?;
    if let Some(bytes) = assemble_checked(alloc, &code)? {
        push_bytes(&bytes, text)?;
    }
    Ok(())
}

/// Appends a case of the loop.
fn loop_case(alloc: Global, turns: u64, text: &mut Vec<u8>) -> Result<(), NoMemory> {
    push_word("loop ", text)?;
    push_number(turns, text)?;
    push_loop_bytes(alloc, text)?;
    text.push(b'\n')?;
    Ok(())
}

/// Appends the cases of a form of places.
fn value_cases(alloc: Global, form: usize, text: &mut Vec<u8>) -> Result<(), NoMemory> {
    for i in 0..14 {
        test_case(alloc, form, i, text)?;
    }
    Ok(())
}

/// Appends all cases: tests at 4 forms of places and 14 values, and loops.
pub fn each_branch_case(alloc: Global, text: &mut Vec<u8>) -> Result<(), NoMemory> {
    value_cases(alloc, 0, text)?;
    value_cases(alloc, 1, text)?;
    value_cases(alloc, 2, text)?;
    value_cases(alloc, 3, text)?;
    for turns in [0, 1, 2, 3, 10, 100, 1000] {
        loop_case(alloc, turns, text)?;
    }
    Ok(())
}

/// Appends three cases.
pub fn few_branch_cases(alloc: Global, text: &mut Vec<u8>) -> Result<(), NoMemory> {
    test_case(alloc, 0, 0, text)?;
    test_case(alloc, 1, 10, text)?;
    loop_case(alloc, 10, text)
}
