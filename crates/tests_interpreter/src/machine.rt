//! Runs of function 0 of small modules. The results are those that node v20.20's WebAssembly gives; the steps are counted by hand:
//! one for the entering of a function, for each item that is executed and for the return at its end.
ghost use Rattle.std.specs.Prelude.{◌≡◌, IfOk, map};

use bl_base::{List, NoMemory, Patch, Run, Start, Trap, fits};
use bl_machine::interp;
use bl_wasm::{Linked, Memory};
use std::alloc::Global;
use std::test::Fail;
use tests_linked::linked;

/// The start with these arguments and patches.
pub fn patched_start(alloc: Global, args: &[u64], patches: List<Patch>) -> Result<Start, NoMemory> {
    let mut cells = Vec::new(alloc);
    cells.extend_from_slice(args)?;
    Ok(Start {
        args: List::of(cells),
        patches,
    })
}

/// The start with these arguments alone.
pub fn start_of(alloc: Global, args: &[u64]) -> Result<Start, NoMemory> {
    patched_start(alloc, args, List::new(alloc))
}

/// The first pages of memories.
fn sizes(alloc: Global, memories: &[Memory]) -> Result<Vec<u32>, NoMemory>
    ensures { IfOk result (λ sizes. sizes.items ≡ map (λ memory. memory.pages) memories.now) }
{
    Ok(memories.iter().map(|memory| memory.pages).collect(alloc)?)
}

/// The outcome of a function of a tree within so many steps; None where there is no such function, or the start doesn't fit.
pub fn run_linked(
    alloc: Global,
    linked: &Linked,
    number: u32,
    start: &Start,
    steps: u64,
) -> Result<Option<Run>, NoMemory> {
    let tree = linked.tree();
    let Some(function) = tree.functions.as_slice().get(number as usize) else {
        return Ok(None);
    };
    let Some(kind) = tree.types.as_slice().get(function.type_index as usize) else {
        return Ok(None);
    };
    let sizes = sizes(alloc, tree.memories.as_slice())?;
    if !fits(kind.params.as_slice(), &sizes, start) {
        return Ok(None);
    }
    Ok(Some(interp(alloc, linked, number, start, steps)?))
}

/// The outcome of function 0 of a tree within so many steps; None where the arguments don't fit.
fn run_tree(
    alloc: Global,
    linked: &Linked,
    args: &[u64],
    steps: u64,
) -> Result<Option<Run>, NoMemory> {
    let start = start_of(alloc, args)?;
    run_linked(alloc, linked, 0, &start, steps)
}

/// The outcome of function 0 of a module within so many steps; None where the module can't be linked or the arguments don't fit.
fn run(alloc: Global, wasm: &[u8], args: &[u64], steps: u64) -> Result<Option<Run>, NoMemory> {
    match linked(alloc, &[("m", wasm)])? {
        Some(Ok(linked)) => run_tree(alloc, &linked, args, steps),
        _ => Ok(None),
    }
}

/// Whether the function returns these values within so many steps.
fn returns_in(
    alloc: Global,
    wasm: &[u8],
    args: &[u64],
    steps: u64,
    wanted: &[u64],
) -> Result<bool, NoMemory> {
    match run(alloc, wasm, args, steps)? {
        Some(Run::Returned { values, .. }) => Ok(values.as_slice() == wanted),
        _ => Ok(false),
    }
}

/// Whether the function traps so within so many steps.
fn traps_in(
    alloc: Global,
    wasm: &[u8],
    args: &[u64],
    steps: u64,
    wanted: Trap,
) -> Result<bool, NoMemory> {
    match run(alloc, wasm, args, steps)? {
        Some(Run::Trapped { kind, .. }) => Ok(kind == wanted),
        _ => Ok(false),
    }
}

fn is_spent(alloc: Global, wasm: &[u8], args: &[u64], steps: u64) -> Result<bool, NoMemory> {
    Ok(matches!(run(alloc, wasm, args, steps)?, Some(Run::Spent)))
}

/// How a run ends.
enum End {
    /// It returns these values.
    Returned(&'static [u64]),
    /// It traps so.
    Trapped(Trap),
    /// Its steps are too few.
    Spent,
}

/// A module, the arguments of its function 0, the steps, and how the run ends.
type Case = (&'static [u8], &'static [u64], u64, End);

/// Whether the run ends so.
fn ends(alloc: Global, wasm: &[u8], args: &[u64], steps: u64, end: &End) -> Result<bool, NoMemory> {
    match end {
        End::Returned(values) => returns_in(alloc, wasm, args, steps, *values),
        End::Trapped(kind) => traps_in(alloc, wasm, args, steps, *kind),
        End::Spent => is_spent(alloc, wasm, args, steps),
    }
}

/// How many runs end as they have to before the first that doesn't.
fn passing(alloc: Global, cases: &[Case]) -> Result<u32, NoMemory> {
    let mut passed = 0u32;
    for (wasm, args, steps, end) in cases {
        if !ends(alloc, *wasm, *args, *steps, end)? {
            break;
        }
        passed = passed.wrapping_add(1);
    }
    Ok(passed)
}

/// Steps that are enough for all runs here.
const MANY: u64 = 20_000;

/// [i32] -> [i32]: local.get 0, i32.extend8_s.
const EXTEND_8: &[u8] =
    b"\0asm\x01\0\0\0\x01\x06\x01`\x01\x7f\x01\x7f\x03\x02\x01\0\n\x07\x01\x05\0 \0\xc0\x0b";

/// [i32] -> [i32]: local.get 0, i32.extend16_s.
const EXTEND_16: &[u8] =
    b"\0asm\x01\0\0\0\x01\x06\x01`\x01\x7f\x01\x7f\x03\x02\x01\0\n\x07\x01\x05\0 \0\xc1\x0b";

/// [i64] -> [i64]: local.get 0, i64.extend32_s.
const EXTEND_32: &[u8] =
    b"\0asm\x01\0\0\0\x01\x06\x01`\x01~\x01~\x03\x02\x01\0\n\x07\x01\x05\0 \0\xc4\x0b";

/// [i32 i32] -> [i32 i32]: local.get 1, local.get 0.
const SWAP: &[u8] =
    b"\0asm\x01\0\0\0\x01\x08\x01`\x02\x7f\x7f\x02\x7f\x7f\x03\x02\x01\0\n\x08\x01\x06\0 \x01 \0\x0b";

/// [i32] -> [i32], type 0: local.get 0, loop (type 0), i32.const -1, i32.add, local.tee 0, local.get 0, br_if 0, end.
const COUNT_DOWN: &[u8] =
    b"\0asm\x01\0\0\0\x01\x06\x01`\x01\x7f\x01\x7f\x03\x02\x01\0\n\x12\x01\x10\0 \0\x03\0A\x7fj\"\0 \0\x0d\0\x0b\x0b";

/// [i32] -> [i32], and type 1 is [i32 i32] -> [i32]: the numbers from the argument down are added up by a loop of type 1; the branch
/// to it leaves a third value behind: i32.const 0, local.get 0, loop (type 1), local.set 0, local.set 1, i32.const 17, local.get 1,
/// local.get 0, i32.add, local.get 0, i32.const -1, i32.add, local.tee 0, local.get 0, br_if 0, drop, local.set 1, drop,
/// local.get 1, end.
const SUM_BY_PARAMETERS: &[u8] =
    b"\0asm\x01\0\0\0\x01\x0c\x02`\x01\x7f\x01\x7f`\x02\x7f\x7f\x01\x7f\x03\x02\x01\0\n)\x01'\x01\x01\x7fA\0 \0\x03\x01!\0!\x01A\x11 \x01 \0j \0A\x7fj\"\0 \0\x0d\0\x1a!\x01\x1a \x01\x0b\x0b";

/// [i32] -> [i32 i32], and type 1 is [] -> [i32 i32]: block (type 1), i32.const 5, block (type 1), i32.const 7, i32.const 8,
/// i32.const 9, local.get 0, br_table 0 1 2, end, i32.add, end, i32.const 1, i32.add.
const NESTED: &[u8] =
    b"\0asm\x01\0\0\0\x01\x0c\x02`\x01\x7f\x02\x7f\x7f`\0\x02\x7f\x7f\x03\x02\x01\0\n\x1d\x01\x1b\0\x02\x01A\x05\x02\x01A\x07A\x08A\x09 \0\x0e\x02\0\x01\x02\x0bj\x0bA\x01j\x0b";

/// [i32 i32 i32] -> [i32], and type 1 is [i32 i32] -> [i32]: local.get 0, local.get 1, local.get 2, if (type 1), i32.sub, else, i32.add,
/// end.
const CHOOSE: &[u8] =
    b"\0asm\x01\0\0\0\x01\x0e\x02`\x03\x7f\x7f\x7f\x01\x7f`\x02\x7f\x7f\x01\x7f\x03\x02\x01\0\n\x10\x01\x0e\0 \0 \x01 \x02\x04\x01k\x05j\x0b\x0b";

/// [i32 i32] -> [i32], and type 1 is [i32] -> [i32]: local.get 0, local.get 1, if (type 1), i32.const 5, i32.add, end.
const THEN_ALONE: &[u8] =
    b"\0asm\x01\0\0\0\x01\x0c\x02`\x02\x7f\x7f\x01\x7f`\x01\x7f\x01\x7f\x03\x02\x01\0\n\x0e\x01\x0c\0 \0 \x01\x04\x01A\x05j\x0b\x0b";

/// [i32 i32] -> [i32]: local.get 0, local.get 1, call 1, i32.sub; and function 1 is `SWAP`.
const CALL: &[u8] =
    b"\0asm\x01\0\0\0\x01\x0e\x02`\x02\x7f\x7f\x01\x7f`\x02\x7f\x7f\x02\x7f\x7f\x03\x03\x02\0\x01\n\x12\x02\x09\0 \0 \x01\x10\x01k\x0b\x06\0 \x01 \0\x0b";

/// [i32] -> [i32]: local.get 0, i32.const 1, i32.add.
const ADD_ONE: &[u8] =
    b"\0asm\x01\0\0\0\x01\x06\x01`\x01\x7f\x01\x7f\x03\x02\x01\0\n\x09\x01\x07\0 \0A\x01j\x0b";

/// [i32 i32] -> [i32]: local.get 0, local.get 1, i32.div_s.
const QUOTIENT: &[u8] =
    b"\0asm\x01\0\0\0\x01\x07\x01`\x02\x7f\x7f\x01\x7f\x03\x02\x01\0\n\x09\x01\x07\0 \0 \x01m\x0b";

/// [i32 i32] -> [i32]: local.get 0, local.get 1, i32.rem_s.
const REMAINDER: &[u8] =
    b"\0asm\x01\0\0\0\x01\x07\x01`\x02\x7f\x7f\x01\x7f\x03\x02\x01\0\n\x09\x01\x07\0 \0 \x01o\x0b";

/// [i32] -> [i32]: calls itself as often as the argument says, and gives 7.
const DEEP: &[u8] =
    b"\0asm\x01\0\0\0\x01\x06\x01`\x01\x7f\x01\x7f\x03\x02\x01\0\n\x13\x01\x11\0 \0\x04@ \0A\x01k\x10\0\x1a\x0bA\x07\x0b";

/// [i32] -> [i32]: calls itself as often as the argument says, and then what is in slot 0, a function that gives 7, at its own type:
/// local.get 0, if (i32), local.get 0, i32.const 1, i32.sub, call 0, else, i32.const 0, call_indirect 1, end.
const DEEP_SLOT: &[u8] =
    b"\0asm\x01\0\0\0\x01\x0d\x03`\x01\x7f\x01\x7f`\0\x01\x7f`\0\0\x03\x03\x02\0\x01\x04\x04\x01p\0\x01\x09\x07\x01\0A\0\x0b\x01\x01\n\x1b\x02\x14\0 \0\x04\x7f \0A\x01k\x10\0\x05A\0\x11\x01\0\x0b\x0b\x04\0A\x07\x0b";

/// The same at another type, and then i32.const 3.
const DEEP_OTHER_TYPE: &[u8] =
    b"\0asm\x01\0\0\0\x01\x0d\x03`\x01\x7f\x01\x7f`\0\x01\x7f`\0\0\x03\x03\x02\0\x01\x04\x04\x01p\0\x01\x09\x07\x01\0A\0\x0b\x01\x01\n\x1d\x02\x16\0 \0\x04\x7f \0A\x01k\x10\0\x05A\0\x11\x02\0A\x03\x0b\x0b\x04\0A\x07\x0b";

/// [i32] -> [i32] with a second local: adds up the numbers to the argument: block, loop, local.get 0, i32.eqz, br_if 1, local.get 1,
/// local.get 0, i32.add, local.set 1, local.get 0, i32.const 1, i32.sub, local.set 0, br 0, end, end, local.get 1.
const ADDING: &[u8] =
    b"\0asm\x01\0\0\0\x01\x06\x01`\x01\x7f\x01\x7f\x03\x02\x01\0\n#\x01!\x01\x01\x7f\x02@\x03@ \0E\x0d\x01 \x01 \0j!\x01 \0A\x01k!\0\x0c\0\x0b\x0b \x01\x0b";

/// [i32] -> [i32]: branches out of as many blocks as the argument says and one more, at most out of three, with 40; behind their
/// ends 1, 2 and 4 are added.
const BRANCHING: &[u8] =
    b"\0asm\x01\0\0\0\x01\x06\x01`\x01\x7f\x01\x7f\x03\x02\x01\0\n \x01\x1e\0\x02\x7f\x02\x7f\x02\x7fA( \0\x0e\x02\0\x01\x02\0\x0bA\x01j\x0bA\x02j\x0bA\x04j\x0b";

/// [i32] -> [i32]: 9 less a number of either part of an if, over a value that a branch leaves behind.
const CHOOSING: &[u8] =
    b"\0asm\x01\0\0\0\x01\x06\x01`\x01\x7f\x01\x7f\x03\x02\x01\0\n\x1d\x01\x1b\0A\x09 \0\x04\x7f\x02@\x0bA\x03\x05\x02@A\x08A\x04\x0c\x01\x0bA\x05\x0bk\x0b";

/// [i32 i32 i32] -> [i32 i64] with a global i32 that is 7 at first: nop, local.get 0, local.get 1, local.get 2, select, global.get 0,
/// i32.add, global.set 0, global.get 0, i64.const -2.
const SELECT_AND_ADD: &[u8] =
    b"\0asm\x01\0\0\0\x01\x09\x01`\x03\x7f\x7f\x7f\x02\x7f~\x03\x02\x01\0\x06\x06\x01\x7f\x01A\x07\x0b\n\x15\x01\x13\0\x01 \0 \x01 \x02\x1b#\0j$\0#\0B~\x0b";

/// [] -> []: no items.
const NOTHING: &[u8] = b"\0asm\x01\0\0\0\x01\x04\x01`\0\0\x03\x02\x01\0\n\x04\x01\x02\0\x0b";

static SIGNS: [Case; 3] = [
    (EXTEND_8, &[200], MANY, End::Returned(&[4_294_967_240])),
    (EXTEND_16, &[32_768], MANY, End::Returned(&[4_294_934_528])),
    (
        EXTEND_32,
        &[2_147_483_648],
        MANY,
        End::Returned(&[18_446_744_071_562_067_968]),
    ),
];

#[test]
fn signs_are_extended(rt: HostRuntime) -> Result<(), Fail> {
    assert_eq!(rt; passing(rt.alloc(), &SIGNS)?, 3);
    Ok(())
}

static RESULTS: [Case; 2] = [
    (SWAP, &[3, 4], MANY, End::Returned(&[4, 3])),
    (CALL, &[3, 10], MANY, End::Returned(&[7])),
];

#[test]
fn results_are_in_order(rt: HostRuntime) -> Result<(), Fail> {
    assert_eq!(rt; passing(rt.alloc(), &RESULTS)?, 2);
    Ok(())
}

static LOOPS: [Case; 3] = [
    (COUNT_DOWN, &[3], MANY, End::Returned(&[0])),
    (SUM_BY_PARAMETERS, &[10], MANY, End::Returned(&[55])),
    (SUM_BY_PARAMETERS, &[1], MANY, End::Returned(&[1])),
];

#[test]
fn a_branch_to_a_loop_keeps_its_parameters(rt: HostRuntime) -> Result<(), Fail> {
    assert_eq!(rt; passing(rt.alloc(), &LOOPS)?, 3);
    Ok(())
}

static SEVERAL: [Case; 4] = [
    (NESTED, &[0], MANY, End::Returned(&[5, 18])),
    (NESTED, &[1], MANY, End::Returned(&[8, 10])),
    (NESTED, &[2], MANY, End::Returned(&[8, 9])),
    (NESTED, &[9], MANY, End::Returned(&[8, 9])),
];

#[test]
fn a_branch_carries_several_results(rt: HostRuntime) -> Result<(), Fail> {
    assert_eq!(rt; passing(rt.alloc(), &SEVERAL)?, 4);
    Ok(())
}

const MINUS_TWO: u64 = 18_446_744_073_709_551_614;

static SELECTED: [Case; 3] = [
    (
        SELECT_AND_ADD,
        &[3, 4, 1],
        MANY,
        End::Returned(&[10, MINUS_TWO]),
    ),
    (
        SELECT_AND_ADD,
        &[3, 4, 0],
        MANY,
        End::Returned(&[11, MINUS_TWO]),
    ),
    (
        SELECT_AND_ADD,
        &[3, 4, 4_294_967_295],
        MANY,
        End::Returned(&[10, MINUS_TWO]),
    ),
];

#[test]
fn a_value_is_selected_and_kept_in_a_global(rt: HostRuntime) -> Result<(), Fail> {
    assert_eq!(rt; passing(rt.alloc(), &SELECTED)?, 3);
    Ok(())
}

static PARTS: [Case; 6] = [
    (CHOOSE, &[10, 3, 1], MANY, End::Returned(&[7])),
    (CHOOSE, &[10, 3, 0], MANY, End::Returned(&[13])),
    (THEN_ALONE, &[10, 1], MANY, End::Returned(&[15])),
    (THEN_ALONE, &[10, 0], MANY, End::Returned(&[10])),
    (CHOOSING, &[1], MANY, End::Returned(&[6])),
    (CHOOSING, &[0], MANY, End::Returned(&[5])),
];

#[test]
fn either_part_of_an_if_takes_the_parameters(rt: HostRuntime) -> Result<(), Fail> {
    assert_eq!(rt; passing(rt.alloc(), &PARTS)?, 6);
    Ok(())
}

static STEPS: [Case; 8] = [
    (NOTHING, &[], 1, End::Spent),
    (NOTHING, &[], 2, End::Returned(&[])),
    (ADD_ONE, &[4_294_967_295], 4, End::Spent),
    (ADD_ONE, &[4_294_967_295], 5, End::Returned(&[0])),
    (ADD_ONE, &[6], 9, End::Returned(&[7])),
    (ADDING, &[0], 7, End::Spent),
    (ADDING, &[0], 8, End::Returned(&[0])),
    (ADDING, &[10], MANY, End::Returned(&[55])),
];

#[test]
fn each_step_is_counted(rt: HostRuntime) -> Result<(), Fail> {
    assert_eq!(rt; passing(rt.alloc(), &STEPS)?, 8);
    Ok(())
}

static QUOTIENTS: [Case; 4] = [
    (
        QUOTIENT,
        &[2_147_483_648, 4_294_967_295],
        4,
        End::Trapped(Trap::Overflow),
    ),
    (QUOTIENT, &[1, 0], 4, End::Trapped(Trap::DivideByZero)),
    (QUOTIENT, &[1, 0], 3, End::Spent),
    (
        REMAINDER,
        &[2_147_483_648, 4_294_967_295],
        5,
        End::Returned(&[0]),
    ),
];

#[test]
fn quotients_trap(rt: HostRuntime) -> Result<(), Fail> {
    assert_eq!(rt; passing(rt.alloc(), &QUOTIENTS)?, 4);
    Ok(())
}

static DEPTHS: [Case; 3] = [
    (DEEP, &[0], MANY, End::Returned(&[7])),
    (DEEP, &[1_023], MANY, End::Returned(&[7])),
    (DEEP, &[1_024], MANY, End::Trapped(Trap::StackExhausted)),
];

/// The type is tested before the depth.
static DEPTHS_BY_SLOT: [Case; 3] = [
    (DEEP_SLOT, &[1_022], MANY, End::Returned(&[7])),
    (
        DEEP_SLOT,
        &[1_023],
        MANY,
        End::Trapped(Trap::StackExhausted),
    ),
    (
        DEEP_OTHER_TYPE,
        &[1_023],
        MANY,
        End::Trapped(Trap::TypeMismatch),
    ),
];

#[test]
fn calls_are_1024_deep_at_most(rt: HostRuntime) -> Result<(), Fail> {
    assert_eq!(rt; passing(rt.alloc(), &DEPTHS)?, 3);
    assert_eq!(rt; passing(rt.alloc(), &DEPTHS_BY_SLOT)?, 3);
    Ok(())
}

static LABELS: [Case; 4] = [
    (BRANCHING, &[0], MANY, End::Returned(&[47])),
    (BRANCHING, &[1], MANY, End::Returned(&[46])),
    (BRANCHING, &[2], MANY, End::Returned(&[44])),
    (BRANCHING, &[3], MANY, End::Returned(&[44])),
];

#[test]
fn tables_choose_labels(rt: HostRuntime) -> Result<(), Fail> {
    assert_eq!(rt; passing(rt.alloc(), &LABELS)?, 4);
    Ok(())
}
