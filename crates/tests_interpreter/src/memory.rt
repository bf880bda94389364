//! Runs over one memory. Results and bytes are those that node v20.20's WebAssembly gives for the same items, as `oracles/memory.js` prints them.
ghost use Rattle.std.specs.Prelude.{◌≡◌, [], ◌∷◌, ◌<◌, ◌≤◌, ◌^◌, IfOk, IfSome};
ghost use Rattle.tests_interpreter.specs.MemoryTrees.{accessing_function, accessing_type, growing_function, growing_type, memory_tree, zeros};

use crate::machine::{patched_start, run_linked, start_of};
use bl_base::{Label, List, NoMemory, Pages, Patch, Run, Start, Text, Trap, ValueType};
use bl_ops::AccessKind;
use bl_wasm::{Code, Exports, Function, Instr, Linked, Memory, MemoryArgument, Signature, Tree};
use std::alloc::Global;
use std::test::Fail;

/// A memory, and what the functions of a tree do with it.
#[derive(Clone, Copy, Debug)]
struct Setting {
    /// How function 0 stores.
    store: AccessKind,
    /// How it loads what it has stored.
    load: AccessKind,
    /// The offset of both.
    offset: u32,
    /// The first pages of the memory.
    pages: u32,
    /// The pages that it may grow to.
    reserve: u32,
}

fn accessing_signature(alloc: Global, setting: &Setting) -> Result<Signature, NoMemory>
    ensures { IfOk result (λ kind. kind ≡ accessing_type setting.now.store setting.now.load) }
{
    let params = vec![in alloc; ValueType::I32, setting.store.value_type()]?;
    let results = vec![in alloc; setting.load.value_type()]?;
    Ok(Signature {
        params: List::of(params),
        results: List::of(results),
    })
}

fn growing_signature(alloc: Global) -> Result<Signature, NoMemory>
    ensures { IfOk result (λ kind. kind ≡ growing_type) }
{
    let params = vec![in alloc; ValueType::I32]?;
    let results = vec![in alloc; ValueType::I32, ValueType::I32]?;
    Ok(Signature {
        params: List::of(params),
        results: List::of(results),
    })
}

/// local.get 0, local.get 1, the store, local.get 0, the load.
fn accessing(alloc: Global, setting: &Setting) -> Result<Function, NoMemory>
    ensures { IfOk result (λ function. function ≡ accessing_function setting.now.store setting.now.load setting.now.offset) }
{
    let argument = MemoryArgument {
        alignment: 0,
        offset: setting.offset,
    };
    let items = vec![in alloc;
        Instr::LocalGet(0),
        Instr::LocalGet(1),
        Instr::Store {
            kind: setting.store,
            argument
        },
        Instr::LocalGet(0),
        Instr::Load {
            kind: setting.load,
            argument
        },
    ]?;
    let labels = vec![in alloc; Label::Public, Label::Public]?;
    let demanded = vec![in alloc; false]?;
    Ok(Function {
        type_index: 0,
        labels: List::of(labels),
        demanded: List::of(demanded),
        code: Code {
            locals: List::new(alloc),
            items: List::of(items),
        },
        memory: Some(0),
        table: None,
    })
}

/// local.get 0, memory.grow, memory.size.
fn growing(alloc: Global) -> Result<Function, NoMemory>
    ensures { IfOk result (λ function. function ≡ growing_function) }
{
    let items = vec![in alloc; Instr::LocalGet(0), Instr::MemoryGrow, Instr::MemorySize]?;
    let labels = vec![in alloc; Label::Public]?;
    let demanded = vec![in alloc; false, false]?;
    Ok(Function {
        type_index: 1,
        labels: List::of(labels),
        demanded: List::of(demanded),
        code: Code {
            locals: List::new(alloc),
            items: List::of(items),
        },
        memory: Some(0),
        table: None,
    })
}

fn memory(alloc: Global, pages: u32, reserve: u32) -> Result<Memory, NoMemory>
    requires { pages ≤ 256 }
    ensures { IfOk result (λ memory. memory ≡ zeros pages reserve) }
{
    let mut bytes = Vec::new(alloc);
    bytes.resize(pages as usize * 65_536, 0)?;
    Ok(Memory {
        pages,
        reserve,
        label: Label::Public,
        bytes: Text::of(bytes),
    })
}

/// The types of both functions.
fn types(alloc: Global, setting: &Setting) -> Result<List<Signature>, NoMemory>
    ensures { IfOk result (λ types. types ≡ accessing_type setting.now.store setting.now.load ∷ growing_type ∷ []) }
{
    let mut types = List::new(alloc);
    types.push(accessing_signature(alloc, setting)?)?;
    types.push(growing_signature(alloc)?)?;
    Ok(types)
}

/// Both functions.
fn functions(alloc: Global, setting: &Setting) -> Result<List<Function>, NoMemory>
    ensures { IfOk result (λ functions. functions
        ≡ accessing_function setting.now.store setting.now.load setting.now.offset ∷ growing_function ∷ []) }
{
    let mut functions = List::new(alloc);
    functions.push(accessing(alloc, setting)?)?;
    functions.push(growing(alloc)?)?;
    Ok(functions)
}

/// The only memory.
fn memories(alloc: Global, setting: &Setting) -> Result<List<Memory>, NoMemory>
    requires { setting.now.pages ≤ 256 }
    ensures { IfOk result (λ memories. memories ≡ zeros setting.now.pages setting.now.reserve ∷ []) }
{
    let mut memories = List::new(alloc);
    memories.push(memory(alloc, setting.pages, setting.reserve)?)?;
    Ok(memories)
}

fn tree_of(alloc: Global, setting: &Setting) -> Result<Tree, NoMemory>
    requires { setting.now.pages ≤ 256 }
    ensures { IfOk result (λ tree. tree ≡ memory_tree setting.now.store setting.now.load setting.now.offset setting.now.pages setting.now.reserve) }
{
    Ok(Tree {
        types: types(alloc, setting)?,
        functions: functions(alloc, setting)?,
        globals: List::new(alloc),
        memories: memories(alloc, setting)?,
        tables: List::new(alloc),
        exports: Exports::new(alloc),
    })
}

/// A number of 32 bits is below 2^32.
fn tell_width(number: u32)
    ensures { number < 2 ^ 32 }
{}

/// The tree of a setting; None where the store doesn't store, the load doesn't load, or the pages are past the reserve or its bound.
fn linked(alloc: Global, setting: &Setting) -> Result<Option<Linked>, NoMemory>
    ensures { IfOk result (λ found. IfSome found (λ tree. tree
        ≡ memory_tree setting.now.store setting.now.load setting.now.offset setting.now.pages setting.now.reserve)) }
{
    if setting.store.is_load() || !setting.load.is_load() {
        return Ok(None);
    }
    if setting.pages > setting.reserve || setting.reserve > 256 {
        return Ok(None);
    }
    tell_width(setting.offset);
    let tree = tree_of(alloc, setting)?;
    Ok(Some(Linked::of(tree)))
}

/// The outcome of a function of a setting's tree within ten steps; None where there is no tree, or the start doesn't fit.
fn run(
    alloc: Global,
    setting: &Setting,
    number: u32,
    start: &Start,
) -> Result<Option<Run>, NoMemory> {
    match linked(alloc, setting)? {
        Some(tree) => run_linked(alloc, &tree, number, start, 10),
        None => Ok(None),
    }
}

fn patch(alloc: Global, offset: u32, bytes: &[u8]) -> Result<Patch, NoMemory> {
    let bytes = Text::copy_of(alloc, bytes)?;
    Ok(Patch {
        memory: 0,
        offset,
        bytes,
    })
}

/// Whether one memory of so many pages is told, which has these bytes from a place on.
fn are_told(memories: &[Pages], pages: u32, from: usize, bytes: &[u8]) -> bool {
    let Some(memory) = memories.first() else {
        return false;
    };
    if memories.len() != 1 || memory.pages != pages {
        return false;
    }
    match memory.bytes.as_slice().get(from..) {
        Some(rest) => rest.starts_with(bytes),
        None => false,
    }
}

/// The setting of a memory of one page.
fn one_page(store: AccessKind, load: AccessKind, offset: u32) -> Setting {
    Setting {
        store,
        load,
        offset,
        pages: 1,
        reserve: 1,
    }
}

/// Whether function 0 gives this value from a start, and leaves these bytes from a place on.
fn ends_with(
    alloc: Global,
    setting: &Setting,
    start: &Start,
    wanted: u64,
    from: usize,
    bytes: &[u8],
) -> Result<bool, NoMemory> {
    match run(alloc, setting, 0, start)? {
        Some(Run::Returned { values, memories }) => {
            Ok(
                values.as_slice() == [wanted].as_slice()
                    && are_told(memories.as_slice(), setting.pages, from, bytes),
            )
        }
        _ => Ok(false),
    }
}

/// Whether storing and loading at an address gives this value, and leaves these bytes from the byte before the access on.
fn gives(
    alloc: Global,
    setting: &Setting,
    args: [u64; 2],
    wanted: u64,
    bytes: &[u8],
) -> Result<bool, NoMemory> {
    let start = start_of(alloc, &args)?;
    let from = args[0]
        .saturating_add(u64::from(setting.offset))
        .saturating_sub(1);
    ends_with(alloc, setting, &start, wanted, from as usize, bytes)
}

/// The outcome of a function of a setting's tree with these arguments, within ten steps; None where they don't fit.
fn run_with(
    alloc: Global,
    setting: &Setting,
    number: u32,
    args: &[u64],
) -> Result<Option<Run>, NoMemory> {
    let start = start_of(alloc, args)?;
    run(alloc, setting, number, &start)
}

/// Whether storing and loading at an address traps, with these bytes from a place on.
fn is_outside(
    alloc: Global,
    setting: &Setting,
    args: [u64; 2],
    from: usize,
    bytes: &[u8],
) -> Result<bool, NoMemory> {
    match run_with(alloc, setting, 0, args.as_slice())? {
        Some(Run::Trapped { kind, memories }) => Ok(
            kind == Trap::OutOfBounds && are_told(memories.as_slice(), setting.pages, from, bytes),
        ),
        _ => Ok(false),
    }
}

/// The setting of a memory of so many pages, which may grow to a reserve.
fn growable(pages: u32, reserve: u32) -> Setting {
    Setting {
        store: AccessKind::I32Store,
        load: AccessKind::I32Load,
        offset: 0,
        pages,
        reserve,
    }
}

/// Whether memory.grow of so many pages answers that, with so many pages of a memory before it and that reserve, and so many behind it.
fn grows(
    alloc: Global,
    sizes: [u32; 2],
    reserve: u32,
    delta: u64,
    wanted: u64,
) -> Result<bool, NoMemory> {
    let [pages, behind] = sizes;
    let setting = growable(pages, reserve);
    match run_with(alloc, &setting, 1, [delta].as_slice())? {
        Some(Run::Returned { values, memories }) => Ok(
            values.as_slice() == [wanted, u64::from(behind)].as_slice()
                && are_told(memories.as_slice(), behind, 0, &[]),
        ),
        _ => Ok(false),
    }
}

/// A number whose bytes are 129 to 136, the highest first.
const LONG: u64 = 9_332_165_983_064_197_000;

/// A number whose bytes are 241 to 244, the highest first.
const SHORT: u64 = 4_059_231_220;

/// What is stored, how, and with which offset; the value that is loaded, and the bytes round it.
type Row = (AccessKind, AccessKind, u32, u64, u64, [u8; 10]);

static ROWS: [Row; 17] = [
    (
        AccessKind::I32Store,
        AccessKind::I32Load,
        0,
        SHORT,
        4_059_231_220,
        [0, 244, 243, 242, 241, 0, 0, 0, 0, 0],
    ),
    (
        AccessKind::I32Store,
        AccessKind::I32Load8S,
        1,
        SHORT,
        4_294_967_284,
        [0, 244, 243, 242, 241, 0, 0, 0, 0, 0],
    ),
    (
        AccessKind::I32Store,
        AccessKind::I32Load8U,
        2,
        SHORT,
        244,
        [0, 244, 243, 242, 241, 0, 0, 0, 0, 0],
    ),
    (
        AccessKind::I32Store,
        AccessKind::I32Load16S,
        3,
        SHORT,
        4_294_964_212,
        [0, 244, 243, 242, 241, 0, 0, 0, 0, 0],
    ),
    (
        AccessKind::I32Store,
        AccessKind::I32Load16U,
        4,
        SHORT,
        62_452,
        [0, 244, 243, 242, 241, 0, 0, 0, 0, 0],
    ),
    (
        AccessKind::I64Store,
        AccessKind::I64Load,
        5,
        LONG,
        9_332_165_983_064_197_000,
        [0, 136, 135, 134, 133, 132, 131, 130, 129, 0],
    ),
    (
        AccessKind::I64Store,
        AccessKind::I64Load8S,
        6,
        LONG,
        18_446_744_073_709_551_496,
        [0, 136, 135, 134, 133, 132, 131, 130, 129, 0],
    ),
    (
        AccessKind::I64Store,
        AccessKind::I64Load8U,
        7,
        LONG,
        136,
        [0, 136, 135, 134, 133, 132, 131, 130, 129, 0],
    ),
    (
        AccessKind::I64Store,
        AccessKind::I64Load16S,
        8,
        LONG,
        18_446_744_073_709_520_776,
        [0, 136, 135, 134, 133, 132, 131, 130, 129, 0],
    ),
    (
        AccessKind::I64Store,
        AccessKind::I64Load16U,
        9,
        LONG,
        34_696,
        [0, 136, 135, 134, 133, 132, 131, 130, 129, 0],
    ),
    (
        AccessKind::I64Store,
        AccessKind::I64Load32S,
        10,
        LONG,
        18_446_744_071_654_770_568,
        [0, 136, 135, 134, 133, 132, 131, 130, 129, 0],
    ),
    (
        AccessKind::I64Store,
        AccessKind::I64Load32U,
        11,
        LONG,
        2_240_186_248,
        [0, 136, 135, 134, 133, 132, 131, 130, 129, 0],
    ),
    (
        AccessKind::I32Store8,
        AccessKind::I64Load,
        12,
        SHORT,
        244,
        [0, 244, 0, 0, 0, 0, 0, 0, 0, 0],
    ),
    (
        AccessKind::I32Store16,
        AccessKind::I64Load,
        13,
        SHORT,
        62_452,
        [0, 244, 243, 0, 0, 0, 0, 0, 0, 0],
    ),
    (
        AccessKind::I64Store8,
        AccessKind::I64Load,
        14,
        LONG,
        136,
        [0, 136, 0, 0, 0, 0, 0, 0, 0, 0],
    ),
    (
        AccessKind::I64Store16,
        AccessKind::I64Load,
        15,
        LONG,
        34_696,
        [0, 136, 135, 0, 0, 0, 0, 0, 0, 0],
    ),
    (
        AccessKind::I64Store32,
        AccessKind::I64Load,
        16,
        LONG,
        2_240_186_248,
        [0, 136, 135, 134, 133, 0, 0, 0, 0, 0],
    ),
];

/// How many accesses have their width and sign before the first that hasn't.
fn accesses(alloc: Global) -> Result<u32, NoMemory> {
    let mut passed = 0u32;
    for (store, load, offset, value, wanted, bytes) in &ROWS {
        let setting = one_page(*store, *load, *offset);
        if !gives(alloc, &setting, [32, *value], *wanted, bytes)? {
            break;
        }
        passed = passed.wrapping_add(1);
    }
    Ok(passed)
}

#[test]
fn each_access_has_its_width_and_sign(rt: HostRuntime) -> Result<(), Fail> {
    assert_eq!(rt; accesses(rt.alloc())?, 17);
    Ok(())
}

/// Whether eight bytes are accessed up to the end, and no further.
fn long_ends(alloc: Global) -> Result<bool, NoMemory> {
    let long = one_page(AccessKind::I64Store, AccessKind::I64Load, 8);
    Ok(
        gives(alloc, &long, [65_520, LONG], LONG, &[0, 136, 135])?
            && is_outside(alloc, &long, [65_521, LONG], 65_528, &[0; 8])?,
    )
}

/// Whether one byte is accessed up to the end, and no further.
fn byte_ends(alloc: Global) -> Result<bool, NoMemory> {
    let byte = one_page(AccessKind::I32Store8, AccessKind::I32Load8U, 0);
    Ok(
        gives(alloc, &byte, [65_535, SHORT], 244, &[0, 244])?
            && is_outside(alloc, &byte, [65_536, SHORT], 65_535, &[0])?,
    )
}

/// Whether what was stored before the trap stays.
fn stored_stays(alloc: Global) -> Result<bool, NoMemory> {
    let behind = one_page(AccessKind::I32Store8, AccessKind::I64Load, 0);
    is_outside(alloc, &behind, [65_530, SHORT], 65_529, &[0, 244, 0])
}

#[test]
fn an_access_past_the_end_traps(rt: HostRuntime) -> Result<(), Fail> {
    assert!(rt; long_ends(rt.alloc())?);
    assert!(rt; byte_ends(rt.alloc())?);
    assert!(rt; stored_stays(rt.alloc())?);
    Ok(())
}

/// Offsets and addresses whose sum is past 2^32.
static FAR: [(u32, u64); 3] = [
    (8, 4_294_967_288),
    (4_294_967_295, 1),
    (4_294_967_295, 4_294_967_295),
];

/// How many of them are outside before the first that isn't.
fn far(alloc: Global) -> Result<u32, NoMemory> {
    let mut passed = 0u32;
    for (offset, address) in &FAR {
        let setting = one_page(AccessKind::I32Store, AccessKind::I32Load, *offset);
        if !is_outside(alloc, &setting, [*address, SHORT], 0, &[0; 8])? {
            break;
        }
        passed = passed.wrapping_add(1);
    }
    Ok(passed)
}

#[test]
fn an_address_and_an_offset_do_not_wrap(rt: HostRuntime) -> Result<(), Fail> {
    assert_eq!(rt; far(rt.alloc())?, 3);
    Ok(())
}

/// What is answered where a memory doesn't grow.
const REFUSED: u64 = 4_294_967_295;

/// The pages before and behind, the reserve, by how many pages, and the answer.
static GROWTHS: [([u32; 2], u32, u64, u64); 8] = [
    ([1, 3], 3, 2, 1),
    ([1, 1], 3, 3, REFUSED),
    ([1, 1], 3, 0, 1),
    ([1, 1], 3, 4_294_967_294, REFUSED),
    ([1, 1], 3, 4_294_967_295, REFUSED),
    ([0, 1], 1, 1, 0),
    ([0, 0], 0, 0, 0),
    ([0, 0], 0, 1, REFUSED),
];

/// How many growths are answered so before the first that isn't.
fn growths(alloc: Global) -> Result<u32, NoMemory> {
    let mut passed = 0u32;
    for (sizes, reserve, delta, wanted) in &GROWTHS {
        if !grows(alloc, *sizes, *reserve, *delta, *wanted)? {
            break;
        }
        passed = passed.wrapping_add(1);
    }
    Ok(passed)
}

#[test]
fn a_memory_grows_up_to_its_reserve(rt: HostRuntime) -> Result<(), Fail> {
    assert_eq!(rt; growths(rt.alloc())?, 8);
    Ok(())
}

/// The patches 1, 2, 3, 4 at 4 and 9, 9 at 6.
fn two_patches(alloc: Global) -> Result<List<Patch>, NoMemory> {
    let mut patches = List::new(alloc);
    patches.push(patch(alloc, 4, &[1, 2, 3, 4])?)?;
    patches.push(patch(alloc, 6, &[9, 9])?)?;
    Ok(patches)
}

/// Whether the later of two patches stands over the earlier one.
fn is_patched(alloc: Global) -> Result<bool, NoMemory> {
    let setting = one_page(AccessKind::I32Store8, AccessKind::I32Load, 4);
    let start = patched_start(alloc, &[0, 7], two_patches(alloc)?)?;
    ends_with(alloc, &setting, &start, 151_585_287, 3, &[0, 7, 2, 9, 9, 0])
}

#[test]
fn a_later_patch_is_written_over_an_earlier_one(rt: HostRuntime) -> Result<(), Fail> {
    assert!(rt; is_patched(rt.alloc())?);
    Ok(())
}
