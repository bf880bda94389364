//! Cases that were judged outside of this program: `oracles/validity.js` writes each module below in the binary format, asks
//! node v20.20's `WebAssembly.Module`, and writes the tables. Where node says that a function can't be compiled, the case
//! names that function; where it refuses the module otherwise, a rule is broken.
//!
//! Node goes by a later version. This profile differs from it in these cases, which have the profile's answer: a float type
//! of a parameter, a result, a local, a global or a block breaks a rule, and so do a second table and a start function; an
//! item with floats, a function of a type that doesn't exist, a body that calls such a function and one without code have no
//! typing; all labels of a table have the same types, also where it can't be reached; the offset of a segment may be any
//! immutable global of i32, and not an imported one alone.
ghost use Rattle.std.specs.Prelude.{◌<◌, ◌^◌, IsTrue, length};
ghost use Rattle.bl_wasm.specs.Validity.{functions_of};

use super::validate_bodies::{BODIES, SEVERAL};
use super::validate_modules::{AROUND, BARE, CODE, SEGMENTS, STORES, TYPES};
use bl_base::{List, NoMemory, Text};
use bl_ops::{AccessKind, by_code};
use bl_validate::{Invalid, ValidModule, validate};
use bl_wasm::WasmType::{self, F32, F64, I32, I64};
use bl_wasm::{
    BlockType, Code, DataSegment, DefinedGlobal, ElementSegment, Export, ExportKind, FloatOp,
    FuncType, GlobalType, Import, ImportKind, Instr, Limits, LocalRun, MemoryArgument, Module,
    Targets,
};
use std::alloc::Global;
use std::test::Fail;

/// The answer where another rule is broken.
pub(crate) const RULE: Option<Invalid> = Some(Invalid::Module);

/// An import of a function of type 1.
pub(crate) const FUNCTION: ImportKind = ImportKind::Function(1);

/// An import of an immutable i32.
pub(crate) const CONSTANT: ImportKind = ImportKind::Global(GlobalType {
    kind: I32,
    mutable: false,
});

/// The parts of a module in short. Instructions are in the binary format, without an `end`.
#[derive(Clone, Copy)]
pub(crate) struct Parts {
    /// Parameters and results.
    pub(crate) types: &'static [(&'static [WasmType], &'static [WasmType])],
    pub(crate) imports: &'static [ImportKind],
    pub(crate) functions: &'static [u32],
    /// Minimum and maximum.
    pub(crate) tables: &'static [(u32, Option<u32>)],
    pub(crate) memories: &'static [(u32, Option<u32>)],
    /// Type, whether it can be set, and initial value.
    pub(crate) globals: &'static [(WasmType, bool, &'static [u8])],
    pub(crate) exports: &'static [(&'static [u8], ExportKind, u32)],
    pub(crate) start: Option<u32>,
    /// Table, offset and functions.
    pub(crate) elements: &'static [(u32, &'static [u8], &'static [u32])],
    /// Memory and offset.
    pub(crate) segments: &'static [(u32, &'static [u8])],
    /// The locals of each function.
    pub(crate) locals: &'static [(u32, WasmType)],
    pub(crate) bodies: &'static [&'static [u8]],
}

/// What changes in the parts of `AROUND`.
#[derive(Clone, Copy)]
pub(crate) enum Change {
    /// All parts are those of `BARE`.
    Bare,
    Types(&'static [(&'static [WasmType], &'static [WasmType])]),
    Imports(&'static [ImportKind]),
    Functions(&'static [u32]),
    Tables(&'static [(u32, Option<u32>)]),
    Memories(&'static [(u32, Option<u32>)]),
    Globals(&'static [(WasmType, bool, &'static [u8])]),
    Exports(&'static [(&'static [u8], ExportKind, u32)]),
    Start(u32),
    Elements(&'static [(u32, &'static [u8], &'static [u32])]),
    Segments(&'static [(u32, &'static [u8])]),
    Locals(&'static [(u32, WasmType)]),
    Bodies(&'static [&'static [u8]]),
}

/// The changes of `AROUND` that make a module, and why it isn't valid.
pub(crate) type Case = (&'static [Change], Option<Invalid>);

/// The list of a few values.
fn list<T: Copy + Drop>(alloc: Global, values: &[T]) -> Result<List<T>, NoMemory> {
    Ok(List::of(values.to_vec(alloc)?))
}

/// The type of a block.
fn block_type(byte: u8) -> BlockType {
    match byte {
        0x7F => BlockType::Value(I32),
        0x7E => BlockType::Value(I64),
        0x7D => BlockType::Value(F32),
        0x7C => BlockType::Value(F64),
        0x40 => BlockType::Empty,
        index => BlockType::Index(u32::from(index)),
    }
}

/// The item of a code, whose immediates are the bytes that follow, one byte each.
fn item(alloc: Global, code: u8, rest: &[u8]) -> Result<Instr, NoMemory> {
    let first = rest.first().map_or(0, |byte| *byte);
    let x = u32::from(first);
    Ok(match code {
        0x00 => Instr::Unreachable,
        0x01 => Instr::Nop,
        0x02 => Instr::Block(block_type(first)),
        0x03 => Instr::Loop(block_type(first)),
        0x04 => Instr::If(block_type(first)),
        0x05 => Instr::Else,
        0x0B => Instr::End,
        0x0C => Instr::Br(x),
        0x0D => Instr::BrIf(x),
        0x0E => table(alloc, rest)?,
        0x0F => Instr::Return,
        0x10 => Instr::Call(x),
        0x11 => Instr::CallIndirect(x),
        0x1A => Instr::Drop,
        0x1B => Instr::Select,
        0x20 => Instr::LocalGet(x),
        0x21 => Instr::LocalSet(x),
        0x22 => Instr::LocalTee(x),
        0x23 => Instr::GlobalGet(x),
        0x24 => Instr::GlobalSet(x),
        0x3F => Instr::MemorySize,
        0x40 => Instr::MemoryGrow,
        0x41 => Instr::I32Const(x),
        0x42 => Instr::I64Const(u64::from(x)),
        0x43 => Instr::F32Const(x),
        _ => numeric(code, x),
    })
}

/// A `br_table`.
fn table(alloc: Global, rest: &[u8]) -> Result<Instr, NoMemory> {
    let (labels, default) = match rest {
        [0, default, ..] => (List::new(alloc), *default),
        [1, label, default, ..] => (list(alloc, &[u32::from(*label)])?, *default),
        _ => (List::new(alloc), 0),
    };
    Ok(Instr::BrTable {
        default: u32::from(default),
        targets: Targets::of(alloc, labels)?,
    })
}

/// An operator with floats.
fn float(code: u8) -> Instr {
    match FloatOp::by_code(code) {
        Some(op) => Instr::Float(op),
        None => Instr::Nop,
    }
}

/// An access or an operator.
fn numeric(code: u8, alignment: u32) -> Instr {
    let argument = MemoryArgument {
        alignment,
        offset: 0,
    };
    match (AccessKind::by_code(code), by_code(code)) {
        (Some(kind), _) if kind.is_load() => Instr::Load { kind, argument },
        (Some(kind), _) => Instr::Store { kind, argument },
        (None, Some(op)) => Instr::Integer(op),
        (None, None) => float(code),
    }
}

/// How many bytes stand behind a code.
fn immediates(code: u8, rest: &[u8]) -> usize {
    match code {
        0x02..=0x04 | 0x0C | 0x0D | 0x10 | 0x20..=0x24 | 0x3F..=0x42 => 1,
        0x11 | 0x28..=0x3E => 2,
        0x43 => 4,
        0x0E => 2 + rest.first().map_or(0, |count| usize::from(*count)),
        _ => 0,
    }
}

/// The items of a body.
fn items(alloc: Global, body: &[u8]) -> Result<List<Instr>, NoMemory> {
    let mut items = List::new(alloc);
    let mut skipped = 0;
    for (at, code) in body.iter().enumerate() {
        if skipped > 0 {
            skipped -= 1;
            continue;
        }
        let rest = &body[at + 1..];
        items.push(item(alloc, *code, rest)?)?;
        skipped = immediates(*code, rest);
    }
    Ok(items)
}

/// A type of functions.
fn function_type(
    alloc: Global,
    params: &[WasmType],
    results: &[WasmType],
) -> Result<FuncType, NoMemory> {
    Ok(FuncType {
        params: list(alloc, params)?,
        results: list(alloc, results)?,
    })
}

/// Limits.
fn limits(parts: &[(u32, Option<u32>)], list: &mut List<Limits>) -> Result<(), NoMemory> {
    for (min, max) in parts {
        list.push(Limits {
            min: *min,
            max: *max,
        })?;
    }
    Ok(())
}

/// An import of that kind.
fn import(alloc: Global, kind: ImportKind) -> Result<Import, NoMemory> {
    Ok(Import {
        from: Text::copy_of(alloc, b"m")?,
        name: Text::copy_of(alloc, b"x")?,
        kind,
    })
}

/// The types, imports and functions.
fn put_functions(alloc: Global, parts: &Parts, tree: &mut Module) -> Result<(), NoMemory> {
    for (params, results) in parts.types {
        tree.types.push(function_type(alloc, params, results)?)?;
    }
    for kind in parts.imports {
        tree.imports.push(import(alloc, *kind)?)?;
    }
    for index in parts.functions {
        tree.functions.push(*index)?;
    }
    Ok(())
}

/// Locals.
fn local_runs(alloc: Global, parts: &[(u32, WasmType)]) -> Result<List<LocalRun>, NoMemory> {
    let mut locals = List::new(alloc);
    for (count, kind) in parts {
        locals.push(LocalRun {
            count: *count,
            kind: *kind,
        })?;
    }
    Ok(locals)
}

/// The code of the functions.
fn put_bodies(
    alloc: Global,
    locals: &[(u32, WasmType)],
    bodies: &[&[u8]],
    tree: &mut Module,
) -> Result<(), NoMemory> {
    for body in bodies {
        tree.bodies.push(Code {
            locals: local_runs(alloc, locals)?,
            items: items(alloc, body)?,
        })?;
    }
    Ok(())
}

/// The globals and exports.
fn put_globals(alloc: Global, parts: &Parts, tree: &mut Module) -> Result<(), NoMemory> {
    for (kind, mutable, value) in parts.globals {
        tree.globals.push(DefinedGlobal {
            kind: GlobalType {
                kind: *kind,
                mutable: *mutable,
            },
            initial: items(alloc, value)?,
        })?;
    }
    for (name, kind, index) in parts.exports {
        tree.exports.push(Export {
            name: Text::copy_of(alloc, name)?,
            kind: *kind,
            index: *index,
        })?;
    }
    Ok(())
}

/// The segments.
fn put_segments(alloc: Global, parts: &Parts, tree: &mut Module) -> Result<(), NoMemory> {
    for (table, offset, functions) in parts.elements {
        tree.elements.push(ElementSegment {
            table: *table,
            offset: items(alloc, offset)?,
            functions: list(alloc, functions)?,
        })?;
    }
    for (memory, offset) in parts.segments {
        tree.segments.push(DataSegment {
            memory: *memory,
            offset: items(alloc, offset)?,
            bytes: Text::copy_of(alloc, b"")?,
        })?;
    }
    Ok(())
}

/// A module without parts.
fn empty(alloc: Global, start: Option<u32>) -> Module {
    Module {
        types: List::new(alloc),
        imports: List::new(alloc),
        functions: List::new(alloc),
        tables: List::new(alloc),
        memories: List::new(alloc),
        globals: List::new(alloc),
        exports: List::new(alloc),
        start,
        elements: List::new(alloc),
        bodies: List::new(alloc),
        segments: List::new(alloc),
        customs: List::new(alloc),
    }
}

/// Puts the parts with those bodies into a module.
fn put(alloc: Global, parts: &Parts, bodies: &[&[u8]], tree: &mut Module) -> Result<(), NoMemory> {
    put_functions(alloc, parts, tree)?;
    limits(parts.tables, &mut tree.tables)?;
    limits(parts.memories, &mut tree.memories)?;
    put_globals(alloc, parts, tree)?;
    put_segments(alloc, parts, tree)?;
    put_bodies(alloc, parts.locals, bodies, tree)
}

/// The module of the parts with those bodies.
fn module_of(alloc: Global, parts: &Parts, bodies: &[&[u8]]) -> Result<Module, NoMemory> {
    let mut tree = empty(alloc, parts.start);
    put(alloc, parts, bodies, &mut tree)?;
    Ok(tree)
}

/// The parts of `BARE`.
fn bare() -> Parts {
    BARE
}

/// Puts a part in its place.
fn put_change(change: Change, parts: &mut Parts) {
    match change {
        Change::Bare => *parts = bare(),
        Change::Types(types) => parts.types = types,
        Change::Imports(imports) => parts.imports = imports,
        Change::Functions(functions) => parts.functions = functions,
        Change::Tables(tables) => parts.tables = tables,
        Change::Memories(memories) => parts.memories = memories,
        Change::Globals(globals) => parts.globals = globals,
        Change::Exports(exports) => parts.exports = exports,
        Change::Start(start) => parts.start = Some(start),
        Change::Elements(elements) => parts.elements = elements,
        Change::Segments(segments) => parts.segments = segments,
        Change::Locals(locals) => parts.locals = locals,
        Change::Bodies(bodies) => parts.bodies = bodies,
    }
}

/// The parts of `AROUND`.
fn around() -> Parts {
    AROUND
}

/// The parts of a case.
fn changed(changes: &[Change]) -> Parts {
    let mut parts = around();
    for part in changes {
        put_change(*part, &mut parts);
    }
    parts
}

/// Whether the module has few functions.
#[tactic(auto, using(crate::proofs::Counts::functions_at_most))]
fn is_small(tree: &Module) -> bool
    ensures { IsTrue result → length (functions_of tree.now) < 2 ^ 32 }
{
    tree.imports.len() < 100 && tree.functions.len() < 100
}

/// What the validator says of a module.
#[derive(Clone, Copy)]
struct Judgement {
    /// Why the module isn't valid; None where it is.
    reason: Option<Invalid>,
    /// Whether it came back as the module of `TWO_MEMORIES`.
    has_second_memory: bool,
}

/// Whether the module has the second memory of `TWO_MEMORIES`.
fn has_second_memory(tree: &Module) -> bool {
    matches!(
        tree.memories.as_slice().get(1),
        Some(Limits { max: Some(3), .. })
    )
}

/// What the validator's answer says.
fn judgement_of(answer: &Result<ValidModule, (Module, Invalid)>) -> Judgement {
    match answer {
        Ok(_) => Judgement {
            reason: None,
            has_second_memory: false,
        },
        Err((tree, reason)) => Judgement {
            reason: Some(*reason),
            has_second_memory: has_second_memory(tree),
        },
    }
}

/// What the validator says of a module of few functions.
fn judged(alloc: Global, tree: Module) -> Judgement
    requires { length (functions_of tree) < 2 ^ 32 }
{
    judgement_of(&validate(alloc, tree))
}

/// What the validator says of a module; one of too many functions isn't shown to it.
fn judged_if_small(alloc: Global, tree: Module) -> Judgement {
    if !is_small(&tree) {
        return Judgement {
            reason: Some(Invalid::Memory),
            has_second_memory: false,
        };
    }
    judged(alloc, tree)
}

/// What the validator says of the module of the parts with those bodies.
fn verdict(alloc: Global, parts: &Parts, bodies: &[&[u8]]) -> Result<Judgement, NoMemory> {
    Ok(judged_if_small(alloc, module_of(alloc, parts, bodies)?))
}

/// The byte that two hexadecimal digits write; None where they write none.
fn byte(digits: &str) -> Option<u8> {
    if digits.len() != 2 || digits.starts_with('+') {
        return None;
    }
    u8::from_str_radix(digits, 16).ok()
}

/// Puts the bytes of a body in hexadecimal digits behind others; false where a word isn't two digits.
fn put_bytes(digits: &str, body: &mut Vec<u8>) -> Result<bool, NoMemory> {
    for word in digits.split_whitespace() {
        let Some(value) = byte(word) else {
            return Ok(false);
        };
        body.push(value)?;
    }
    Ok(true)
}

/// Whether the module round a body in hexadecimal digits is judged so; false where a word isn't two digits.
fn is_body_right(alloc: Global, digits: &str, wanted: Option<Invalid>) -> Result<bool, NoMemory> {
    let mut body = Vec::new(alloc);
    if !put_bytes(digits, &mut body)? {
        return Ok(false);
    }
    Ok(verdict(alloc, &around(), &[body.as_slice()])?.reason == wanted)
}

/// Whether the module round the body of a line is judged as it says; false where it says neither of the two words.
fn is_line_right(alloc: Global, line: &str) -> Result<bool, NoMemory> {
    let Some((digits, rest)) = line.split_once('=') else {
        return Ok(false);
    };
    match rest.split_once(',') {
        Some((" valid", _)) => is_body_right(alloc, digits, None),
        Some((" refused", _)) => is_body_right(alloc, digits, Some(Invalid::Function(1))),
        _ => Ok(false),
    }
}

/// How many bodies are judged as their lines say before the first that isn't.
fn judged_bodies(alloc: Global, cases: &str) -> Result<u32, NoMemory> {
    let mut passed = 0u32;
    for line in cases.lines() {
        if !is_line_right(alloc, line)? {
            break;
        }
        passed = passed.wrapping_add(1);
    }
    Ok(passed)
}

#[test]
fn bodies_are_judged_as_elsewhere(rt: HostRuntime) -> Result<(), Fail> {
    assert_eq!(rt; judged_bodies(rt.alloc(), BODIES)?, 130);
    Ok(())
}

#[test]
fn blocks_of_several_types_are_judged_as_elsewhere(rt: HostRuntime) -> Result<(), Fail> {
    assert_eq!(rt; judged_bodies(rt.alloc(), SEVERAL)?, 79);
    Ok(())
}

/// Whether the module of a case is judged as it says.
fn is_case_right(alloc: Global, case: &Case) -> Result<bool, NoMemory> {
    let (changes, wanted) = case;
    let parts = changed(changes);
    Ok(verdict(alloc, &parts, parts.bodies)?.reason == *wanted)
}

/// How many of the cases are judged as they say before the first that isn't.
fn judged_cases(alloc: Global, cases: &[Case]) -> Result<u32, NoMemory> {
    let mut passed = 0u32;
    for case in cases {
        if !is_case_right(alloc, case)? {
            break;
        }
        passed = passed.wrapping_add(1);
    }
    Ok(passed)
}

/// Types and functions.
fn types() -> &'static [Case] {
    &TYPES
}

/// Code.
fn code() -> &'static [Case] {
    &CODE
}

/// Tables, memories and globals.
fn stores() -> &'static [Case] {
    &STORES
}

/// Segments, exports and the start function.
fn segments() -> &'static [Case] {
    &SEGMENTS
}

#[test]
fn types_are_judged_as_elsewhere(rt: HostRuntime) -> Result<(), Fail> {
    assert_eq!(rt; judged_cases(rt.alloc(), types())?, 26);
    Ok(())
}

#[test]
fn code_is_judged_as_elsewhere(rt: HostRuntime) -> Result<(), Fail> {
    assert_eq!(rt; judged_cases(rt.alloc(), code())?, 16);
    Ok(())
}

#[test]
fn stores_are_judged_as_elsewhere(rt: HostRuntime) -> Result<(), Fail> {
    assert_eq!(rt; judged_cases(rt.alloc(), stores())?, 25);
    Ok(())
}

#[test]
fn segments_are_judged_as_elsewhere(rt: HostRuntime) -> Result<(), Fail> {
    assert_eq!(rt; judged_cases(rt.alloc(), segments())?, 32);
    Ok(())
}

/// Two memories, the second one of at most three pages.
static TWO_MEMORIES: [Change; 1] = [Change::Memories(&[(1, None), (2, Some(3))])];

/// Whether the module of two memories is refused for a rule and comes back.
fn two_memories_come_back(alloc: Global) -> Result<bool, NoMemory> {
    let parts = changed(&TWO_MEMORIES);
    let found = verdict(alloc, &parts, parts.bodies)?;
    Ok(found.reason == Some(Invalid::Module) && found.has_second_memory)
}

#[test]
fn a_refused_module_comes_back(rt: HostRuntime) -> Result<(), Fail> {
    assert!(rt; two_memories_come_back(rt.alloc())?);
    Ok(())
}
