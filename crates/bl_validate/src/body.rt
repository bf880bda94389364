//! Whether a body has a typing (WebAssembly 1.0, section 3.3; block types with parameters and several results, version
//! 2.0, section 3.2.2).
ghost use Rattle.std.specs.Prelude.{◌≡◌, ◌≢◌, ◌↔◌, ◌≤◌, ◌^◌, List, [], ◌∷◌, IsTrue, IfOk, Some, None, length, slice_get, replicate, option_map, MatchOption};
ghost use Rattle.std.specs.List.{All};
ghost use Rattle.bl_wasm.specs.{Instructions.IsPlain, declared.types.WasmType.WasmType};
ghost use Rattle.bl_wasm.specs.Typing.{Context, IsTyping, integer as wasm_integer, expanded};
ghost use Rattle.bl_wasm.specs.declared.instruction.Instr.TheVariants as Instr;
ghost use Rattle.bl_wasm.specs.declared.types.WasmType.TheVariants as WasmType;
ghost use Rattle.bl_ops.specs.Access.{width_of};
ghost use Rattle.bl_validate.specs.HasEffect.{Means};
ghost use Rattle.bl_validate.specs.Represents.{Opens, Steps, construct_type, labels_in};
ghost use Rattle.bl_validate.specs.Scopes.{context_in, seen};

use crate::effects::{Effect, arrow, leaves};
use crate::operands::I32;
use crate::scope::{Scope, at, locals_of};
use crate::stacks::{Construct, Kind, Stacks, are_same};
use bl_base::{NoMemory, ValueType};
use bl_ops::{AccessKind, Op, OpRow};
use bl_wasm::{BlockType, Code, FuncType, Instr, MemoryArgument, WasmType};
use std::alloc::Global;

/// What a body stands in.
#[derive(Debug, Drop)]
struct Body<'m> {
    /// What it can name.
    scope: &'m Scope<'m>,
    /// The types of its locals, parameters first.
    locals: Vec<WasmType>,
    /// The results of the function.
    results: &'m [WasmType],
}

/// Whether a function of that type and code has a typing.
pub(crate) fn has_typing(
    alloc: Global,
    scope: &Scope,
    kind: &FuncType,
    code: &Code,
) -> Result<bool, NoMemory>
    ensures { IfOk result (λ ok. IsTrue ok ↔ ((places : List (List WasmType)) × IsTyping (context_in scope.now kind.now code.now) code.now.items places)) }
{
    let body = Body {
        scope,
        locals: locals_of(alloc, kind, code)?,
        results: kind.results.as_slice(),
    };
    body.has_typing(alloc, code.items.as_slice())
}

impl<'m> Body<'m> {
    /// Whether the items have a typing.
    fn has_typing(&self, alloc: Global, items: &[Instr]) -> Result<bool, NoMemory>
        ensures { IfOk result (λ ok. IsTrue ok ↔ ((places : List (List WasmType)) × IsTyping (seen self.now) items.now places)) }
    {
        let mut stacks = Stacks::new(alloc);
        for item in items {
            if !self.step(alloc, &mut stacks, item)? {
                return Ok(false);
            }
        }
        Ok(stacks.is_done(self.results))
    }

    /// Goes over one item; false where nothing that may stand before it keeps its rule.
    fn step(&self, alloc: Global, stacks: &mut Stacks<'m>, item: &Instr) -> Result<bool, NoMemory>
        ensures { IfOk result (λ ok. Steps (seen self.now) (item.now) stacks.old ok stacks.new) }
    {
        match item {
            Instr::Block(kind) => self.begin(alloc, stacks, Kind::Block, *kind, &[]),
            Instr::Loop(kind) => self.begin(alloc, stacks, Kind::Loop, *kind, &[]),
            Instr::If(kind) => self.begin(alloc, stacks, Kind::ThenPart, *kind, I32),
            Instr::Else => stacks.part(alloc),
            Instr::End => stacks.end(),
            Instr::Drop => Ok(stacks.operands.drop_one()),
            Instr::Select => stacks.operands.select(),
            _ => self.follow(stacks, item),
        }
    }

    /// Goes over an item that neither opens nor parts nor closes a construct, and of which all types are known; false
    /// where what it takes can't stand there.
    fn follow(&self, stacks: &mut Stacks<'m>, item: &Instr) -> Result<bool, NoMemory>
        requires plain { IsPlain item.now }
        requires not_drop { item.now ≢ Instr.Drop }
        requires not_select { item.now ≢ Instr.Select }
        ensures { IfOk result (λ ok. Steps (seen self.now) (item.now) stacks.old ok stacks.new) }
    {
        match self.effect(stacks, item) {
            Some(effect) => stacks.operands.apply(effect),
            None => Ok(false),
        }
    }

    /// A construct of that kind and block type; None where that names a type that doesn't exist.
    fn construct(&self, kind: Kind, immediate: BlockType) -> Option<Construct<'m>>
        ensures { MatchOption result (expanded self.now.scope.now.types.now immediate ≡ None)
            (λ made. (made.kind ≡ kind) × (expanded self.now.scope.now.types.now immediate ≡ Some (construct_type made))) }
    {
        let (params, results): (&[WasmType], &[WasmType]) = match immediate {
            BlockType::Empty => (&[], &[]),
            BlockType::Value(value) => (&[], alone(value)),
            BlockType::Index(index) => {
                let named = at(self.scope.types, index)?;
                (named.params.as_slice(), named.results.as_slice())
            }
        };
        Some(Construct {
            kind,
            params,
            results,
        })
    }

    /// Opens a construct of that block type, above whose parameters operands of the types `above` stand.
    fn begin(
        &self,
        alloc: Global,
        stacks: &mut Stacks<'m>,
        kind: Kind,
        immediate: BlockType,
        above: &[WasmType],
    ) -> Result<bool, NoMemory>
        ensures { IfOk result (λ ok. Opens (seen self.now) kind immediate above.now stacks.old ok stacks.new) }
    {
        let Some(construct) = self.construct(kind, immediate) else {
            return Ok(false);
        };
        stacks.begin(alloc, construct, above)
    }

    /// What an item does to the operands; None where no types before it keep its rule.
    fn effect(&self, stacks: &Stacks<'m>, item: &Instr) -> Option<Effect<'m>>
        requires plain { IsPlain item.now }
        requires not_drop { item.now ≢ Instr.Drop }
        requires not_select { item.now ≢ Instr.Select }
        ensures { Means (seen self.now) (labels_in self.now.results.now stacks.now) item.now result }
    {
        match item {
            Instr::Unreachable => Some(leaves(&[])),
            Instr::Nop => Some(arrow(&[], &[])),
            Instr::Br(label) => Some(leaves(stacks.target(*label, self.results)?)),
            Instr::BrIf(label) => self.branch_if(stacks, *label),
            Instr::BrTable { default, targets } => {
                self.branch_by(stacks, targets.as_slice(), *default)
            }
            Instr::Return => Some(leaves(self.results)),
            Instr::Call(function) => {
                let kind = self.scope.function(*function)?;
                Some(arrow(kind.params.as_slice(), kind.results.as_slice()))
            }
            Instr::CallIndirect(index) => self.call_indirect(*index),
            Instr::LocalGet(x) => Some(arrow(&[], self.local(*x)?)),
            Instr::LocalSet(x) => Some(arrow(self.local(*x)?, &[])),
            Instr::LocalTee(x) => {
                let types = self.local(*x)?;
                Some(arrow(types, types))
            }
            Instr::GlobalGet(x) => Some(arrow(&[], alone(at(&self.scope.globals, *x)?.kind))),
            Instr::GlobalSet(x) => self.global_set(*x),
            Instr::Load { kind, argument } => self.load(*kind, *argument),
            Instr::Store { kind, argument } => self.store(*kind, *argument),
            Instr::MemorySize => self.on_memory(arrow(&[], I32)),
            Instr::MemoryGrow => self.on_memory(arrow(I32, I32)),
            Instr::I32Const(_) => Some(arrow(&[], I32)),
            Instr::I64Const(_) => Some(arrow(&[], alone(WasmType::I64))),
            Instr::Integer(op) => integer(*op),
            _ => None,
        }
    }

    /// `br_if`.
    fn branch_if(&self, stacks: &Stacks<'m>, label: u32) -> Option<Effect<'m>>
        ensures { Means (seen self.now) (labels_in self.now.results.now stacks.now) (Instr.BrIf label) result }
    {
        let types = stacks.target(label, self.results)?;
        Some(Effect {
            inputs: types,
            indexed: true,
            outputs: Some(types),
        })
    }

    /// `br_table`.
    fn branch_by(&self, stacks: &Stacks<'m>, wanted: &[u32], default: u32) -> Option<Effect<'m>>
        ensures { Means (seen self.now) (labels_in self.now.results.now stacks.now) (Instr.BrTable default wanted.now) result }
    {
        let types = stacks.target(default, self.results)?;
        if !self.all_take(stacks, wanted, default, types) {
            return None;
        }
        Some(Effect {
            inputs: types,
            indexed: true,
            outputs: None,
        })
    }

    /// Whether branches to all of the labels take those types, as one to the default label does.
    fn all_take(&self, stacks: &Stacks, wanted: &[u32], default: u32, types: &[WasmType]) -> bool
        requires { slice_get (labels_in self.now.results.now stacks.now) default ≡ Some types.now }
        ensures { IsTrue result ↔ All (λ l. slice_get (labels_in self.now.results.now stacks.now) l ≡ Some types.now) wanted.now }
    {
        wanted
            .iter()
            .all(|label| self.takes(stacks, *label, default, types))
    }

    /// Whether the label exists and a branch to it takes those types, as one to the default label does. The default label's types
    /// aren't compared with themselves.
    fn takes(&self, stacks: &Stacks, label: u32, default: u32, types: &[WasmType]) -> bool
        requires { slice_get (labels_in self.now.results.now stacks.now) default ≡ Some types.now }
        ensures { IsTrue result ↔ (slice_get (labels_in self.now.results.now stacks.now) label ≡ Some types.now) }
    {
        if label == default {
            return true;
        }
        match stacks.target(label, self.results) {
            Some(taken) => are_same(taken, types),
            None => false,
        }
    }

    /// `call_indirect`.
    fn call_indirect(&self, index: u32) -> Option<Effect<'m>>
        ensures { (ls : List (List WasmType)) → Means (seen self.now) ls (Instr.CallIndirect index) result }
    {
        let kind = at(self.scope.types, index)?;
        if self.scope.tables.is_empty() {
            return None;
        }
        Some(Effect {
            inputs: kind.params.as_slice(),
            indexed: true,
            outputs: Some(kind.results.as_slice()),
        })
    }

    /// The type of a local alone, as a list; None where there is no such local.
    fn local(&self, x: u32) -> Option<&'static [WasmType]>
        ensures { option_map (λ types. types.now) result ≡ option_map (λ kind. kind ∷ []) (slice_get self.now.locals.items x) }
    {
        let kind = at(&self.locals, x)?;
        Some(alone(*kind))
    }

    /// `global.set`.
    fn global_set(&self, x: u32) -> Option<Effect<'m>>
        ensures { (ls : List (List WasmType)) → Means (seen self.now) ls (Instr.GlobalSet x) result }
    {
        let global = at(&self.scope.globals, x)?;
        if !global.mutable {
            return None;
        }
        Some(arrow(alone(global.kind), &[]))
    }

    /// A load.
    fn load(&self, kind: AccessKind, argument: MemoryArgument) -> Option<Effect<'m>>
        ensures { (ls : List (List WasmType)) → Means (seen self.now) ls (Instr.Load kind argument) result }
    {
        if !kind.is_load() || !self.has_access(kind, argument) {
            return None;
        }
        Some(arrow(I32, alone(wasm_type(kind.value_type()))))
    }

    /// A store.
    fn store(&self, kind: AccessKind, argument: MemoryArgument) -> Option<Effect<'m>>
        ensures { (ls : List (List WasmType)) → Means (seen self.now) ls (Instr.Store kind argument) result }
    {
        if kind.is_load() || !self.has_access(kind, argument) {
            return None;
        }
        Some(arrow(address_and(wasm_type(kind.value_type())), &[]))
    }

    /// Whether there is a memory, and the access isn't aligned to more than its width.
    fn has_access(&self, kind: AccessKind, argument: MemoryArgument) -> bool
        ensures { IsTrue result ↔ ((1 ≤ length self.now.scope.now.memories.items) × (2 ^ argument.alignment ≤ width_of kind)) }
    {
        !self.scope.memories.is_empty() && is_aligned(kind.width(), argument.alignment)
    }

    /// The effect of an item on memory; None where there is no memory.
    fn on_memory(&self, effect: Effect<'m>) -> Option<Effect<'m>>
        ensures { MatchOption result (length self.now.scope.now.memories.items ≡ 0) (λ e. (e ≡ effect.entry) × (1 ≤ length self.now.scope.now.memories.items)) }
    {
        if self.scope.memories.is_empty() {
            return None;
        }
        Some(effect)
    }
}

/// An operator on integers.
fn integer(op: Op) -> Option<Effect<'static>>
    ensures { (c : Context) (ls : List (List WasmType)) → Means c ls (Instr.Integer op) result }
{
    let row = bl_ops::row(op)?;
    Some(arrow(operands_of(row), alone(wasm_type(row.to))))
}

/// The types of the operands of an operator's row, which are one or two.
fn operands_of(row: OpRow) -> &'static [WasmType]
    requires { row.operands ≤ 2 }
    ensures { result.now ≡ replicate row.operands (wasm_integer row.from) }
{
    match row.from {
        ValueType::I32 => &[WasmType::I32, WasmType::I32][..usize::from(row.operands)],
        ValueType::I64 => &[WasmType::I64, WasmType::I64][..usize::from(row.operands)],
    }
}

/// Whether 2^alignment is at most the width, which is 1, 2, 4 or 8.
fn is_aligned(width: u8, alignment: u32) -> bool
    ensures { IsTrue result ↔ (2 ^ alignment ≤ width) }
{
    alignment < 8 && (1u8 << alignment) <= width
}

/// A type alone, as a list.
fn alone(kind: WasmType) -> &'static [WasmType]
    ensures { result.now ≡ kind ∷ [] }
{
    match kind {
        WasmType::I32 => I32,
        WasmType::I64 => &[WasmType::I64],
        WasmType::F32 => &[WasmType::F32],
        WasmType::F64 => &[WasmType::F64],
    }
}

/// An address, which is an i32, and a value of the type above it.
fn address_and(kind: WasmType) -> &'static [WasmType]
    ensures { result.now ≡ WasmType.I32 ∷ kind ∷ [] }
{
    match kind {
        WasmType::I32 => &[WasmType::I32, WasmType::I32],
        WasmType::I64 => &[WasmType::I32, WasmType::I64],
        WasmType::F32 => &[WasmType::I32, WasmType::F32],
        WasmType::F64 => &[WasmType::I32, WasmType::F64],
    }
}

/// The type among all value types.
fn wasm_type(kind: ValueType) -> WasmType
    ensures { result ≡ wasm_integer kind }
{
    match kind {
        ValueType::I32 => WasmType::I32,
        ValueType::I64 => WasmType::I64,
    }
}
