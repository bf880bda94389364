//! What is known of the operands and the open constructs at a place of a body (WebAssembly 1.0, appendix "Validation
//! Algorithm").
ghost use Rattle.std.specs.Prelude.{◌≡◌, ◌↔◌, ◌++◌, List, [], ◌∷◌, IsTrue, OnOk, IfOk, MatchOption, slice_get, option_map};
ghost use Rattle.bl_wasm.specs.{OpenConstructs.then_part, declared.types.WasmType.WasmType};
ghost use Rattle.bl_wasm.specs.Typing.{Context, Open, opened, taken_by};
ghost use Rattle.bl_wasm.specs.declared.instruction.Instr.TheVariants as Instr;
ghost use Rattle.bl_validate.specs.Represents.{Represents, Steps, IsOpen, labels_in, construct_type, nesting_kind};

use crate::operands::Operands;
use bl_base::NoMemory;
use bl_wasm::WasmType;
use std::alloc::Global;
use std::mem;

/// What an `end` closes.
#[derive(Clone, Copy, Debug, PartialEq, Eq)]
pub(crate) enum Kind {
    /// A block.
    Block,
    /// A loop.
    Loop,
    /// An if up to its `else` or its end.
    ThenPart,
    /// An if behind its `else`.
    ElsePart,
}

/// A construct by its kind, its parameters and its results.
#[derive(Clone, Copy, Debug)]
pub(crate) struct Construct<'m> {
    /// Which construct.
    pub(crate) kind: Kind,
    /// The types that it takes.
    pub(crate) params: &'m [WasmType],
    /// The types that it leaves.
    pub(crate) results: &'m [WasmType],
}

/// An open construct, and the operands below it.
#[derive(Debug, Drop)]
pub(crate) struct Frame<'m> {
    /// The construct.
    pub(crate) construct: Construct<'m>,
    /// What is known of the operands in the construct round it, without its parameters.
    pub(crate) below: Operands<'m>,
}

/// What is known at a place of a body. It represents the operands' types that a typing of the items before the place can
/// have there.
#[derive(Debug, Drop)]
pub(crate) struct Stacks<'m> {
    /// The operands in the innermost construct.
    pub(crate) operands: Operands<'m>,
    /// The open constructs, the innermost last.
    pub(crate) frames: Vec<Frame<'m>>,
}

impl<'m> Stacks<'m> {
    /// What is known at the start of a body: nothing stands there. Takes no memory.
    #[tactic(auto, unfolding(crate::specs::Represents::Represents))]
    pub(crate) fn new(alloc: Global) -> Stacks<'m>
        ensures { (open_ones : List Open) (s : List WasmType) → Represents result open_ones s ↔ ((open_ones ≡ []) × (s ≡ [])) }
    {
        Stacks {
            operands: Operands::of(alloc, &[]),
            frames: Vec::new(alloc),
        }
    }

    /// Takes operands of those types, the last one from the top; false where they can't stand there.
    fn pop(&mut self, wanted: &[WasmType]) -> bool
        ensures { (open_ones : List Open) (s : List WasmType) →
            Represents self.old open_ones (s ++ wanted.now) ↔ (IsTrue result × Represents self.new open_ones s) }
    {
        self.operands.pop(wanted)
    }

    /// Puts operands of those types on top.
    fn push(&mut self, types: &'m [WasmType]) -> Result<(), NoMemory>
        ensures { OnOk result ((open_ones : List Open) (s : List WasmType) →
            Represents self.new open_ones s ↔ ((below : List WasmType) × (s ≡ below ++ types.now) × Represents self.old open_ones below)) }
    {
        self.operands.push(types)
    }

    /// Opens a construct, in which its parameters stand; the operands that stand before are below it.
    fn enter(&mut self, alloc: Global, construct: Construct<'m>) -> Result<(), NoMemory>
        ensures { OnOk result ((open_ones : List Open) (s : List WasmType) →
            Represents self.new open_ones s ↔ ((outer : List Open) × (lower : List WasmType) × (s ≡ construct.entry.params.now)
            × (open_ones ≡ opened (nesting_kind construct.entry.kind) (construct_type construct.entry) lower ∷ outer) × Represents self.old outer lower)) }
    {
        let below = mem::replace(&mut self.operands, Operands::of(alloc, construct.params));
        self.frames.push(Frame { construct, below })?;
        Ok(())
    }

    /// Takes operands of the types `above` and below these the parameters of a construct, and opens it; false where they
    /// can't stand there.
    pub(crate) fn begin(
        &mut self,
        alloc: Global,
        construct: Construct<'m>,
        above: &[WasmType],
    ) -> Result<bool, NoMemory>
        ensures { IfOk result (λ ok. (behind : List Open) (to : List WasmType) →
            (IsTrue ok × Represents self.new behind to) ↔ ((outer : List Open) × (lower : List WasmType) × (to ≡ construct.entry.params.now)
            × (behind ≡ opened (nesting_kind construct.entry.kind) (construct_type construct.entry) lower ∷ outer)
            × Represents self.old outer (lower ++ (construct.entry.params.now ++ above.now)))) }
    {
        if !self.pop(above) {
            return Ok(false);
        }
        if !self.pop(construct.params) {
            return Ok(false);
        }
        self.enter(alloc, construct)?;
        Ok(true)
    }

    /// Closes the innermost construct, where its results and nothing else stand in it; None where none is open or other
    /// operands stand there.
    fn close(&mut self) -> Option<Construct<'m>>
        ensures { (one : Open) (outer : List Open) → Represents self.old (one ∷ outer) one.type.results
            ↔ MatchOption result ⊥ (λ construct. IsOpen construct one × Represents self.new outer one.lower) }
    {
        let Some(frame) = self.frames.pop() else {
            return None;
        };
        if !self.operands.pop(frame.construct.results) {
            return None;
        }
        if !self.operands.may_be_empty() {
            return None;
        }
        self.operands = frame.below;
        Some(frame.construct)
    }

    /// `else`.
    pub(crate) fn part(&mut self, alloc: Global) -> Result<bool, NoMemory>
        ensures { IfOk result (λ ok. (c : Context) → Steps c Instr.Else self.old ok self.new) }
    {
        let Some(construct) = self.close() else {
            return Ok(false);
        };
        if construct.kind != Kind::ThenPart {
            return Ok(false);
        }
        self.enter(
            alloc,
            Construct {
                kind: Kind::ElsePart,
                ..construct
            },
        )?;
        Ok(true)
    }

    /// `end` of a construct.
    pub(crate) fn end(&mut self) -> Result<bool, NoMemory>
        ensures { IfOk result (λ ok. (c : Context) → Steps c Instr.End self.old ok self.new) }
    {
        let Some(construct) = self.close() else {
            return Ok(false);
        };
        if !may_end(construct) {
            return Ok(false);
        }
        self.push(construct.results)?;
        Ok(true)
    }

    /// The types that a branch to a label takes; None where there is no such label. The outermost label takes `results`.
    pub(crate) fn target(&self, label: u32, results: &'m [WasmType]) -> Option<&'m [WasmType]>
        ensures { option_map (λ types. types.now) result ≡ slice_get (labels_in results.now self.now) label }
    {
        let label = label as usize;
        let depth = self.frames.len();
        if label > depth {
            return None;
        }
        if label == depth {
            return Some(results);
        }
        Some(self.frames[depth - 1 - label].construct.taken())
    }

    /// Whether a body may end here: no construct is open, and operands of those types and nothing else stand there.
    pub(crate) fn is_done(&mut self, results: &[WasmType]) -> bool
        ensures { IsTrue result ↔ Represents self.old [] results.now }
    {
        if !self.pop(results) {
            return false;
        }
        self.frames.is_empty() && self.operands.may_be_empty()
    }
}

impl<'m> Construct<'m> {
    /// The types that a branch to its label takes: to a loop its parameters, else its results.
    fn taken(&self) -> &'m [WasmType]
        ensures { result.now ≡ taken_by (nesting_kind self.now.kind) (construct_type self.now) }
    {
        match self.kind {
            Kind::Loop => self.params,
            Kind::Block | Kind::ThenPart | Kind::ElsePart => self.results,
        }
    }
}

/// Whether the construct may end: an if without `else` has equal parameters and results.
fn may_end(construct: Construct) -> bool
    ensures { IsTrue result ↔ (nesting_kind construct.entry.kind ≡ then_part → construct.entry.params.now ≡ construct.entry.results.now) }
{
    construct.kind != Kind::ThenPart || are_same(construct.params, construct.results)
}

/// Whether the types are the same.
pub(crate) fn are_same(some: &[WasmType], others: &[WasmType]) -> bool
    ensures { IsTrue result ↔ (some.now ≡ others.now) }
{
    some == others
}
