//! What is known of the operands that stand in one construct (WebAssembly 1.0, appendix "Validation Algorithm").
ghost use Rattle.std.specs.Prelude.{◌≡◌, ◌↔◌, ◌++◌, List, [], ◌∷◌, IsTrue, OnOk, IfOk, MatchOption};
ghost use Rattle.bl_wasm.specs.{Typing.Arrow, declared.types.WasmType.WasmType};
ghost use Rattle.bl_wasm.specs.declared.types.WasmType.TheVariants as WasmType;
ghost use Rattle.bl_validate.specs.HasEffect.{HasEffect, inputs_of};
ghost use Rattle.bl_validate.specs.MayStand.{MayStand, Fits, Pops, known};

use crate::effects::Effect;
use bl_base::NoMemory;
use bl_wasm::WasmType;
use std::alloc::Global;

/// An i32 alone.
pub(crate) const I32: &[WasmType] = &[WasmType::I32];

/// Operands one after another.
#[derive(Clone, Copy, Debug)]
pub(crate) struct Run<'m> {
    /// The types of all but the last one.
    pub(crate) below: &'m [WasmType],
    /// The type of the last one; None where it may be of any type.
    pub(crate) last: Option<WasmType>,
}

/// What is known of the operands in a construct. Lists of types are kept by reference, so to put many operands costs no
/// more than to put one.
#[derive(Debug, Drop)]
pub(crate) struct Operands<'m> {
    /// The operands below those of the last list, the last run on top.
    pub(crate) runs: Vec<Run<'m>>,
    /// The types of what is left of the list that was put last.
    pub(crate) top: &'m [WasmType],
    /// Whether the place can't be reached: any operands may stand below those that are known.
    pub(crate) unreachable: bool,
}

impl<'m> Operands<'m> {
    /// Operands of those types and no others. Takes no memory.
    #[tactic(auto, unfolding(crate::specs::MayStand::MayStand))]
    pub(crate) fn of(alloc: Global, types: &'m [WasmType]) -> Operands<'m>
        ensures { (s : List WasmType) → MayStand result s ↔ (s ≡ types.now) }
    {
        Operands {
            runs: Vec::new(alloc),
            top: types,
            unreachable: false,
        }
    }

    /// Takes the last operand that is known, whose type may be unknown; None where none is known.
    fn pop_known(&mut self) -> Option<Option<WasmType>>
        ensures { Pops self.old result self.new }
    {
        if let Some((last, below)) = self.top.split_last() {
            self.top = below;
            return Some(Some(*last));
        }
        let Some(run) = self.runs.pop() else {
            return None;
        };
        self.top = run.below;
        Some(run.last)
    }

    /// Takes operands of those types, the last one from the top; false where they can't stand there. Where the place can't
    /// be reached, those below the operands that are known cost nothing.
    pub(crate) fn pop(&mut self, wanted: &[WasmType]) -> bool
        ensures { (s : List WasmType) → MayStand self.old (s ++ wanted.now) ↔ (IsTrue result × MayStand self.new s) }
    {
        let mut left = wanted.len();
        while left > 0 {
            left -= 1;
            let Some(entry) = self.pop_known() else {
                return self.unreachable;
            };
            if !fits(entry, wanted[left]) {
                return false;
            }
        }
        true
    }

    /// Takes an operand of any type; None where none can stand there.
    fn pop_any(&mut self) -> Option<Option<WasmType>>
        ensures { (s : List WasmType) (type : WasmType) →
            MayStand self.old (s ++ type ∷ []) ↔ MatchOption result ⊥ (λ entry. Fits entry type × MayStand self.new s) }
    {
        let Some(entry) = self.pop_known() else {
            return if self.unreachable { Some(None) } else { None };
        };
        Some(entry)
    }

    /// Puts an operand on top, whose type may be unknown.
    fn push_any(&mut self, entry: Option<WasmType>) -> Result<(), NoMemory>
        ensures { OnOk result ((s : List WasmType) →
            MayStand self.new s ↔ ((below : List WasmType) × (type : WasmType) × (s ≡ below ++ type ∷ []) × Fits entry type × MayStand self.old below)) }
    {
        self.runs.push(Run {
            below: self.top,
            last: entry,
        })?;
        self.top = &[];
        Ok(())
    }

    /// Puts the list that was put last among the runs: the same operands are known.
    fn settle(&mut self) -> Result<(), NoMemory>
        ensures { OnOk result ((known self.new ≡ known self.old) × (self.new.top.now ≡ []) × (self.new.unreachable ≡ self.old.unreachable)) }
    {
        if let Some((last, below)) = self.top.split_last() {
            self.runs.push(Run {
                below,
                last: Some(*last),
            })?;
            self.top = &[];
        }
        Ok(())
    }

    /// Puts operands of those types on top.
    pub(crate) fn push(&mut self, types: &'m [WasmType]) -> Result<(), NoMemory>
        ensures { OnOk result ((s : List WasmType) →
            MayStand self.new s ↔ ((below : List WasmType) × (s ≡ below ++ types.now) × MayStand self.old below)) }
    {
        self.settle()?;
        self.top = types;
        Ok(())
    }

    /// Forgets what is known: nothing can be reached.
    fn forget(&mut self)
        ensures any { (s : List WasmType) → MayStand self.new s }
        ensures some { (s : List WasmType) × MayStand self.old s }
    {
        self.runs.clear();
        self.top = &[];
        self.unreachable = true;
    }

    /// Takes what an item of that effect takes; false where it can't stand there.
    fn pop_inputs(&mut self, effect: Effect<'m>) -> bool
        ensures { (s : List WasmType) → MayStand self.old (s ++ inputs_of effect.entry) ↔ (IsTrue result × MayStand self.new s) }
    {
        if !effect.indexed {
            return self.pop(effect.inputs);
        }
        self.pop(I32) && self.pop(effect.inputs)
    }

    /// Puts operands of those types on top; None where nothing can be reached.
    fn push_outputs(&mut self, outputs: Option<&'m [WasmType]>) -> Result<(), NoMemory>
        ensures { OnOk result ((s : List WasmType) →
            MayStand self.new s ↔ ((below : List WasmType) × MatchOption outputs.entry (Unit {0}) (λ types. s ≡ below ++ types.now) × MayStand self.old below)) }
    {
        match outputs {
            Some(types) => self.push(types),
            None => {
                self.forget();
                Ok(())
            }
        }
    }

    /// Goes over an item of that effect; false where what it takes can't stand there.
    pub(crate) fn apply(&mut self, effect: Effect<'m>) -> Result<bool, NoMemory>
        ensures { IfOk result (λ ok. (to : List WasmType) →
            (IsTrue ok × MayStand self.new to) ↔ ((from : List WasmType) × HasEffect effect.entry from to × MayStand self.old from)) }
    {
        if !self.pop_inputs(effect) {
            return Ok(false);
        }
        self.push_outputs(effect.outputs)?;
        Ok(true)
    }

    /// Takes an operand of any type; false where none can stand there.
    pub(crate) fn drop_one(&mut self) -> bool
        ensures { (to : List WasmType) →
            (IsTrue result × MayStand self.new to) ↔ ((from : List WasmType) × ((type : WasmType) × Arrow (type ∷ []) [] from to) × MayStand self.old from) }
    {
        self.pop_any().is_some()
    }

    /// Takes two operands of one type, which may be unknown; None where they can't stand there.
    fn pop_pair(&mut self) -> Option<Option<WasmType>>
        ensures { (s : List WasmType) (type : WasmType) → MayStand self.old (s ++ type ∷ type ∷ [])
            ↔ MatchOption result ⊥ (λ entry. Fits entry type × MayStand self.new s) }
    {
        let Some(second) = self.pop_any() else {
            return None;
        };
        let Some(first) = self.pop_any() else {
            return None;
        };
        meet(first, second)
    }

    /// Takes a condition and two operands of one type, and puts one of that type in their place; false where they can't
    /// stand there.
    pub(crate) fn select(&mut self) -> Result<bool, NoMemory>
        ensures { IfOk result (λ ok. (to : List WasmType) →
            (IsTrue ok × MayStand self.new to)
            ↔ ((from : List WasmType) × ((type : WasmType) × Arrow (type ∷ type ∷ WasmType.I32 ∷ []) (type ∷ []) from to) × MayStand self.old from)) }
    {
        if !self.pop(I32) {
            return Ok(false);
        }
        let Some(entry) = self.pop_pair() else {
            return Ok(false);
        };
        self.push_any(entry)?;
        Ok(true)
    }

    /// Whether nothing may stand there.
    pub(crate) fn may_be_empty(&self) -> bool
        ensures { IsTrue result ↔ MayStand self.now [] }
    {
        self.runs.is_empty() && self.top.is_empty()
    }
}

/// Whether an operand of that type may be the entry.
fn fits(entry: Option<WasmType>, kind: WasmType) -> bool
    ensures { IsTrue result ↔ Fits entry kind }
{
    match entry {
        None => true,
        Some(known) => known == kind,
    }
}

/// What is known of a type of which both are known; None where no type is both.
fn meet(first: Option<WasmType>, second: Option<WasmType>) -> Option<Option<WasmType>>
    ensures { (type : WasmType) → (Fits first type × Fits second type) ↔ MatchOption result ⊥ (λ entry. Fits entry type) }
{
    match (first, second) {
        (None, other) | (other, None) => Some(other),
        (Some(one), Some(other)) if one == other => Some(first),
        _ => None,
    }
}
