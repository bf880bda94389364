//! What a machine tells.
ghost use Rattle.std.specs.Prelude.{◌≡◌, Some, IfOk};
ghost use Rattle.std.specs.List.{All};
ghost use Rattle.bl_seq.specs.{FinalMemories.IsWhole, FinalMemories.memories_of, Layouts.IsLayout};
ghost use Rattle.bl_rob.specs.CallResults.{IsRunOf, kind_of, outcome_in, shown};
ghost use Rattle.bl_rob.specs.{Machines.end_in, declared.directive.End.End as Ending};

use crate::directive::{End, Kind};
use crate::entry::Work;
use crate::machine::Machine;
use bl_base::{NoMemory, Run};
use bl_seq::{Layout, memories, results};
use std::alloc::Global;

impl Machine {
    /// How it has ended; None where it hasn't.
    pub fn finished(&self) -> Option<End>
        ensures { result ≡ end_in (shown self.now) }
    {
        if self.entries.is_empty() {
            self.front.end
        } else {
            None
        }
    }

    /// The outcome; None exactly where the machine hasn't ended. Where it has, each memory has all its bytes.
    pub fn outcome(&self, alloc: Global, layout: &Layout) -> Result<Option<Run>, NoMemory>
        requires layout { IsLayout layout.now }
        requires whole { (end : Ending) → end_in (shown self.now) ≡ Some end → All IsWhole (memories_of layout.now.parts.now (shown self.now).registers (shown self.now).space) }
        ensures { IfOk result (IsRunOf (outcome_in layout.now.parts.now (shown self.now))) }
    {
        let Some(end) = self.finished() else {
            return Ok(None);
        };
        let memories = memories(alloc, layout, &self.registers, &self.space)?;
        Ok(Some(match end {
            End::Returned => Run::Returned {
                values: results(alloc, layout, &self.registers, self.front.position as usize)?,
                memories,
            },
            End::Trapped(kind) => Run::Trapped { kind, memories },
        }))
    }
}

impl Work {
    /// What the entry is.
    pub(crate) fn kind(&self) -> Kind
        ensures { result ≡ kind_of self.now }
    {
        match self {
            Work::Nop => Kind::Nop,
            Work::Assign { .. } => Kind::Assign,
            Work::Load { .. } => Kind::Load,
            Work::Held { .. } => Kind::Held,
            Work::Done { .. } => Kind::Done,
            Work::Store { .. } => Kind::Store,
            Work::Ready { .. } => Kind::Ready,
            Work::Guard { predicted, .. } => Kind::Guard(*predicted),
            Work::Fail(_) => Kind::Fail,
        }
    }
}
