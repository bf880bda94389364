//! Lists of directives.
ghost use Rattle.std.specs.Prelude.{◌≡◌, IfOk};
ghost use Rattle.bl_rob.specs.{CallResults.seen_in, CallResults.shown, Observations.ObservesBy};

use crate::directive::{Directive, StepError};
use crate::loads::Loads;
use crate::rob::Rob;
use bl_base::{List, NoMemory};
use std::alloc::Global;

/// What is observed of a list of directives.
#[derive(Debug, Drop)]
pub struct Observed<O> {
    /// What is observed of each one, up to the first that isn't enabled.
    pub made: List<O>,
    /// The place of that one, from 1; None where each is enabled.
    pub refused: Option<u64>,
}

impl<'p, const W: usize, P: Loads> Rob<'p, W, P> {
    /// Takes directives in order, up to the first one that isn't enabled.
    pub fn observe(
        &mut self,
        alloc: Global,
        directives: &[Directive],
    ) -> Result<Observed<P::Sight>, NoMemory>
        ensures same { self.new.program ≡ self.old.program }
        ensures seen { IfOk result (λ seen. ObservesBy (P.rules W self.old.program) directives.now (shown self.old.machine) (seen_in seen) (shown self.new.machine)) }
    {
        let mut made = List::new(alloc);
        for (i, directive) in directives.iter().enumerate() {
            match self.step(alloc, *directive) {
                Ok(seen) => made.push(seen)?,
                Err(StepError::NotEnabled) => {
                    return Ok(Observed {
                        made,
                        refused: Some(i as u64 + 1),
                    });
                }
                Err(StepError::Memory) => return Err(NoMemory),
            }
        }
        Ok(Observed {
            made,
            refused: None,
        })
    }
}
