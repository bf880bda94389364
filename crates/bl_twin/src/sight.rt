//! What can be observed of a step.
ghost use Rattle.std.specs.Prelude.{◌≡◌, ◌↔◌, ◌++◌, ℕ, Bool as Truth, List as Listed, true, OnErr, OnOk};

use bl_base::NoMemory;
use bl_rob::Observation;
use bl_trace::print_observation;
use std::alloc::Global;

/// What can be observed of a step of a machine.
pub trait Sight: Copy + Drop {
    /// Whether two are the same.
    ghost alike: { Self → Self → Truth };

    /// The line of one.
    ghost line: { Self → Listed ℕ };

    /// Whether it is the other one.
    fn is_same(&self, other: &Self) -> bool
        ensures { result ≡ alike self.now other.now };

    /// Puts its line behind a text. A refusal leaves the text as it was.
    fn print(&self, alloc: Global, to: &mut Vec<u8>) -> Result<(), NoMemory>
        ensures ok { OnOk result (to.new.items ≡ to.old.items ++ line self.now) }
        ensures err { OnErr result (to.new.items ≡ to.old.items) };

    ghost decides: { (x y : Self) → alike x y ≡ true ↔ x ≡ y };
}

impl Sight for Observation {
    ghost use Rattle.bl_trace.specs.Observations.{observation_text};
    ghost use Rattle.bl_twin.specs.TwinComparisons.{is_same};
    ghost use Rattle.bl_twin.specs.SameObservations.{observations_decided};

    ghost alike = { is_same };

    ghost line = { observation_text };

    ghost decides = { observations_decided };

    fn is_same(&self, other: &Observation) -> bool {
        *self == *other
    }

    fn print(&self, alloc: Global, to: &mut Vec<u8>) -> Result<(), NoMemory> {
        print_observation(alloc, to, self)
    }
}
