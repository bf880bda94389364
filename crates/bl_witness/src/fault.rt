//! Why no value was read.
use bl_base::NoMemory;
use json::Invalid;

/// Why no value was read.
#[derive(Clone, Copy, Debug, PartialEq, Eq)]
pub(crate) enum Fault {
    /// There is none.
    NotJson,
    /// There was no memory.
    Memory,
}

impl From<NoMemory> for Fault {
    ghost use Rattle.bl_witness.specs.declared.fault.Fault.TheVariants.{Memory};
    ghost use Rattle.std.specs.Prelude.{◌≡◌};

    ghost from_gives = { λ _ fault. fault ≡ Memory };

    fn from(_e: NoMemory) -> Fault {
        Fault::Memory
    }
}

impl From<Invalid> for Fault {
    ghost use Rattle.bl_witness.specs.declared.fault.Fault.TheVariants.{NotJson};
    ghost use Rattle.std.specs.Prelude.{◌≡◌};

    ghost from_gives = { λ _ fault. fault ≡ NotJson };

    fn from(_e: Invalid) -> Fault {
        Fault::NotJson
    }
}
