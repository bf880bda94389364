//! Why the labels of a module aren't read.
ghost use Rattle.std.specs.Prelude.{◌≡◌};

use bl_base::NoMemory;
use thiserror::Error;

/// Why the labels of a module aren't read. Sections are counted first, then the bytes are read, and then the entries are tested in
/// order, each for `OutOfRange`, `OnImport`, `Twice` and `Both`, in this order. The first fault is the one that is given.
#[derive(Clone, Copy, Debug, PartialEq, Eq, Error)]
pub enum LabelError {
    /// The bytes of the section spell no entries.
    #[error("malformed")]
    Malformed,
    /// There are two sections of labels, or an entry stood before.
    #[error("twice")]
    Twice,
    /// What an entry names doesn't exist.
    #[error("out of range")]
    OutOfRange,
    /// An entry names what is imported.
    #[error("on import")]
    OnImport,
    /// A global is declared secret and demanded public.
    #[error("both")]
    Both,
    /// Memory ran out.
    #[error("out of memory")]
    Memory,
}

impl From<NoMemory> for LabelError {
    ghost use Rattle.bl_labels.specs.declared.error.LabelError.TheVariants.{Memory};

    ghost from_gives = { λ _ e. e ≡ Memory };

    fn from(_e: NoMemory) -> LabelError {
        LabelError::Memory
    }
}
