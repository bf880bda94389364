//! Named files.
ghost use Rattle.std.specs.Prelude.{◌≡◌, ◌+◌, ◌<◌, ◌≤◌, Option, length, IfOk, OnOk, OnErr};
ghost use Rattle.bl_outside.specs.Shelf.{Files, Faults, FetchFaults, KeepFaults, Gives, GivesPart, most_asked, with_file};
ghost use Rattle.bl_outside.specs.declared.shelf.ShelfError.TheVariants.{Memory};

use bl_base::NoMemory;
use thiserror::Error;

/// Why a file could not be fetched or kept.
#[derive(Clone, Copy, Debug, PartialEq, Eq, Error)]
pub enum ShelfError {
    /// Reading or writing failed, or there is no such file to read. The shelf has counted it.
    #[error("a file could not be read or written")]
    Failed,
    /// Memory ran out.
    #[error("out of memory")]
    Memory,
}

impl From<NoMemory> for ShelfError {
    ghost from_gives = { λ _ e. e ≡ Memory };

    fn from(_e: NoMemory) -> ShelfError {
        ShelfError::Memory
    }
}

/// A finite map from names to bytes, with a count of read faults, a count of write faults and the name
/// at which a call last failed. Counts never fall; one that stands at 2^64 - 1 stays there.
pub trait Shelf {
    /// The map, if the shelf exposes its contents.
    ghost files: { Self → Option Files };

    /// The two counts, and the name at which a call last failed.
    ghost faults: { Self → Faults };

    /// The first bytes of the entry of that name, at most `most` and one more, so that a caller sees
    /// whether the entry is longer than `most`. Failed comes only with a read fault, as at a name that
    /// is absent; Memory may always come. No entry changes, whatever the answer.
    fn fetch(&mut self, name: &str, most: u64) -> Result<Vec<u8>, ShelfError>
        requires asked { most ≤ most_asked }
        ensures bound { IfOk result (λ bytes. length bytes.items ≤ most + 1) }
        ensures found { IfOk result (λ bytes. Gives (files self.old) name.now most bytes.items) }
        ensures files { files self.new ≡ files self.old }
        ensures faults { FetchFaults result (faults self.old) (faults self.new) name.now };

    /// The bytes of the entry of that name from place `from` on, at most `most`; none where the entry ends there or before. Failed
    /// comes only with a read fault, as at a name that is absent; Memory may always come. No entry changes, whatever the answer.
    fn part(&mut self, name: &str, from: u64, most: u64) -> Result<Vec<u8>, ShelfError>
        requires some { 0 < most }
        requires asked { from + most ≤ most_asked }
        ensures bound { IfOk result (λ bytes. length bytes.items ≤ most) }
        ensures found { IfOk result (λ bytes. GivesPart (files self.old) name.now from most bytes.items) }
        ensures files { files self.new ≡ files self.old }
        ensures faults { FetchFaults result (faults self.old) (faults self.new) name.now };

    /// Makes the entry of that name new, and leaves every other entry. Failed comes only with a write
    /// fault; Memory may always come. After a refusal no entry is changed.
    fn keep(&mut self, name: &str, bytes: &[u8]) -> Result<(), ShelfError>
        ensures kept { OnOk result (files self.new ≡ with_file (files self.old) name.now bytes.now) }
        ensures refused { OnErr result (files self.new ≡ files self.old) }
        ensures faults { KeepFaults result (faults self.old) (faults self.new) name.now };
}
