//! What a run starts from.
ghost use Rattle.std.specs.Prelude.{◌↔◌, All, IsTrue, length, slice_get};
ghost use Rattle.std.specs.List.{AllZip};
ghost use Rattle.bl_base.specs.Fits.{AreBytes, ArgumentFits, LiesIn, PatchFits, Fits};

use crate::list::List;
use crate::names::ValueType;
use crate::text::Text;

/// Bytes that are written over a memory's first contents.
#[derive(Debug, Drop)]
pub struct Patch {
    /// The memory's number, from 0.
    pub memory: u32,
    /// Where in the memory the bytes begin.
    pub offset: u32,
    /// The bytes.
    pub bytes: Text,
}

/// The arguments of the function that is entered, and patches that are written in order.
#[derive(Debug, Drop)]
pub struct Start {
    /// One for each parameter; one of an i32 is below 2^32.
    pub args: List<u64>,
    /// The patches, the first to be written first.
    pub patches: List<Patch>,
}

/// Whether a start fits a function of these parameters in a program whose memories have these first
/// pages: there is an argument for each parameter, one of an i32 is below 2^32, and each patch names
/// a memory and lies in its first pages. Linear in the arguments and the patches; takes no memory.
pub fn fits(params: &[ValueType], sizes: &[u32], start: &Start) -> bool
    ensures { IsTrue result ↔ Fits params.now sizes.now start.now }
{
    arguments_fit(params, start.args.as_slice()) && patches_fit(sizes, start.patches.as_slice())
}

fn arguments_fit(params: &[ValueType], args: &[u64]) -> bool
    ensures { IsTrue result ↔ AllZip ArgumentFits params.now args.now }
{
    if params.len() != args.len() {
        return false;
    }
    for i in 0..params.len() {
        if !argument_fits(params[i], args[i]) {
            return false;
        }
    }
    true
}

/// Whether a value is one of a type: of an i32 it is below 2^32.
pub fn argument_fits(kind: ValueType, value: u64) -> bool
    ensures { IsTrue result ↔ ArgumentFits kind value }
{
    match kind {
        ValueType::I32 => value <= u32::MAX as u64,
        ValueType::I64 => true,
    }
}

fn patches_fit(sizes: &[u32], patches: &[Patch]) -> bool
    ensures { IsTrue result ↔ All (PatchFits sizes.now) patches.now }
{
    patches.iter().all(|patch| patch_fits(sizes, patch))
}

fn patch_fits(sizes: &[u32], patch: &Patch) -> bool
    ensures { IsTrue result ↔ PatchFits sizes.now patch.now }
{
    lies_in(sizes, patch.memory, patch.offset, patch.bytes.as_slice())
}

/// Whether the bytes from that place lie in the memory's pages.
fn lies_in(sizes: &[u32], memory: u32, offset: u32, bytes: &[u8]) -> bool
    ensures { IsTrue result
        ↔ LiesIn offset (length bytes.now) (slice_get sizes.now memory) × AreBytes bytes.now }
{
    match sizes.get(memory as usize) {
        Some(pages) => offset as u128 + bytes.len() as u128 <= *pages as u128 * 65_536,
        None => false,
    }
}
