//! The section of labels of a module.
ghost use Rattle.std.specs.Prelude.{◌≡◌, ◌≤◌, ◌&&◌, [], drop, length, nat_eq, IfNone, IfOk, IfSome};
ghost use Rattle.std.specs.{List.list_all, Str.bytes_eq};
ghost use Rattle.bl_labels.specs.Entries.{has as has_of, is_secret as is_secret_of};
ghost use Rattle.bl_labels.specs.Faults.{IsConsistent, IsNext, labels_name, sections_of};
ghost use Rattle.bl_labels.specs.LabelAnswers.{InSection, ReadsSection, Tells};

use crate::entry::{Entries, Entry};
use crate::error::LabelError;
use crate::judge::judge;
use crate::labels::Labels;
use bl_base::List;
use bl_code::{CodeError, read_byte, read_vec};
use bl_wasm::{CustomSection, Module};
use std::alloc::Global;

/// Whether an entry declares something secret; the others demand that it stays public.
fn is_secret(entry: &Entry) -> bool
    ensures { result ≡ is_secret_of entry.now }
{
    matches!(
        entry,
        Entry::SecretParam(_) | Entry::SecretGlobal(_) | Entry::SecretMemory(_)
    )
}

/// Whether all entries declare something secret.
fn are_secret(entries: &[Entry]) -> bool
    ensures { result ≡ list_all is_secret_of entries.now }
{
    for entry in entries {
        if !is_secret(entry) {
            return false;
        }
    }
    true
}

/// Whether a version has those entries: version 1 has no demands, and version 2 has all entries.
fn has(version: u8, entries: &[Entry]) -> bool
    ensures { result ≡ has_of version entries.now }
{
    version == 0x02 || (version == 0x01 && are_secret(entries))
}

/// Whether entries end where the section's bytes do, and its version has them.
fn is_whole(bytes: &[u8], end: usize, version: u8, entries: &[Entry]) -> bool
    ensures { result ≡ (nat_eq end (length bytes.now) && has_of version entries.now) }
{
    end == bytes.len() && has(version, entries)
}

/// Reads the entries of a section by its bytes behind the name.
fn read_section(alloc: Global, bytes: &[u8]) -> Result<List<Entry>, LabelError>
    ensures { ReadsSection bytes.now result }
{
    let Ok((version, first)) = read_byte(bytes, 0) else {
        return Err(LabelError::Malformed);
    };
    match read_vec::<Entries>(alloc, bytes, first) {
        Ok((entries, end)) => {
            if is_whole(bytes, end, version, entries.as_slice()) {
                Ok(entries)
            } else {
                Err(LabelError::Malformed)
            }
        }
        Err(CodeError::Malformed) => Err(LabelError::Malformed),
        Err(CodeError::Memory) => Err(LabelError::Memory),
    }
}

/// The labels of a section by its bytes behind the name.
fn labels_in(alloc: Global, wasm: &Module, bytes: &[u8]) -> Result<Labels, LabelError>
    ensures { InSection wasm.now bytes.now result }
{
    match read_section(alloc, bytes) {
        Ok(entries) => judge(alloc, wasm, entries.as_slice()),
        Err(error) => Err(error),
    }
}

/// Whether a custom section is one of labels.
fn is_labels(custom: &CustomSection) -> bool
    ensures { result ≡ bytes_eq custom.now.name labels_name }
{
    custom.name.as_slice() == b"blade.labels".as_slice()
}

/// The place of the first section of labels from a place on.
fn next_section(customs: &[CustomSection], from: usize) -> Option<usize>
    requires { from ≤ length customs.now }
    ensures found { IfSome result (λ place. IsNext customs.now from place) }
    ensures none { IfNone result (sections_of (drop from customs.now) ≡ []) }
{
    for place in from..customs.len() {
        if is_labels(&customs[place]) {
            return Some(place);
        }
    }
    None
}

/// The labels of a module: those of the entries of its custom section `blade.labels`, wherever that stands; without one, none.
///
/// # Errors
///
/// The first in this order: `Twice` where there are two such sections; `Malformed` where the bytes behind the name aren't a version
/// byte, 01 or 02, and a vector of entries that the version has; and then the fault of the first entry that has one, which is
/// `OutOfRange` where the function, its parameter or result, the global or the memory doesn't exist, `OnImport` where it is
/// imported, `Twice` where the entry stood before, and `Both` where a global was declared secret and demanded public. `Memory` where
/// memory runs out.
pub fn labels_of(alloc: Global, wasm: &Module) -> Result<Labels, LabelError>
    ensures told { Tells wasm.now (sections_of wasm.now.customs) result }
    ensures consistent { IfOk result IsConsistent }
{
    let customs = wasm.customs.as_slice();
    let Some(place) = next_section(customs, 0) else {
        return Ok(Labels::none(alloc));
    };
    if next_section(customs, place + 1).is_some() {
        return Err(LabelError::Twice);
    }
    labels_in(alloc, wasm, customs[place].bytes.as_slice())
}
