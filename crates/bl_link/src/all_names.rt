//! The exports of all parts that are linked, by their names in the tree.
ghost use Rattle.std.specs.Prelude.{◌≡◌, [], ◌++◌, List as Listed, ℕ, MatchOption, OnOk, OnErr, map};
ghost use Rattle.bl_wasm.specs.Exports.{value_named};
ghost use Rattle.bl_link.specs.AllNames.{behind, of_part, of_parts};
ghost use Rattle.bl_link.specs.ExportNames.{qualified};

use crate::store::External;
use bl_base::{List, NoMemory, Text};
use bl_wasm::Named;
use std::alloc::Global;
use std::marker::Model;

/// What a part exports.
#[derive(Drop)]
pub(crate) struct PartNames {
    /// The name of the part.
    pub part: Text,
    /// Its exports, by their own names.
    pub exports: Named<External>,
}

/// The exports of parts, in order; the name of a part stands once. Contracts see the list of the pairs of a name in the tree and a
/// value.
#[derive(Drop)]
pub(crate) struct AllNames {
    parts: List<PartNames>,
}

impl Model for AllNames {
    ghost use Rattle.bl_link.specs.AllNames.{of_parts};
    ghost use Rattle.bl_link.specs.ExportNames.{Values};

    ghost Value = { Values };

    ghost view = { λ a. of_parts a.parts };
}

/// What stands in a name behind the name of a part and a solidus; None where it begins with another.
fn own_name<'n>(part: &[u8], name: &'n [u8]) -> Option<&'n [u8]>
    ensures { MatchOption result ((own : Listed ℕ) → name.now ≡ qualified part.now own → ⊥) (λ own. name.now ≡ qualified part.now own.now) }
{
    match name.strip_prefix(part) {
        Some(rest) => rest.strip_prefix(&[b'/']),
        None => None,
    }
}

impl PartNames {
    /// The value of that name in the tree, where it is one of this part. Takes no memory.
    fn find(&self, name: &[u8]) -> Option<External>
        ensures { result ≡ value_named name.now (of_part self.now) }
    {
        match own_name(self.part.as_slice(), name) {
            Some(own) => self.exports.get(own),
            None => None,
        }
    }
}

/// The value of that name in the tree, where it is one of these parts. Takes no memory.
fn find_among(parts: &[PartNames], name: &[u8]) -> Option<External>
    ensures { result ≡ value_named name.now (of_parts parts.now) }
{
    for part in parts {
        if let Some(value) = part.find(name) {
            return Some(value);
        }
    }
    None
}

impl AllNames {
    /// No names; takes no memory.
    pub(crate) fn new(alloc: Global) -> AllNames
        ensures { result ≡ [] }
    {
        AllNames {
            parts: List::new(alloc),
        }
    }

    /// The value of that name. Takes no memory.
    pub(crate) fn find(&self, name: &[u8]) -> Option<External>
        ensures { result ≡ value_named name.now self.now }
    {
        find_among(self.parts.as_slice(), name)
    }

    /// Adds the exports of a part of that name.
    pub(crate) fn add(&mut self, part: Text, exports: Named<External>) -> Result<(), NoMemory>
        ensures ok { OnOk result (self.new ≡ self.old ++ map (behind part) exports) }
        ensures err { OnErr result (self.new ≡ self.old) }
    {
        self.parts.push(PartNames { part, exports })?;
        Ok(())
    }
}
