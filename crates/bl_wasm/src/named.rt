//! Values by names.
ghost use Rattle.std.specs.Prelude.{◌≡◌, [], ◌∷◌, ◌++◌, None, OnOk, OnErr, length};
ghost use Rattle.bl_wasm.specs.Exports.{pairs_of, value_named};

use bl_base::NoMemory;
use indexmap::IndexMap;
use indexmap::map::IntoIter;
use std::alloc::Global;
use std::marker::Model;

/// Values by their names, in order. Contracts see the list of the pairs of a name and a value.
#[derive(Drop)]
pub struct Named<T> {
    map: IndexMap<Vec<u8>, T>,
}

/// The exported functions of a tree: their numbers by their names.
pub type Exports = Named<u32>;

impl<T> Model for Named<T> {
    ghost use Rattle.bl_wasm.specs.Exports.{PairsOf, pairs_of};

    ghost Value = { PairsOf T };

    ghost view = { λ n. pairs_of n.map.entries };
}

#[tactic(auto, using(crate::proofs::NamedLemmas::named_rules))]
impl<T: Copy + Drop> Named<T> {
    /// No names; takes no memory.
    pub fn new(alloc: Global) -> Named<T>
        ensures { result ≡ [] }
    {
        Named {
            map: IndexMap::new(alloc),
        }
    }

    /// The number of names.
    pub fn len(&self) -> usize
        ensures { result ≡ length self.now }
    {
        self.map.len()
    }

    /// The value of that name; None exactly where no pair has the name. Takes no memory.
    pub fn find(&self, name: &str) -> Option<T>
        ensures { result ≡ value_named name.now self.now }
    {
        self.get(name.as_bytes())
    }

    /// The same by the bytes of a name, which may be any.
    pub fn get(&self, name: &[u8]) -> Option<T>
        ensures { result ≡ value_named name.now self.now }
    {
        self.map.get(name).copied()
    }

    /// The pairs by value, in order; takes no memory.
    pub fn into_pairs(self) -> IntoIter<Vec<u8>, T>
        ensures { pairs_of result ≡ self }
    {
        self.map.into_iter()
    }

    /// Adds a name, by its bytes, that isn't there. A refusal leaves the names as they were.
    pub fn add(&mut self, name: Vec<u8>, value: T) -> Result<(), NoMemory>
        requires { value_named name.items self.old ≡ None }
        ensures ok { OnOk result (self.new ≡ self.old ++ (name.items, value) ∷ []) }
        ensures err { OnErr result (self.new ≡ self.old) }
    {
        self.map.insert(name, value)?;
        Ok(())
    }
}
