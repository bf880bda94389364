//! Lists of what is named, in which each element is found without going through the list.
ghost use Rattle.std.specs.Prelude.{◌≡◌, ◌++◌, ◌∷◌, [], ◌<◌, ◌≤◌, ◌^◌, false, IfOk};
ghost use Rattle.std.specs.FinSet as fin;
ghost use Rattle.bl_labels.specs.{LabelSets.key as key_of, LabelledPlaces.is_listed, LabelledPlaces.is_place};

use crate::labels::Place;
use crate::numbers::NumberSet;
use bl_base::{List, NoMemory};
use std::alloc::Global;
use std::marker::Model;

/// Places in order, with the set of their numbers. Contracts see the list.
#[derive(Drop)]
pub(crate) struct Places {
    list: List<Place>,
    set: NumberSet,
}

impl Model for Places {
    ghost use Rattle.std.specs.Prelude.{List as Listed};
    ghost use Rattle.bl_labels.specs.declared.labels.Place.{Place};
    ghost use Rattle.bl_labels.specs.LabelSets.{HoldsPlaces};

    ghost Value = { Listed Place };

    ghost view = { λ p. p.list };

    ghost invariant = { λ p. HoldsPlaces p.set p.list };
}

impl Places {
    /// No places; takes no memory.
    pub(crate) fn none(alloc: Global) -> Places
        ensures { result ≡ [] }
    {
        let list = List::new(alloc);
        let set = NumberSet::new(alloc);
        Places { list, set }
    }

    /// With one more.
    pub(crate) fn with(self, place: Place) -> Result<Places, NoMemory>
        ensures { IfOk result (λ places. places ≡ self ++ place ∷ []) }
    {
        let Places { mut list, mut set } = self;
        set.insert(key_at(&place))?;
        list.push(place)?;
        Ok(Places { list, set })
    }

    /// The places of a list.
    pub(crate) fn of(alloc: Global, list: &[Place]) -> Result<Places, NoMemory>
        ensures { IfOk result (λ places. places ≡ list.now) }
    {
        let mut places = Places::none(alloc);
        for place in list {
            places = places.with(*place)?;
        }
        Ok(places)
    }

    /// Whether a parameter or a result of a function is among them; takes no memory.
    pub(crate) fn has(&self, function: u32, index: usize) -> bool
        ensures { result ≡ is_place self.now function index }
    {
        has_place(&self.set, function, index)
    }

    /// The list, given back; takes no memory.
    pub(crate) fn into_list(self) -> List<Place>
        ensures { result ≡ self }
    {
        self.list
    }
}

/// Indices in order, with their set. Contracts see the list.
#[derive(Drop)]
pub(crate) struct Indices {
    list: List<u32>,
    set: NumberSet,
}

impl Model for Indices {
    ghost use Rattle.std.specs.Prelude.{ℕ, List as Listed};
    ghost use Rattle.bl_labels.specs.LabelSets.{HoldsNumbers};

    ghost Value = { Listed ℕ };

    ghost view = { λ i. i.list };

    ghost invariant = { λ i. HoldsNumbers i.set i.list };
}

impl Indices {
    /// No indices; takes no memory.
    pub(crate) fn none(alloc: Global) -> Indices
        ensures { result ≡ [] }
    {
        let list = List::new(alloc);
        let set = NumberSet::new(alloc);
        Indices { list, set }
    }

    /// With one more.
    pub(crate) fn with(self, index: u32) -> Result<Indices, NoMemory>
        ensures { IfOk result (λ indices. indices ≡ self ++ index ∷ []) }
    {
        let Indices { mut list, mut set } = self;
        set.insert(index as u64)?;
        list.push(index)?;
        Ok(Indices { list, set })
    }

    /// The indices of a list.
    pub(crate) fn of(alloc: Global, list: &[u32]) -> Result<Indices, NoMemory>
        ensures { IfOk result (λ indices. indices ≡ list.now) }
    {
        let mut indices = Indices::none(alloc);
        for index in list {
            indices = indices.with(*index)?;
        }
        Ok(indices)
    }

    /// Whether an index is among them; takes no memory.
    pub(crate) fn has(&self, index: u32) -> bool
        ensures { result ≡ is_listed self.now index }
    {
        self.set.contains(index as u64)
    }

    /// The list, given back; takes no memory.
    pub(crate) fn into_list(self) -> List<u32>
        ensures { result ≡ self }
    {
        self.list
    }
}

/// The number of a place.
fn key(function: u32, index: u32) -> u64
    ensures { result ≡ key_of function index }
{
    function as u64 * 0x1_0000_0000 + index as u64
}

/// Whether a place is in the set of their numbers; an index that no list can have is in none.
fn has_place(set: &NumberSet, function: u32, index: usize) -> bool
    ensures near { index < 2 ^ 32 → result ≡ fin.contains set.now (key_of function index) }
    ensures far { 2 ^ 32 ≤ index → result ≡ false }
{
    match u32::try_from(index) {
        Ok(index) => set.contains(key(function, index)),
        Err(_) => false,
    }
}

/// The number of a place, whose index is one of 32 bits.
fn key_at(place: &Place) -> u64
    ensures value { result ≡ key_of place.now.function place.now.index }
    ensures width { place.now.index < 2 ^ 32 }
{
    key(place.function, place.index)
}
