//! Where a load finds its bytes behind ready stores.
ghost use Rattle.std.specs.Prelude.{◌≡◌, ◌<◌, ◌≤◌, ◌^◌};
ghost use Rattle.bl_seq.specs.Layouts.{IsLayout};
ghost use Rattle.bl_forward.specs.ForwardMachines.{found_behind, supplied, supplies};

use bl_ops::narrow;
use bl_rob::{Entry, Work, effective};
use bl_seq::Layout;

/// Where a load finds its bytes.
#[derive(Clone, Copy, Debug)]
pub enum Found {
    /// In memory: no store meets its range.
    Memory,
    /// In the last store that meets its range, where that one has the same range: the number that it stores.
    Stored(u64),
    /// Nowhere.
    Blocked,
}

/// Where a load finds its bytes behind a ready store of a number.
fn supplies(from: usize, width: usize, at: usize, count: usize, number: u64, found: Found) -> Found
    requires place { from < 2 ^ 62 }
    requires wide { width < 2 ^ 8 }
    requires other { at < 2 ^ 62 }
    requires other_wide { count < 2 ^ 8 }
    ensures { result ≡ supplies from width at count number found }
{
    if from < at + count && at < from + width {
        if at == from && count == width {
            Found::Stored(number)
        } else {
            Found::Blocked
        }
    } else {
        found
    }
}

/// Where a load finds its bytes behind an entry, by where it finds them before.
fn supplied(layout: &Layout, work: &Work, from: usize, width: usize, found: Found) -> Found
    requires layout { IsLayout layout.now }
    requires place { from < 2 ^ 62 }
    requires wide { width < 2 ^ 8 }
    ensures { result ≡ supplied layout.now.parts.now from width work.now found }
{
    match work {
        Work::Ready {
            kind,
            memory,
            offset,
            address,
            value,
        } => {
            let at = effective(layout, *memory, *offset, *address);
            supplies(
                from,
                width,
                at,
                kind.width() as usize,
                narrow(*kind, *value),
                found,
            )
        }
        _ => found,
    }
}

/// Where a load of so many bytes from a place on finds them behind these entries; None where a store among them isn't ready. One pass.
pub fn found_behind(layout: &Layout, entries: &[Entry], from: usize, width: usize) -> Option<Found>
    requires layout { IsLayout layout.now }
    requires place { from < 2 ^ 62 }
    requires wide { width < 2 ^ 8 }
    ensures { result ≡ found_behind layout.now.parts.now from width entries.now }
{
    let mut found = Found::Memory;
    for entry in entries {
        if matches!(entry.work, Work::Store { .. }) {
            return None;
        }
        found = supplied(layout, &entry.work, from, width, found);
    }
    Some(found)
}
