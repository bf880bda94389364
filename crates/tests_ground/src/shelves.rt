//! What is asked of a shelf, whether it is over files or in memory.
ghost use Rattle.std.specs.Prelude.{◌+◌, ◌<◌, ◌≤◌};
ghost use Rattle.bl_outside.specs.Shelf.{most_asked};

use bl_outside::{Shelf, ShelfError};

/// Whether the first bytes of that entry are fetched.
pub fn gives<F: Shelf>(shelf: &mut F, name: &str, most: u64, bytes: &[u8]) -> bool
    requires { most ≤ most_asked }
{
    match shelf.fetch(name, most) {
        Ok(front) => front.as_slice() == bytes,
        Err(_) => false,
    }
}

/// Whether fetching that entry fails.
pub fn fails<F: Shelf>(shelf: &mut F, name: &str, most: u64) -> bool
    requires { most ≤ most_asked }
{
    match shelf.fetch(name, most) {
        Ok(_) => false,
        Err(cause) => cause == ShelfError::Failed,
    }
}

/// Whether those bytes of that entry are read from a place on.
pub fn reads<F: Shelf>(shelf: &mut F, name: &str, from: u64, most: u64, bytes: &[u8]) -> bool
    requires { (0 < most) × (from + most ≤ most_asked) }
{
    match shelf.part(name, from, most) {
        Ok(piece) => piece.as_slice() == bytes,
        Err(_) => false,
    }
}

/// Whether reading that entry from a place on fails.
pub fn stops<F: Shelf>(shelf: &mut F, name: &str, from: u64, most: u64) -> bool
    requires { (0 < most) × (from + most ≤ most_asked) }
{
    match shelf.part(name, from, most) {
        Ok(_) => false,
        Err(cause) => cause == ShelfError::Failed,
    }
}
