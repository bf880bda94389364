//! Arcs from numbers to numbers, and the rows that they make.
ghost use Rattle.std.specs.Prelude.{◌≡◌, ◌<◌, [], All, IfOk, length, replicate};
ghost use Rattle.bl_graph.specs.Arcs.{RowsOf, rows_in};

use bl_base::NoMemory;
use std::alloc::Global;

/// From one number to another.
#[derive(Clone, Copy, Debug, PartialEq, Eq)]
pub struct Arc {
    /// The one.
    pub from: u32,
    /// The other.
    pub to: u32,
}

/// For each number below a bound those to which an arc leads from it, in the arcs' order. Linear in the bound and the arcs.
pub fn rows_of(alloc: Global, arcs: &[Arc], count: u32) -> Result<Vec<Vec<u32>>, NoMemory>
    requires { All (λ arc. arc.from < count) arcs.now }
    ensures places { IfOk result (λ rows. length rows.items ≡ count) }
    ensures rows { IfOk result (λ rows. RowsOf arcs.now (rows_in rows.items)) }
{
    let mut rows = empty_rows(alloc, count)?;
    for arc in arcs {
        rows[arc.from as usize].push(arc.to)?;
    }
    Ok(rows)
}

/// So many empty rows.
fn empty_rows(alloc: Global, count: u32) -> Result<Vec<Vec<u32>>, NoMemory>
    ensures { IfOk result (λ rows. rows_in rows.items ≡ replicate count []) }
{
    let mut rows = Vec::new(alloc);
    for _ in 0..count {
        rows.push(Vec::new(alloc))?;
    }
    Ok(rows)
}
