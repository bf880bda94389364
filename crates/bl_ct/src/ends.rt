//! Where variables may not be secret.
ghost use Rattle.std.specs.Prelude.{◌≡◌, ◌<◌, ◌^◌, ◌↔◌, ℕ, All, AllPairs, Contains, IsTrue, IfOk, length};
ghost use Rattle.bl_graph.specs.{Secrets.Demands, Arcs.is_in};
ghost use Rattle.bl_ct.specs.Facts.{IsKnown};
ghost use Rattle.bl_ct.specs.SecretSearch.{AreEnds, MarksWriters, IsNoted, IsTable, KeptAt, mark_of};

use crate::facts::{Known, command_count};
use bl_base::NoMemory;
use bl_graph::{Names, Use, no_entries};
use std::alloc::Global;

/// For each name a position where it may not be secret, if there is one. Linear in the program.
pub(crate) fn ends_of(
    alloc: Global,
    known: &Known,
    demanded: &[bool],
) -> Result<Vec<Option<u32>>, NoMemory>
    requires is { IsKnown known.now }
    requires places { length demanded.now ≡ length known.now.names.now }
    requires exact { (x : ℕ) → IsTrue (mark_of known.now.names.now demanded.now x) ↔ Demands known.now.program.now x }
    ensures { IfOk result (λ ends. AreEnds known.now.program.now known.now.names.now ends.items) }
{
    let count = command_count(known.program);
    let names = known.names;
    let writes = known.graph.writes.as_slice();
    let giving = giving_sites(alloc, count, writes, names, demanded)?;
    let last_reads = uses_at(alloc, known.graph.reads.as_slice(), &giving)?;
    let mut ends = no_entries(alloc, names.len() as usize)?;
    note(&mut ends, names, known.graph.sinks.as_slice());
    note(&mut ends, names, known.facts.stores.as_slice());
    note(&mut ends, names, &last_reads);
    Ok(ends)
}

/// For each position whether its site writes a variable that is demanded to be public.
fn giving_sites(
    alloc: Global,
    count: u32,
    writes: &[Use],
    names: &Names,
    demanded: &[bool],
) -> Result<Vec<bool>, NoMemory>
    requires table { IsTable names.now demanded.now }
    requires sites { All (λ w. w.at.0 < count) writes.now }
    requires named { All (λ w. Contains names.now w.var.0) writes.now }
    ensures places { IfOk result (λ giving. length giving.items ≡ count) }
    ensures exact { IfOk result (λ giving. MarksWriters writes.now names.now demanded.now giving.items) }
{
    let mut giving = vec![in alloc; false; count as usize]?;
    for write in writes {
        let place = names.number_of(write.var.0) as usize;
        if demanded[place] {
            giving[write.at.0 as usize] = true;
        }
    }
    Ok(giving)
}

/// The uses at marked positions.
fn uses_at(alloc: Global, uses: &[Use], marks: &[bool]) -> Result<Vec<Use>, NoMemory>
    requires { All (λ u. u.at.0 < length marks.now) uses.now }
    ensures { IfOk result (λ kept. KeptAt uses.now marks.now kept.items) }
{
    let mut kept = Vec::new(alloc);
    for item in uses {
        if marks[item.at.0 as usize] {
            kept.push(*item)?;
        }
    }
    Ok(kept)
}

/// Notes the uses at the names of their variables.
fn note(ends: &mut Vec<Option<u32>>, names: &Names, uses: &[Use])
    requires table { IsTable names.now ends.old.items }
    requires named { All (λ u. Contains names.now u.var.0) uses.now }
    ensures { IsNoted names.now uses.now ends.old.items ends.new.items }
{
    for item in uses {
        let place = names.number_of(item.var.0) as usize;
        ends[place] = Some(item.at.0);
    }
}

/// For each name whether it is in a list.
pub(crate) fn marked(alloc: Global, names: &Names, list: &[u32]) -> Result<Vec<bool>, NoMemory>
    requires rise { AllPairs (λ x y. x < y) names.now }
    requires few { length names.now < 2 ^ 32 }
    requires named { All (λ v. Contains names.now v) list.now }
    ensures places { IfOk result (λ marks. length marks.items ≡ length names.now) }
    ensures exact { IfOk result (λ marks. (v : ℕ) → IsTrue (mark_of names.now marks.items v) ↔ Contains list.now v) }
{
    let mut marks = vec![in alloc; false; names.len() as usize]?;
    for v in list {
        let place = names.number_of(*v) as usize;
        marks[place] = true;
    }
    Ok(marks)
}
