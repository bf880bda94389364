//! The search for secret variables.
ghost use Rattle.std.specs.Prelude.{◌≡◌, ◌<◌, ◌↔◌, ℕ, All, AllPairs, Contains, IfOk, OnOk, Some, length, map};
ghost use Rattle.bl_program.specs.Sites.{Reads, Writes};
ghost use Rattle.bl_graph.specs.{Names.place_of, Arcs.row_at, Arcs.rows_in};
ghost use Rattle.bl_ct.specs.Facts.{IsKnown};
ghost use Rattle.bl_ct.specs.SecretSearch.{IsFoundBy, IsTable, Searched, Some_asks, Some_fits, Visits, entry_at, from_name};
ghost use Rattle.bl_ct.specs.declared.search.Cause.TheVariants as cause_;

use crate::facts::{Declared, Known, SecretLoad, command_count};
use bl_base::{NoMemory, Pos, SiteSet};
use bl_graph::{Arc, Names, Origin, Use, noted_at, rows_of, written_free};
use std::alloc::Global;

/// By what a variable was found to be secret.
#[derive(Clone, Copy, Debug, PartialEq, Eq)]
pub(crate) enum Cause {
    /// It is declared secret.
    Declared(Origin),
    /// A Load of a secret memory writes it.
    Loaded {
        /// The position of the Load.
        at: u32,
        /// The number of the memory.
        memory: u32,
    },
    /// A site writes it that reads a variable found before.
    Moved {
        /// The position of the site.
        at: u32,
        /// The place in the queue of the variable that it reads.
        before: usize,
    },
}

/// A secret variable.
#[derive(Clone, Copy, Debug, PartialEq, Eq)]
pub(crate) struct Step {
    /// The variable.
    pub(crate) var: u32,
    /// By what it was found.
    pub(crate) cause: Cause,
}

/// The secret variables of a program, each once, those with shorter ways first. Linear in the program.
pub(crate) fn secret_variables(alloc: Global, known: &Known) -> Result<Vec<Step>, NoMemory>
    requires { IsKnown known.now }
    ensures { IfOk result (λ queue. Searched known.now.program.now queue.items) }
{
    let count = command_count(known.program);
    let nowhere = SiteSet::new(alloc);
    let writes = known.graph.writes.as_slice();
    let written = written_free(alloc, count as usize, writes, &nowhere)?;
    let arcs = name_arcs(alloc, known.names, known.graph.reads.as_slice())?;
    let readers = rows_of(alloc, &arcs, known.names.len())?;
    search(alloc, known, &readers, &written)
}

/// The search by tables: for each name the sites that read it, and for each position the variable that the site there writes.
fn search(
    alloc: Global,
    known: &Known,
    readers: &[Vec<u32>],
    written: &[Option<u32>],
) -> Result<Vec<Step>, NoMemory>
    requires is { IsKnown known.now }
    requires places { length readers.now ≡ length known.now.names.now }
    requires reads { (x s : ℕ) → Contains (row_at (rows_in readers.now) (place_of known.now.names.now x)) s ↔ Reads known.now.program.now s x }
    requires writes { (s x : ℕ) → (entry_at written.now s ≡ Some x) ↔ Writes known.now.program.now s x }
    ensures { IfOk result (λ queue. Searched known.now.program.now queue.items) }
{
    let names = known.names;
    let mut marks = vec![in alloc; false; readers.len()]?;
    let mut queue = Vec::new(alloc);
    let declared = known.facts.declared.as_slice();
    find_declared(declared, names, &mut marks, &mut queue)?;
    let loads = known.facts.loads.as_slice();
    find_loaded(loads, written, names, &mut marks, &mut queue)?;
    let mut next = 0;
    while next < queue.len() {
        let place = names.number_of(queue[next].var) as usize;
        let sites = &readers[place];
        find_moved(sites, written, next, names, &mut marks, &mut queue)?;
        next += 1;
    }
    Ok(queue)
}

/// Finds the variables that are declared secret.
fn find_declared(
    secrets: &[Declared],
    names: &Names,
    marks: &mut Vec<bool>,
    queue: &mut Vec<Step>,
) -> Result<(), NoMemory>
    requires table { IsTable names.now marks.old.items }
    requires named { All (λ d. Contains names.now d.var) secrets.now }
    ensures { OnOk result (Visits names.now
        (Some_fits secrets.now (λ d step. step ≡ record { var = d.var; cause = cause_.Declared d.origin }))
        (Some_asks secrets.now (λ d v. v ≡ d.var))
        marks.old.items marks.new.items queue.old.items queue.new.items) }
{
    for secret in secrets {
        find(
            Step {
                var: secret.var,
                cause: Cause::Declared(secret.origin),
            },
            names,
            marks,
            queue,
        )?;
    }
    Ok(())
}

/// Finds what Loads of secret memories write.
fn find_loaded(
    loads: &[SecretLoad],
    written: &[Option<u32>],
    names: &Names,
    marks: &mut Vec<bool>,
    queue: &mut Vec<Step>,
) -> Result<(), NoMemory>
    requires table { IsTable names.now marks.old.items }
    requires named { (s x : ℕ) → entry_at written.now s ≡ Some x → Contains names.now x }
    ensures { OnOk result (Visits names.now
        (Some_fits loads.now (λ l. IsFoundBy (entry_at written.now l.at) (cause_.Loaded l.at l.memory)))
        (Some_asks loads.now (λ l v. entry_at written.now l.at ≡ Some v))
        marks.old.items marks.new.items queue.old.items queue.new.items) }
{
    for load in loads {
        let cause = Cause::Loaded {
            at: load.at,
            memory: load.memory,
        };
        find_written(noted_at(written, Pos(load.at)), cause, names, marks, queue)?;
    }
    Ok(())
}

/// Finds what the sites write that read a variable found before.
fn find_moved(
    sites: &[u32],
    written: &[Option<u32>],
    before: usize,
    names: &Names,
    marks: &mut Vec<bool>,
    queue: &mut Vec<Step>,
) -> Result<(), NoMemory>
    requires table { IsTable names.now marks.old.items }
    requires named { (s x : ℕ) → entry_at written.now s ≡ Some x → Contains names.now x }
    ensures { OnOk result (Visits names.now
        (Some_fits sites.now (λ s. IsFoundBy (entry_at written.now s) (cause_.Moved s before)))
        (Some_asks sites.now (λ s v. entry_at written.now s ≡ Some v))
        marks.old.items marks.new.items queue.old.items queue.new.items) }
{
    for site in sites {
        let cause = Cause::Moved { at: *site, before };
        find_written(noted_at(written, Pos(*site)), cause, names, marks, queue)?;
    }
    Ok(())
}

/// Finds what a site writes, where it writes a variable, by that cause.
fn find_written(
    var: Option<u32>,
    cause: Cause,
    names: &Names,
    marks: &mut Vec<bool>,
    queue: &mut Vec<Step>,
) -> Result<(), NoMemory>
    requires table { IsTable names.now marks.old.items }
    requires named { (x : ℕ) → var ≡ Some x → Contains names.now x }
    ensures { OnOk result (Visits names.now (IsFoundBy var cause) (λ v. var ≡ Some v) marks.old.items marks.new.items queue.old.items queue.new.items) }
{
    if let Some(var) = var {
        find(Step { var, cause }, names, marks, queue)?;
    }
    Ok(())
}

/// Marks and queues a variable that isn't marked.
fn find(
    step: Step,
    names: &Names,
    marks: &mut Vec<bool>,
    queue: &mut Vec<Step>,
) -> Result<(), NoMemory>
    requires table { IsTable names.now marks.old.items }
    requires named { Contains names.now step.var }
    ensures { OnOk result (Visits names.now (λ s. s ≡ step) (λ v. v ≡ step.var) marks.old.items marks.new.items queue.old.items queue.new.items) }
{
    let place = names.number_of(step.var) as usize;
    if !marks[place] {
        marks[place] = true;
        queue.push(step)?;
    }
    Ok(())
}

/// From the number of each name to the sites that read it.
fn name_arcs(alloc: Global, names: &Names, reads: &[Use]) -> Result<Vec<Arc>, NoMemory>
    requires rise { AllPairs (λ x y. x < y) names.now }
    requires named { All (λ r. Contains names.now r.var.0) reads.now }
    ensures { IfOk result (λ arcs. arcs.items ≡ map (from_name names.now) reads.now) }
{
    let mut arcs = Vec::new(alloc);
    for read in reads {
        arcs.push(Arc {
            from: names.number_of(read.var.0),
            to: read.at.0,
        })?;
    }
    Ok(arcs)
}
