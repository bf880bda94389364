//! Lists of a program's parts behind those of another one.
ghost use Rattle.std.specs.Prelude.{◌≡◌, ◌++◌, IfOk, OnOk, filter, map, not};
ghost use Rattle.std.specs.List.{All};
ghost use Rattle.bl_iface.specs.JoinedProgram.{is_named, is_result, moved_demand};
ghost use Rattle.bl_iface.specs.MovableNumbers.{IsDemandSmall};

use crate::iface::FnIface;
use crate::names::names_of;
use crate::shift::Shift;
use bl_base::{List, NoMemory, Text};
use bl_program::{Demand, ExportDef, FunctionDef, GlobalDef, MemoryDef};
use std::alloc::Global;

/// What is copied one by one.
pub(crate) trait Copies: Drop {
    /// A copy.
    fn copy_of(alloc: Global, one: &Self) -> Result<Self, NoMemory>
        ensures { IfOk result (λ copy. copy ≡ one.now) };
}

impl Copies for GlobalDef {
    fn copy_of(_alloc: Global, one: &GlobalDef) -> Result<GlobalDef, NoMemory> {
        Ok(*one)
    }
}

impl Copies for MemoryDef {
    fn copy_of(alloc: Global, one: &MemoryDef) -> Result<MemoryDef, NoMemory> {
        Ok(MemoryDef {
            pages: one.pages,
            reserve: one.reserve,
            label: one.label,
            rows: copied(alloc, one.rows.as_slice())?,
        })
    }
}

impl Copies for FunctionDef {
    fn copy_of(alloc: Global, one: &FunctionDef) -> Result<FunctionDef, NoMemory> {
        let params = copied(alloc, one.params.as_slice())?;
        let results = copied(alloc, one.results.as_slice())?;
        Ok(FunctionDef {
            params,
            results,
            vars: one.vars,
            length: one.length,
        })
    }
}

impl Copies for ExportDef {
    fn copy_of(alloc: Global, one: &ExportDef) -> Result<ExportDef, NoMemory> {
        Ok(ExportDef {
            name: Text::copy_of(alloc, one.name.as_slice())?,
            function: one.function,
        })
    }
}

/// A list of the elements.
pub(crate) fn copied<T: Copy>(alloc: Global, items: &[T]) -> Result<List<T>, NoMemory>
    ensures { IfOk result (λ list. list ≡ items.now) }
{
    Ok(List::of(Vec::from_slice(alloc, items)?))
}

/// Appends copies of the elements.
fn push_copies<T: Copies>(alloc: Global, to: &mut List<T>, items: &[T]) -> Result<(), NoMemory>
    ensures { OnOk result (to.new ≡ to.old ++ items.now) }
{
    for one in items {
        to.push(T::copy_of(alloc, one)?)?;
    }
    Ok(())
}

/// Copies of the elements of two lists, one behind the other.
pub(crate) fn both<T: Copies>(alloc: Global, ours: &[T], theirs: &[T]) -> Result<List<T>, NoMemory>
    ensures { IfOk result (λ list. list ≡ ours.now ++ theirs.now) }
{
    let mut list = List::new(alloc);
    push_copies(alloc, &mut list, ours)?;
    push_copies(alloc, &mut list, theirs)?;
    Ok(list)
}

/// Copies of the exports that the interface doesn't name.
pub(crate) fn kept_exports(
    alloc: Global,
    exports: &[ExportDef],
    functions: &[FnIface],
) -> Result<List<ExportDef>, NoMemory>
    ensures { IfOk result (λ list. list ≡ filter (λ export. not (is_named functions.now export.name)) exports.now) }
{
    let names = names_of(alloc, functions)?;
    let mut kept = List::new(alloc);
    for export in exports {
        if !names.contains(&export.name.as_slice()) {
            kept.push(ExportDef::copy_of(alloc, export)?)?;
        }
    }
    Ok(kept)
}

/// Appends the demands of results where their part stands.
pub(crate) fn push_results(
    to: &mut List<Demand>,
    shift: Shift,
    demands: &[Demand],
) -> Result<(), NoMemory>
    requires { All (IsDemandSmall shift) demands.now }
    ensures { OnOk result (to.new ≡ to.old ++ filter is_result (map (moved_demand shift) demands.now)) }
{
    for demand in demands {
        if let Demand::Result { function, index } = *demand {
            to.push(Demand::Result {
                function: shift.functions + function,
                index,
            })?;
        }
    }
    Ok(())
}

/// Appends the demands of globals where their part stands.
pub(crate) fn push_globals(
    to: &mut List<Demand>,
    shift: Shift,
    demands: &[Demand],
) -> Result<(), NoMemory>
    requires { All (IsDemandSmall shift) demands.now }
    ensures { OnOk result (to.new ≡ to.old ++ filter (λ one. not (is_result one)) (map (moved_demand shift) demands.now)) }
{
    for demand in demands {
        if let Demand::Global(x) = *demand {
            to.push(Demand::Global(shift.globals + x))?;
        }
    }
    Ok(())
}
