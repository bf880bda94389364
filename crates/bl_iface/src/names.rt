//! Functions by their names.
ghost use Rattle.std.specs.Prelude.{IfOk};
ghost use Rattle.bl_iface.specs.Names.{AreNames, IsDirectory};

use crate::iface::FnIface;
use bl_base::NoMemory;
use bl_program::ExportDef;
use std::alloc::Global;
use std::collections::{BTreeMap, BTreeSet};

/// The function of each exported name.
pub(crate) fn numbers_of<'p>(
    alloc: Global,
    exports: &'p [ExportDef],
) -> Result<BTreeMap<&'p [u8], u32>, NoMemory>
    ensures { IfOk result (IsDirectory exports.now) }
{
    let mut numbers = BTreeMap::new(alloc);
    let mut left = exports.len();
    while left > 0 {
        left -= 1;
        let export = &exports[left];
        numbers.insert(export.name.as_slice(), export.function)?;
    }
    Ok(numbers)
}

/// The names of an interface.
pub(crate) fn names_of<'p>(
    alloc: Global,
    functions: &'p [FnIface],
) -> Result<BTreeSet<&'p [u8]>, NoMemory>
    ensures { IfOk result (AreNames functions.now) }
{
    let mut names = BTreeSet::new(alloc);
    for one in functions {
        names.insert(one.name.as_slice())?;
    }
    Ok(names)
}
