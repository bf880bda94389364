//! The tables by which a client and a library are joined.
ghost use Rattle.std.specs.Prelude.{IfOk, length};
ghost use Rattle.bl_iface.specs.{InterfaceFunctions.AreTargets, PartNumbers.LeadsTo};

use crate::iface::Iface;
use bl_base::{List, NoMemory};
use bl_program::WellFormed;
use std::alloc::Global;

/// For each function of the client the library's that it goes to, by the functions of the interface in both: the first name that stands for it
/// counts.
pub(crate) fn goals_of(
    alloc: Global,
    client: &WellFormed,
    library: &WellFormed,
    iface: &Iface,
    ours: &[u32],
    theirs: &[u32],
) -> Result<List<Option<u32>>, NoMemory>
    requires ours { AreTargets client.now iface.now ours.now }
    requires theirs { AreTargets library.now iface.now theirs.now }
    ensures { IfOk result (LeadsTo iface.now client.now library.now) }
{
    let mut goals = vec![in alloc; None; client.program().parts().functions.len()]?;
    let mut left = ours.len();
    while left > 0 {
        left -= 1;
        goals[ours[left] as usize] = Some(theirs[left]);
    }
    Ok(List::of(goals))
}
