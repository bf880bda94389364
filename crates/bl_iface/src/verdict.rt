//! Whether a program's own marks pass on one side of an interface.
ghost use Rattle.std.specs.Prelude.{IfOk};
ghost use Rattle.bl_program.specs.Sites.{is_protected};
ghost use Rattle.bl_iface.specs.{InterfaceFunctions.Matches, RoleTests.JudgesAs};

use crate::iface::Iface;
use crate::lists::asked_of;
use bl_base::{NoMemory, Pos, Role};
use bl_graph::graph;
use bl_program::WellFormed;
use bl_transient::{first_bad_of, own_protects};
use std::alloc::Global;

/// Whether a program's own marks pass on one side of an interface.
#[derive(Clone, Copy, Debug, PartialEq, Eq)]
pub enum UnderVerdict {
    /// They do.
    Yes,
    /// They don't, and this position tells why.
    No(Pos),
}

/// Whether a program's own marks pass on that side of an interface. Where they don't, the position is the least one of a sink that reads a
/// transient variable, or of a site that isn't protected, is a Load or reads a transient variable, and writes what has to be stable.
/// Transient are here what the interface makes so and what follows by the marks. Linear in the program and the interface, but for a logarithm
/// of how many exports there are and for a sort where the commands name few of the program's variables. Want of memory is the only error.
pub fn passes_under(
    alloc: Global,
    program: &WellFormed,
    role: Role,
    iface: &Iface,
) -> Result<UnderVerdict, NoMemory>
    requires { Matches program.now iface.now }
    ensures { IfOk result (JudgesAs role iface.now program.now (is_protected program.now)) }
{
    let graph = graph(alloc, program)?;
    let asked = asked_of(alloc, role, program, iface)?;
    let parts = program.program().parts();
    let protects = own_protects(alloc, parts, parts.commands.len() as u32)?;
    let bad = first_bad_of(alloc, program, &graph, &asked, &protects)?;
    match bad {
        None => Ok(UnderVerdict::Yes),
        Some(position) => Ok(UnderVerdict::No(position)),
    }
}
