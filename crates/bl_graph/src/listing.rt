//! The graph of a program.
ghost use Rattle.std.specs.Prelude.{IfOk};
ghost use Rattle.bl_graph.specs.Graphs.{IsGraph};

use crate::facts::Graph;
use crate::reads::uses_of;
use crate::writes::writes_of;
use bl_base::NoMemory;
use bl_program::WellFormed;
use std::alloc::Global;

/// The graph of a program, exactly. Linear in the program. Want of memory is the only error.
pub fn graph(alloc: Global, program: &WellFormed) -> Result<Graph, NoMemory>
    ensures { IfOk result (λ graph. IsGraph program.now graph) }
{
    let commands = program.program().parts().commands.as_slice();
    let writes = writes_of(alloc, program)?;
    let uses = uses_of(alloc, commands)?;
    Ok(Graph {
        loads: uses.loads,
        writes,
        reads: uses.reads,
        sinks: uses.sinks,
    })
}
