//! Whether a program is safe under speculation.
ghost use Rattle.std.specs.Prelude.{IfOk};
ghost use Rattle.bl_program.specs.Sites.{is_protected};
ghost use Rattle.bl_graph.specs.{Graphs.IsGraph, Labels.ConstantTime};
ghost use Rattle.bl_sct.specs.Verdicts.{Assesses};
ghost use Rattle.bl_transient.specs.Verdicts.{IsFirstLeak};

use bl_base::{NoMemory, Pos};
use bl_ct::secret_chain_of;
use bl_graph::{Graph, SecretChain, graph};
use bl_program::WellFormed;
use bl_transient::{first_leak_of, own_protects};
use std::alloc::Global;

/// What two runs of a program from starts that agree in public show of what is secret.
#[derive(Debug, Drop)]
pub enum Verdict {
    /// Nothing: some labelling keeps the label rules, and the program's own marks pass the transient rules.
    Safe,
    /// No labelling keeps the label rules: a way of a secret to where it may not go.
    NotConstantTime(SecretChain),
    /// Some labelling does, but the program's own marks don't pass: the least position of a sink that reads a transient
    /// variable.
    NotStable(Pos),
}

/// The verdict on a program with its own marks. Where it is `Safe`, two runs from starts that agree in public are observed
/// alike, whatever the directives and the size of the buffer. Linear in the program, up to a sort where it declares many more
/// variables than it has commands; takes no memory for a variable that is declared alone. Want of memory is the only error.
pub fn assess(alloc: Global, program: &WellFormed) -> Result<Verdict, NoMemory>
    ensures { IfOk result (λ verdict. Assesses program.now verdict) }
{
    let graph = graph(alloc, program)?;
    match secret_chain_of(alloc, program, &graph)? {
        None => assess_labelled(alloc, program, &graph),
        Some(chain) => Ok(Verdict::NotConstantTime(chain)),
    }
}

/// The verdict on a program for which some labelling keeps the label rules.
fn assess_labelled(alloc: Global, program: &WellFormed, graph: &Graph) -> Result<Verdict, NoMemory>
    requires labelled { ConstantTime program.now }
    requires graph { IsGraph program.now graph.now }
    ensures { IfOk result (λ verdict. Assesses program.now verdict) }
{
    // What is known of the program is read with it.
    let _parts = program.program().parts();
    let leak = own_leak_of(alloc, program, graph)?;
    match leak {
        None => Ok(Verdict::Safe),
        Some(position) => Ok(Verdict::NotStable(position)),
    }
}

/// The least position of a sink that reads a variable which is transient by a program's own marks, if there is one. It takes the
/// program's graph, which callers need as well. Linear in the program; where its commands name few of its variables it costs a
/// sort of the graph's lists instead of what is linear in the variables. Want of memory is the only error.
pub fn own_leak_of(
    alloc: Global,
    program: &WellFormed,
    graph: &Graph,
) -> Result<Option<Pos>, NoMemory>
    requires { IsGraph program.now graph.now }
    ensures { IfOk result (λ leak. IsFirstLeak program.now (is_protected program.now) leak) }
{
    let parts = program.program().parts();
    let protects = own_protects(alloc, parts, parts.commands.len() as u32)?;
    first_leak_of(alloc, program, graph, &protects)
}
