//! What a role asks of a program's variables, as lists.
ghost use Rattle.std.specs.Prelude.{◌≡◌, ◌+◌, ◌++◌, ◌<◌, ◌^◌, ℕ, IfOk, OnOk, Some, length};
ghost use Rattle.std.specs.List.{All, Contains};
ghost use Rattle.bl_program.specs.{Layout.first_of, Rules.Rule2, Layout.AreValues};
ghost use Rattle.bl_graph.specs.Ranges.{variables};
ghost use Rattle.bl_iface.specs.RoleLists.{Adds, AreAsked, asked_from, called_from, kept_if};
ghost use Rattle.bl_iface.specs.{InterfaceFunctions.AreTargets, InterfaceFunctions.Matches, RoleTests.is_flow};

use crate::iface::{FnIface, Iface};
use crate::matching::matched;
use bl_base::{Flow, List, NoMemory, Role};
use bl_program::{ProgramParts, WellFormed, firsts_of};
use bl_transient::AskedOf;
use std::alloc::Global;

/// What a role asks of a program that has the functions of an interface: the library has the parameters that are called transient as
/// given, and owes the results that are called stable; the client is given results and owes parameters. A variable may stand more than
/// once, but not both as given and as owed. Costs the interface, the functions and the exports, but for a logarithm of how many exports there are.
pub(crate) fn asked_of(
    alloc: Global,
    role: Role,
    program: &WellFormed,
    iface: &Iface,
) -> Result<AskedOf, NoMemory>
    requires { Matches program.now iface.now }
    ensures asked { IfOk result (AreAsked role iface.now program.now) }
    ensures transient { IfOk result (λ asked. All (λ x. x < variables program.now) asked.transient) }
    ensures stable { IfOk result (λ asked. All (λ x. x < variables program.now) asked.stable) }
    ensures apart { IfOk result (λ asked. (x : ℕ) → Contains asked.transient x → Contains asked.stable x → ⊥) }
{
    let parts = program.program().parts();
    let targets = matched(alloc, program, iface)?;
    let firsts = firsts_of(alloc, parts)?;
    asked_at(
        alloc,
        role,
        parts,
        iface,
        firsts.as_slice(),
        targets.as_slice(),
    )
}

/// The same by the first variable of each of the program's functions, and by the interface's functions, by their numbers.
fn asked_at(
    alloc: Global,
    role: Role,
    parts: &ProgramParts,
    iface: &Iface,
    firsts: &[u32],
    targets: &[u32],
) -> Result<AskedOf, NoMemory>
    requires rule { Rule2 parts.now }
    requires matches { Matches parts.now iface.now }
    requires firsts { AreValues (first_of parts.now) (length parts.now.functions) firsts.now }
    requires targets { AreTargets parts.now iface.now targets.now }
    ensures { IfOk result (AreAsked role iface.now parts.now) }
{
    let mut asked = AskedOf::nothing(alloc);
    for (index, one) in iface.functions.as_slice().iter().enumerate() {
        let first = firsts[targets[index] as usize];
        push_asked(&mut asked, role, one, first)?;
    }
    Ok(asked)
}

/// Appends what a role asks of a function of the interface with that first variable.
fn push_asked(to: &mut AskedOf, role: Role, one: &FnIface, first: u32) -> Result<(), NoMemory>
    requires { first + length one.now.params + length one.now.results < 2 ^ 32 }
    ensures { OnOk result (Adds to.old (asked_from role one.now first) to.new) }
{
    let params = one.params.as_slice();
    let results = one.results.as_slice();
    let behind = first + params.len() as u32;
    match role {
        Role::Client => {
            push_called(&mut to.transient, Flow::Transient, results, behind)?;
            push_called(&mut to.stable, Flow::Stable, params, first)
        }
        Role::Library => {
            push_called(&mut to.transient, Flow::Transient, params, first)?;
            push_called(&mut to.stable, Flow::Stable, results, behind)
        }
    }
}

/// Appends the variables that are called so, of those that begin at the first.
fn push_called(to: &mut List<u32>, flow: Flow, flows: &[Flow], first: u32) -> Result<(), NoMemory>
    requires { first + length flows.now < 2 ^ 32 }
    ensures { OnOk result (to.new ≡ to.old ++ called_from flow flows.now first) }
{
    let mut x = first;
    for one in flows {
        push_if(to, is_flow(flow, *one), x)?;
        x += 1;
    }
    Ok(())
}

/// Appends a variable, if it is called so.
fn push_if(to: &mut List<u32>, called: bool, x: u32) -> Result<(), NoMemory>
    ensures { OnOk result (to.new ≡ to.old ++ kept_if called x) }
{
    if called {
        to.push(x)?;
    }
    Ok(())
}

/// Whether a variable's flow is the one that is asked for.
fn is_flow(flow: Flow, one: Flow) -> bool
    ensures { result ≡ is_flow flow (Some one) }
{
    match flow {
        Flow::Stable => matches!(one, Flow::Stable),
        Flow::Transient => matches!(one, Flow::Transient),
    }
}
