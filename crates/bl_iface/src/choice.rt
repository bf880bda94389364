//! The least choice of protects on one side of an interface.
ghost use Rattle.std.specs.Prelude.{◌≡◌, ℕ, IfErr, IfOk, IsTrue, MatchOption, nat_eq};
ghost use Rattle.std.specs.BTreeSet as sorted;
ghost use Rattle.std.specs.FinSet as fin;
ghost use Rattle.std.specs.{List.AllPairs, List.list_any, Ordering.nat_cmp};
ghost use Rattle.bl_program.specs.Sites.{weight_of};
ghost use Rattle.bl_cut.specs.Least.{LeastUnder};
ghost use Rattle.bl_graph.specs.Graphs.{IsGraph, Precedes};
ghost use Rattle.bl_iface.specs.{RoleLists.IsFirstUse, RoleLists.NoUse, InterfaceFunctions.Matches};
ghost use Rattle.bl_iface.specs.RoleTests.{IsFirstGiven, IsGiven, IsUnderError, asked};
ghost use Rattle.bl_iface.specs.declared.choice.UnderError.TheVariants as under;
ghost use Rattle.bl_transient.specs.Verdicts.{asked_of};

use crate::iface::Iface;
use crate::lists::asked_of;
use bl_base::{NoMemory, Pos, Role, SiteSet};
use bl_cut::least_under_of;
use bl_graph::{Graph, SinkUse, graph};
use bl_program::WellFormed;
use bl_transient::AskedOf;
use std::alloc::Global;
use std::collections::BTreeSet;
use thiserror::Error;

/// A set of sites to protect on one side of an interface, and its weight.
#[derive(Drop)]
pub struct UnderChoice {
    /// The sites.
    pub protects: SiteSet,
    /// Their weights together.
    pub weight: u64,
}

/// Why nothing is chosen.
#[derive(Clone, Copy, Debug, PartialEq, Eq, Error)]
pub enum UnderError {
    /// A sink reads directly what the interface makes transient, so that no set passes: the least position of such a sink.
    #[error("a sink reads what is given")]
    Sink(Pos),
    /// Memory ran out.
    #[error("out of memory")]
    Memory,
}

impl From<NoMemory> for UnderError {
    ghost from_gives = { λ _ e. e ≡ under.Memory };

    fn from(_e: NoMemory) -> UnderError {
        UnderError::Memory
    }
}

/// The set of sites of least weight that passes on that side of an interface, whose transient variables are contained in those of every other
/// such set. For the library, parameters that the interface calls transient are so, and results that it calls stable have to be; for the
/// client it is the results and the parameters. Marks that stand in the program are ignored. Sink exactly where a sink reads directly what is
/// so made transient: no set of sites passes then. Costs the time of a maximum flow in a network that is linear in the program's commands
/// and the interface, and memory linear in these.
pub fn least_under(
    alloc: Global,
    program: &WellFormed,
    role: Role,
    iface: &Iface,
) -> Result<UnderChoice, UnderError>
    requires { Matches program.now iface.now }
    ensures least { IfOk result (λ choice. LeastUnder (asked role iface.now program.now) program.now (fin.contains choice.protects)) }
    ensures weight { IfOk result (λ choice. choice.weight ≡ weight_of program.now (fin.contains choice.protects)) }
    ensures refused { IfErr result (IsUnderError (asked role iface.now program.now) program.now) }
{
    let graph = graph(alloc, program)?;
    let asked = asked_of(alloc, role, program, iface)?;
    let first = first_given(alloc, program, &graph, &asked)?;
    if let Some(position) = first {
        return Err(UnderError::Sink(position));
    }
    let choice = least_under_of(alloc, program, &graph, &asked)?;
    Ok(UnderChoice {
        protects: choice.protects,
        weight: choice.weight,
    })
}

/// The least position of a sink that reads directly what is asked to be transient, if there is one. Linear in the sinks, but for the logarithm of
/// how much is asked.
fn first_given(
    alloc: Global,
    program: &WellFormed,
    graph: &Graph,
    asked: &AskedOf,
) -> Result<Option<Pos>, NoMemory>
    requires { IsGraph program.now graph.now }
    ensures { IfOk result (λ found. MatchOption found ((position : ℕ) → IsGiven (asked_of asked.now) program.now position → ⊥)
        (λ position. IsFirstGiven (asked_of asked.now) program.now position.0)) }
{
    let given = set_of(alloc, asked.transient.as_slice())?;
    Ok(first_of(&given, graph.sinks.as_slice()))
}

/// The set of some variables.
fn set_of(alloc: Global, vars: &[u32]) -> Result<BTreeSet<u32>, NoMemory>
    ensures { IfOk result (λ set. (x : ℕ) → sorted.contains nat_cmp set x ≡ list_any (nat_eq x) vars.now) }
{
    let mut set = BTreeSet::new(alloc);
    for x in vars {
        set.insert(*x)?;
    }
    Ok(set)
}

/// The position of the first use of a variable of the set, if there is one.
fn first_of(vars: &BTreeSet<u32>, uses: &[SinkUse]) -> Option<Pos>
    requires { AllPairs Precedes uses.now }
    ensures { MatchOption result (NoUse (sorted.contains nat_cmp vars.now) uses.now) (λ position. IsFirstUse (sorted.contains nat_cmp vars.now) uses.now position.0) }
{
    for one in uses {
        if vars.contains(&one.var.0) {
            return Some(one.at);
        }
    }
    None
}
