//! The check of certificates.
ghost use Rattle.std.specs.Prelude.{◌≡◌, IfOk, count_by};
ghost use Rattle.bl_program.specs.Sites.{is_protected};
ghost use Rattle.bl_graph.specs.Graphs.{IsGraph};
ghost use Rattle.bl_witness.specs.{LookupAnswers.JudgesPath, LookupAnswers.JudgesPaths, Verdicts.Checks, Verdicts.Means};

use crate::chains::is_chain;
use crate::loads::overloaded;
use crate::protects::protect_weight;
use bl_base::{NoMemory, Pos};
use bl_graph::{Certificate, FlowPath, Graph, flow_sum, flows_through, graph, ranges};
use bl_program::{ProgramParts, WellFormed};
use bl_transient::is_protected;
use std::alloc::Global;

/// Whether a certificate keeps its rules.
#[derive(Clone, Copy, Debug, PartialEq, Eq)]
pub enum CertVerdict {
    /// It keeps all.
    Yes,
    /// The first rule that is broken, where the paths are tested by rules 1 to 3 one after another, then the positions by
    /// rule 4, then rule 5.
    No {
        /// Its number, from 1 to 5.
        rule: u8,
        /// The path's index for rules 1 to 3, the position for rule 4, 0 for rule 5.
        index: u64,
    },
}

/// Whether a certificate keeps its rules for the program and its own protects (`Certifies`); else the first rule that is broken.
/// A yes says that no passing set of sites weighs less than the protects. Linear in the program and the certificate, but for
/// the logarithm of the program's size. Want of memory is the only error.
pub fn check_certificate(
    alloc: Global,
    program: &WellFormed,
    certificate: &Certificate,
) -> Result<CertVerdict, NoMemory>
    ensures rules { IfOk result (λ verdict. Checks program.now certificate.now verdict) }
    ensures least { IfOk result (λ verdict. Means program.now verdict) }
{
    let graph = graph(alloc, program)?;
    check_certificate_of(alloc, program, &graph, certificate)
}

/// The same by the program's graph, for callers that need the graph as well.
pub fn check_certificate_of(
    alloc: Global,
    program: &WellFormed,
    graph: &Graph,
    certificate: &Certificate,
) -> Result<CertVerdict, NoMemory>
    requires { IsGraph program.now graph.now }
    ensures rules { IfOk result (λ verdict. Checks program.now certificate.now verdict) }
    ensures least { IfOk result (λ verdict. Means program.now verdict) }
{
    ranges(program);
    checked(alloc, program, graph, certificate)
}

/// The verdict.
fn checked(
    alloc: Global,
    program: &WellFormed,
    graph: &Graph,
    certificate: &Certificate,
) -> Result<CertVerdict, NoMemory>
    requires { IsGraph program.now graph.now }
    ensures { IfOk result (λ verdict. Checks program.now certificate.now verdict) }
{
    ranges(program);
    let parts = program.program().parts();
    let paths = certificate.paths.as_slice();
    if let Some((rule, index)) = first_broken(parts, graph, paths) {
        return Ok(CertVerdict::No { rule, index });
    }
    let loads = flows_through(alloc, parts.commands.len(), paths)?;
    if let Some(position) = overloaded(program, &loads) {
        return Ok(CertVerdict::No {
            rule: 4,
            index: position,
        });
    }
    let flow = flow_sum(paths);
    if flow != protect_weight(program) || flow != certificate.weight {
        return Ok(CertVerdict::No { rule: 5, index: 0 });
    }
    Ok(CertVerdict::Yes)
}

/// The first path that breaks one of rules 1 to 3: that rule, and the path's index.
fn first_broken(parts: &ProgramParts, graph: &Graph, paths: &[FlowPath]) -> Option<(u8, u64)>
    requires { IsGraph parts.now graph.now }
    ensures { JudgesPaths parts.now paths.now result }
{
    for (index, path) in paths.iter().enumerate() {
        if let Some(rule) = broken_rule(parts, graph, path) {
            return Some((rule, index as u64));
        }
    }
    None
}

/// The first of rules 1 to 3 that a path breaks.
fn broken_rule(parts: &ProgramParts, graph: &Graph, path: &FlowPath) -> Option<u8>
    requires { IsGraph parts.now graph.now }
    ensures { JudgesPath parts.now path.now result }
{
    let sites = path.sites.as_slice();
    if !is_chain(parts, graph, sites, path.sink) {
        return Some(1);
    }
    if path.amount == 0 {
        return Some(2);
    }
    if protected_places(parts, sites) != 1 {
        return Some(3);
    }
    None
}

/// How many places of a path are protected.
fn protected_places(parts: &ProgramParts, sites: &[Pos]) -> usize
    ensures { result ≡ count_by (λ s. is_protected parts.now s.0) sites.now }
{
    let mut count = 0;
    for site in sites {
        if is_protected(parts, site.0 as usize) {
            count += 1;
        }
    }
    count
}
