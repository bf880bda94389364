//! Whether a program is constant time.
ghost use Rattle.std.specs.Prelude.{◌≡◌, ◌<◌, ℕ, All, Contains, IfOk, length, option_map, replicate};
ghost use Rattle.bl_base.specs.declared.names.Label.TheVariants as label;
ghost use Rattle.bl_graph.specs.{Graphs.IsGraph, SecretChains.IsSecretChain};
ghost use Rattle.bl_ct.specs.{Facts.IsKnown, Leaks.LeakFound, Leaks.LeakOf, declared.search.Step.Step as StepOf};
ghost use Rattle.bl_ct.specs.SecretSearch.{AreJustified, Has, IsLeak, IsTable, is_found};
ghost use Rattle.bl_ct.specs.Verdicts.{FindsChain, FindsSecrets, Judges, chain_in, labelling_of};

use crate::ends::{ends_of, marked};
use crate::facts::{Known, facts_of, vars_of};
use crate::search::{Cause, Step, secret_variables};
use crate::secrets::has_no_secrets;
use bl_base::{Label, List, NoMemory, Pos};
use bl_graph::{Graph, Names, Origin, SecretChain, names_of, variables};
use bl_program::WellFormed;
use std::alloc::Global;

/// Whether some labelling of the variables keeps the label rules.
#[derive(Debug, Drop)]
pub enum CtVerdict {
    /// For each variable its label, by the labelling with the fewest secret variables.
    Yes(List<Label>),
    /// A way of a secret to where it may not go.
    No(SecretChain),
}

impl CtVerdict {
    /// The secret chain, where there is one.
    pub fn chain(&self) -> Option<&SecretChain>
        ensures { option_map (λ chain. chain.now) result ≡ chain_in self.now }
    {
        match self {
            CtVerdict::Yes(_) => None,
            CtVerdict::No(chain) => Some(chain),
        }
    }
}

/// The secret variables where these may be secret, or a way of one to where it may not go.
#[derive(Debug, Drop)]
pub(crate) enum Judged {
    /// A step for each secret variable.
    Keeps(Vec<Step>),
    /// A secret chain.
    Leads(SecretChain),
}

/// A step of the search whose variable may not be secret.
#[derive(Clone, Copy, Debug)]
pub(crate) struct Leak {
    /// The place of the step in the queue.
    pub(crate) place: usize,
    /// The position where it may not be secret.
    pub(crate) end: u32,
}

/// The labelling with the fewest secret variables, where some labelling keeps the label rules; else a secret chain. Linear in
/// the program and in the number of its declared variables. Want of memory is the only error.
pub fn constant_time(
    alloc: Global,
    program: &WellFormed,
    graph: &Graph,
) -> Result<CtVerdict, NoMemory>
    requires { IsGraph program.now graph.now }
    ensures { IfOk result (λ verdict. Judges program.now verdict) }
{
    match secrets_of(alloc, program, graph)? {
        Judged::Keeps(steps) => {
            let labels = labels_of(alloc, variables(program), &steps)?;
            Ok(CtVerdict::Yes(labels))
        }
        Judged::Leads(chain) => Ok(CtVerdict::No(chain)),
    }
}

/// A secret chain, where no labelling keeps the label rules. Linear in the program, up to a sort where it declares many more
/// variables than it has commands; takes no memory for a variable that is declared alone, and none at all where nothing is
/// declared secret. Want of memory is the only error.
pub fn secret_chain_of(
    alloc: Global,
    program: &WellFormed,
    graph: &Graph,
) -> Result<Option<SecretChain>, NoMemory>
    requires { IsGraph program.now graph.now }
    ensures { IfOk result (λ chain. FindsChain program.now chain) }
{
    match secrets_of(alloc, program, graph)? {
        Judged::Keeps(_) => Ok(None),
        Judged::Leads(chain) => Ok(Some(chain)),
    }
}

/// The same with the secret variables, by a search from what is declared secret.
fn secrets_of(alloc: Global, program: &WellFormed, graph: &Graph) -> Result<Judged, NoMemory>
    requires { IsGraph program.now graph.now }
    ensures { IfOk result (λ judged. FindsSecrets program.now judged) }
{
    let parts = program.program().parts();
    if has_no_secrets(parts) {
        return Ok(Judged::Keeps(Vec::new(alloc)));
    }
    let facts = facts_of(alloc, parts)?;
    let vars = vars_of(alloc, &facts)?;
    let names = names_of(alloc, program, graph, &vars)?;
    let known = Known {
        program,
        graph,
        facts: &facts,
        names: &names,
    };
    judge(alloc, &known)
}

/// The same where it is known what the program declares.
fn judge(alloc: Global, known: &Known) -> Result<Judged, NoMemory>
    requires { IsKnown known.now }
    ensures { IfOk result (λ judged. FindsSecrets known.now.program.now judged) }
{
    let names = known.names;
    let demanded = marked(alloc, names, known.facts.demanded.as_slice())?;
    let ends = ends_of(alloc, known, &demanded)?;
    let queue = secret_variables(alloc, known)?;
    match first_leak(&queue, names, &ends, &demanded) {
        Some(leak) => {
            let chain = known.chain_to(alloc, &queue, leak)?;
            Ok(Judged::Leads(chain))
        }
        None => Ok(Judged::Keeps(queue)),
    }
}

/// The first step whose variable may not be secret.
fn first_leak(
    queue: &[Step],
    names: &Names,
    ends: &[Option<u32>],
    demanded: &[bool],
) -> Option<Leak>
    requires named { All (λ step. Contains names.now step.var) queue.now }
    requires ends { IsTable names.now ends.now }
    requires demanded { IsTable names.now demanded.now }
    ensures { LeakFound names.now queue.now ends.now demanded.now result }
{
    let mut place = 0;
    while place < queue.len() {
        if let Some(end) = leak_of(queue[place], names, ends, demanded) {
            return Some(Leak { place, end });
        }
        place += 1;
    }
    None
}

/// Where the variable of a step may not be secret: at an end of it, or at the Load that writes it where it is demanded to be
/// public.
fn leak_of(step: Step, names: &Names, ends: &[Option<u32>], demanded: &[bool]) -> Option<u32>
    requires named { Contains names.now step.var }
    requires ends { IsTable names.now ends.now }
    requires demanded { IsTable names.now demanded.now }
    ensures { LeakOf names.now ends.now demanded.now step result }
{
    let place = names.number_of(step.var) as usize;
    if let Some(end) = ends[place] {
        return Some(end);
    }
    match step.cause {
        Cause::Loaded { at, memory: _ } if demanded[place] => Some(at),
        _ => None,
    }
}

impl Known<'_> {
    /// The chain to a step, read back through the queue.
    fn chain_to(&self, alloc: Global, queue: &[Step], leak: Leak) -> Result<SecretChain, NoMemory>
        requires stands { AreJustified self.now.program.now queue.now }
        requires leak { (step : StepOf) × Has queue.now leak.place step × IsLeak self.now.program.now step leak.end }
        ensures { IfOk result (λ chain. IsSecretChain self.now.program.now chain) }
    {
        let mut sites = Vec::new(alloc);
        let mut place = leak.place;
        loop {
            match queue[place].cause {
                Cause::Declared(origin) => {
                    sites.reverse();
                    return Ok(SecretChain {
                        origin,
                        through: List::of(sites),
                        end: Pos(leak.end),
                    });
                }
                Cause::Loaded { at, memory } => {
                    sites.push(Pos(at))?;
                    sites.reverse();
                    return Ok(SecretChain {
                        origin: Origin::Memory(memory),
                        through: List::of(sites),
                        end: Pos(leak.end),
                    });
                }
                Cause::Moved { at, before } => {
                    sites.push(Pos(at))?;
                    place = before;
                }
            }
        }
    }
}

/// The labels of so many variables, of which those of the steps are secret.
fn labels_of(alloc: Global, count: u32, steps: &[Step]) -> Result<List<Label>, NoMemory>
    requires { All (λ step. step.var < count) steps.now }
    ensures places { IfOk result (λ labels. length labels ≡ count) }
    ensures exact { IfOk result (λ labels. (x : ℕ) → labelling_of labels x ≡ is_found steps.now x) }
{
    let mut labels = all_public(alloc, count)?;
    for step in steps {
        labels[step.var as usize] = Label::Secret;
    }
    Ok(List::of(labels))
}

/// So many labels, all of them Public.
fn all_public(alloc: Global, count: u32) -> Result<Vec<Label>, NoMemory>
    ensures { IfOk result (λ labels. labels.items ≡ replicate count label.Public) }
{
    let mut labels = Vec::with_capacity(alloc, count as usize)?;
    for _ in 0..count {
        labels.push(Label::Public)?;
    }
    Ok(labels)
}
