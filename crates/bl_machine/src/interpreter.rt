//! Runs of linked trees.
ghost use Rattle.std.specs.Prelude.{◌≡◌, IfOk, length, map};
ghost use Rattle.std.specs.List.{All};
ghost use Rattle.bl_base.specs.Fits.{PatchFits};
ghost use Rattle.bl_base.specs.Runs.{AnswersRun, memory_of, outcome_of};
ghost use Rattle.bl_wasm.specs.Linked.{IsLinked};
ghost use Rattle.bl_reduce.specs.Outcomes.{IsStart, first_store, source};
ghost use Rattle.bl_machine.specs.{Bodies.prepared_of, Machines.BecomesIfOk, Transitions.advanced};
ghost use Rattle.bl_machine.specs.InterpreterAnswers.{Drives, TellsMemories, has_ended, starting, machine_outcome};

use crate::body::{Prepared, prepare};
use crate::items::{enter, step_in};
use crate::machine::{Activation, Machine, Progress};
use crate::stack::Stack;
use bl_base::{List, NoMemory, Pages, Run, Start};
use bl_memory::Spaces;
use bl_wasm::{Linked, Tree};
use std::alloc::Global;

/// The outcome of a function's run from a start within so many steps of the reduction rules (WebAssembly 1.0, section
/// 4); Spent where there is none. Linear in the tree, its memories' bytes and the steps; beside the pages of memories that grow,
/// the memory that it takes doesn't grow with the steps.
pub fn interp(
    alloc: Global,
    tree: &Linked,
    function: u32,
    start: &Start,
    steps: u64,
) -> Result<Run, NoMemory>
    requires start { IsStart tree.now function start.now }
    ensures answers { IfOk result (λ run. AnswersRun (source tree.now function start.now) steps run) }
    ensures memories { IfOk result (λ run. TellsMemories (length tree.now.memories) run) }
{
    let tree = tree.tree();
    let prepared = prepare(alloc, tree)?;
    let mut machine = begin(alloc, tree, start)?;
    let progress = drive(&mut machine, tree, &prepared, function, start, steps)?;
    finish(alloc, machine, progress)
}

/// The memories before the first step: their first contents, with the patches of the start. Linear in their bytes and in the
/// patches.
pub fn first_memories(alloc: Global, tree: &Linked, start: &Start) -> Result<List<Pages>, NoMemory>
    requires { All (PatchFits (map (λ memory. memory.pages) tree.now.memories)) start.now.patches }
    ensures { IfOk result (λ pages. map memory_of pages ≡ (first_store tree.now start.now).memories) }
{
    let mut memories = Spaces::of(alloc, tree.tree().memories.as_slice())?;
    memories.patch(start.patches.as_slice());
    memories.into_pages(alloc)
}

/// The machine before the first step: the arguments are its locals.
pub fn begin(alloc: Global, tree: &Tree, start: &Start) -> Result<Machine, NoMemory>
    requires { IsLinked tree.now }
    ensures { IfOk result (λ machine. machine ≡ starting tree.now start.now) }
{
    let mut locals = Stack::new(alloc);
    locals.push_all(start.args.as_slice())?;
    let mut globals = Stack::new(alloc);
    for global in tree.globals.as_slice() {
        globals.push(global.initial)?;
    }
    let mut memories = Spaces::of(alloc, tree.memories.as_slice())?;
    memories.patch(start.patches.as_slice());
    Ok(Machine {
        stack: Stack::new(alloc),
        locals,
        labels: Stack::new(alloc),
        current: Activation {
            function: 0,
            place: 0,
            arity: 0,
            locals: 0,
            labels: 0,
            values: 0,
        },
        callers: Stack::new(alloc),
        globals,
        memories,
    })
}

/// So many steps from the entering of a function, or fewer where the run ends before.
fn drive(
    machine: &mut Machine,
    tree: &Tree,
    prepared: &Prepared,
    function: u32,
    start: &Start,
    steps: u64,
) -> Result<Progress, NoMemory>
    requires linked { IsLinked tree.now }
    requires start { IsStart tree.now function start.now }
    requires prepared { prepared.now ≡ prepared_of tree.now }
    requires begun { machine.old ≡ starting tree.now start.now }
    ensures { IfOk result (λ progress. Drives tree.now function start.now steps progress machine.new) }
{
    let mut progress = Progress::Entering(function);
    for _ in 0..steps {
        progress = advance(machine, tree, prepared, progress)?;
        if ended(progress) {
            return Ok(progress);
        }
    }
    Ok(progress)
}

/// A step.
pub fn advance(
    machine: &mut Machine,
    tree: &Tree,
    prepared: &Prepared,
    progress: Progress,
) -> Result<Progress, NoMemory>
    ensures { BecomesIfOk result machine.new (advanced tree.now prepared.now progress machine.old) }
{
    match progress {
        Progress::Running => step_in(machine, tree, prepared),
        Progress::Entering(number) => enter(machine, prepared.bodies.as_slice(), number),
        other => Ok(other),
    }
}

/// Whether the run has ended.
pub fn ended(progress: Progress) -> bool
    ensures { result ≡ has_ended progress }
{
    matches!(progress, Progress::Returned | Progress::Trapped(_))
}

/// The outcome of a machine that has come so far.
fn finish(alloc: Global, machine: Machine, progress: Progress) -> Result<Run, NoMemory>
    ensures { IfOk result (λ run. outcome_of run ≡ machine_outcome progress machine) }
{
    match progress {
        Progress::Returned => Ok(Run::Returned {
            values: List::of(machine.stack.into_vec()),
            memories: machine.memories.into_pages(alloc)?,
        }),
        Progress::Trapped(kind) => Ok(Run::Trapped {
            kind,
            memories: machine.memories.into_pages(alloc)?,
        }),
        _ => Ok(Run::Spent),
    }
}
