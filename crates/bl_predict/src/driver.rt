//! Drives.
ghost use Rattle.std.specs.Prelude.{◌≡◌, ◌<◌, ◌^◌, ◌-◌, IfOk, IfSome, OnOk, length, replicate};
ghost use Rattle.bl_program.specs.Outcomes.{IsStart};
ghost use Rattle.bl_rob.specs.{CallResults.shown, Machines.directive_step};
ghost use Rattle.bl_predict.specs.Drives.{HasRoom, IsDriven, begun, counted, driven, drive_state, guard_of, is_rollback, judged, moved, after_observation, drive_step, stepped, touched};

use crate::cache::Cache;
use crate::choice::choose;
use bl_base::{List, NoMemory, Run, Start};
use bl_program::WellFormed;
use bl_rob::{Directive, Kind, Observation, Rob};
use std::alloc::Global;

/// What a drive has come to.
#[derive(Drop)]
pub struct Driven {
    /// The directives that were chosen.
    pub trace: List<Directive>,
    /// How many guesses were wrong.
    pub rollbacks: u64,
    /// How many accesses found their line.
    pub hits: u64,
    /// How many didn't.
    pub misses: u64,
    /// The cache behind the last access.
    pub cache: Cache<64, 8>,
    /// The outcome; Spent where the steps didn't end the machine.
    pub run: Run,
}

/// A drive on its way.
#[derive(Drop)]
pub(crate) struct Driver<'p> {
    rob: Rob<'p, 64>,
    counters: Vec<u8>,
    cache: Cache<64, 8>,
    trace: List<Directive>,
    rollbacks: u64,
    hits: u64,
    misses: u64,
}

/// The counter and the prediction of the guard that a directive executes.
fn guard_of(rob: &Rob<'_, 64>, directive: Directive) -> Option<(usize, bool)>
    ensures guard { result ≡ guard_of (shown rob.now.machine) directive }
    ensures within { IfSome result (λ guard. guard.0 < 1024) }
{
    let Directive::Exec(n) = directive else {
        return None;
    };
    match rob.entry(n) {
        Some((position, Kind::Guard(predicted))) => {
            Some(((position.0 % 1024) as usize, predicted))
        }
        _ => None,
    }
}

/// The counter of a guard that was executed moves up where its condition wasn't 0, else down.
fn teach(counters: &mut [u8], guard: Option<(usize, bool)>, observation: Observation)
    requires length { length counters.old ≡ 1024 }
    requires within { IfSome guard (λ guard. guard.0 < 1024) }
    ensures length { length counters.new ≡ 1024 }
    ensures moved { counters.new ≡ moved counters.old observation guard }
{
    if let Some((at, predicted)) = guard {
        counters[at] = counted(counters[at], predicted, observation);
    }
}

/// The counter of a guard behind its execution.
fn counted(count: u8, predicted: bool, observation: Observation) -> u8
    ensures { result ≡ counted (judged predicted (is_rollback observation)) count }
{
    if predicted != matches!(observation, Observation::Rollback(_)) {
        if count < 3 { count + 1 } else { 3 }
    } else {
        count.saturating_sub(1)
    }
}

impl<'p> Driver<'p> {
    /// An access to the cache.
    fn touch(&mut self, address: u64) -> Result<(), NoMemory>
        requires { HasRoom (drive_state self.old) }
        ensures same { self.new.rob ≡ self.old.rob }
        ensures counters { self.new.counters ≡ self.old.counters }
        ensures touched { OnOk result (drive_state self.new ≡ touched address (drive_state self.old)) }
    {
        if self.cache.access(address)? {
            self.hits += 1;
        } else {
            self.misses += 1;
        }
        Ok(())
    }

    /// Takes note of what was observed.
    fn note(&mut self, observation: Observation) -> Result<(), NoMemory>
        requires { HasRoom (drive_state self.old) }
        ensures same { self.new.rob ≡ self.old.rob }
        ensures counters { self.new.counters ≡ self.old.counters }
        ensures after_observation { OnOk result (drive_state self.new ≡ after_observation observation (drive_state self.old)) }
    {
        match observation {
            Observation::Read { address, .. } => self.touch(address),
            Observation::Write { address, .. } => self.touch(address),
            Observation::Rollback(_) => {
                self.rollbacks += 1;
                Ok(())
            }
            Observation::Nothing | Observation::Divide { .. } | Observation::Fail => Ok(()),
        }
    }

    /// Takes a directive.
    fn take(&mut self, alloc: Global, directive: Directive) -> Result<(), NoMemory>
        requires room { HasRoom (drive_state self.old) }
        requires length { length self.old.counters.items ≡ 1024 }
        ensures same { self.new.rob.program ≡ self.old.rob.program }
        ensures length { length self.new.counters.items ≡ 1024 }
        ensures stepped { OnOk result (drive_state self.new ≡ stepped (drive_state self.old) directive
            (directive_step 64 self.old.rob.program (drive_state self.old).state directive)) }
    {
        let guard = guard_of(&self.rob, directive);
        let Ok(observation) = self.rob.step(alloc, directive) else {
            return Err(NoMemory);
        };
        self.trace.push(directive)?;
        teach(&mut self.counters, guard, observation);
        self.note(observation)
    }

    /// One step of the drive.
    fn step(&mut self, alloc: Global) -> Result<(), NoMemory>
        requires room { HasRoom (drive_state self.old) }
        requires length { length self.old.counters.items ≡ 1024 }
        ensures same { self.new.rob.program ≡ self.old.rob.program }
        ensures length { length self.new.counters.items ≡ 1024 }
        ensures drive_step { OnOk result (drive_state self.new ≡ drive_step self.old.rob.program (drive_state self.old)) }
    {
        match choose(&self.counters, &self.rob) {
            Some(directive) => self.take(alloc, directive),
            None => Ok(()),
        }
    }
}

/// So many counters before the first step.
fn counters(alloc: Global, count: usize) -> Result<Vec<u8>, NoMemory>
    ensures { IfOk result (λ counters. counters.items ≡ replicate count 1) }
{
    let mut counters = Vec::new(alloc);
    for _ in 0..count {
        counters.push(1)?;
    }
    Ok(counters)
}

/// Before the first step.
fn begin<'p>(
    alloc: Global,
    p: &'p WellFormed,
    function: u32,
    start: &Start,
) -> Result<Driver<'p>, NoMemory>
    requires { IsStart p.now function start.now }
    ensures same { IfOk result (λ driver. driver.rob.program ≡ p.now) }
    ensures begun { IfOk result (λ driver. drive_state driver ≡ begun p.now function start.now) }
{
    let rob = Rob::begin(alloc, p, function, start)?;
    Ok(Driver {
        rob,
        counters: counters(alloc, 1024)?,
        cache: Cache::new(alloc)?,
        trace: List::new(alloc),
        rollbacks: 0,
        hits: 0,
        misses: 0,
    })
}

/// Drives a function from a start until the machine has ended, for at most so many steps: directives are chosen by a predictor with counters
/// and by what is enabled, and each read and write is an access to a cache. Linear in the program, the start and the steps.
pub fn drive(
    alloc: Global,
    p: &WellFormed,
    function: u32,
    start: &Start,
    most: u64,
) -> Result<Driven, NoMemory>
    requires { IsStart p.now function start.now }
    ensures { IfOk result (IsDriven p.now (driven p.now most (begun p.now function start.now))) }
{
    let mut driver = begin(alloc, p, function, start)?;
    let mut steps = 0;
    while steps < most && driver.rob.finished().is_none() {
        driver.step(alloc)?;
        steps += 1;
    }
    answer(alloc, driver)
}

/// What a drive answers.
fn answer(alloc: Global, driver: Driver<'_>) -> Result<Driven, NoMemory>
    ensures { IfOk result (IsDriven driver.entry.rob.program (drive_state driver.entry)) }
{
    let run = match driver.rob.outcome(alloc)? {
        Some(run) => run,
        None => Run::Spent,
    };
    Ok(Driven {
        trace: driver.trace,
        rollbacks: driver.rollbacks,
        hits: driver.hits,
        misses: driver.misses,
        cache: driver.cache,
        run,
    })
}
