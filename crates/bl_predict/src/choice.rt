//! What a drive does next.
ghost use Rattle.std.specs.Prelude.{◌≡◌, length, slice_get};
ghost use Rattle.std.specs.Option.{option_or};
ghost use Rattle.bl_rob.specs.CallResults.{is_enabled, position_of, shown};
ghost use Rattle.bl_rob.specs.{Machines.directive_step, declared.directive.Directive.TheVariants.Exec};
ghost use Rattle.bl_predict.specs.Drives.{chosen, execution_at, guess_at, is_asked, is_load, least, shows_read};

use bl_rob::{Directive, Kind, Rob};

/// What the execution of an entry would be.
#[derive(Clone, Copy)]
pub(crate) enum Readiness {
    /// There is no such entry.
    Absent,
    /// It isn't enabled, or it doesn't read and isn't wanted.
    Disabled,
    /// It is enabled.
    Enabled,
    /// It is enabled, and observed as a read.
    Reading,
}

/// Whether it is a pending load.
fn is_load(kind: Kind) -> bool
    ensures { result ≡ is_load kind }
{
    matches!(kind, Kind::Load)
}

/// Whether to ask what the execution of an entry of that kind would be, where one that doesn't read is wanted or isn't: what
/// has nothing left to execute isn't asked.
fn is_asked(kind: Kind, wanted: bool) -> bool
    ensures { result ≡ is_asked kind wanted }
{
    match kind {
        Kind::Load => true,
        Kind::Assign | Kind::Held | Kind::Store | Kind::Guard(_) => wanted,
        Kind::Nop | Kind::Done | Kind::Ready | Kind::Fail => false,
    }
}

/// What the execution of an entry would be, where one that doesn't read is wanted or isn't.
fn look_at(rob: &Rob<'_, 64>, n: u32, wanted: bool) -> Readiness
    ensures { result ≡ execution_at rob.now.program (shown rob.now.machine) n wanted (slice_get (shown rob.now.machine).buffer n) }
{
    let Some((_, kind)) = rob.entry(n) else {
        return Readiness::Absent;
    };
    if !is_asked(kind, wanted) {
        return Readiness::Disabled;
    }
    if !rob.enabled(Directive::Exec(n)) {
        return Readiness::Disabled;
    }
    if is_load(kind) {
        Readiness::Reading
    } else {
        Readiness::Enabled
    }
}

/// The least entry whose execution reads, else the least one that can be executed: one pass over the buffer, to its end.
fn next_execution(rob: &Rob<'_, 64>, count: u32) -> Option<u32>
    ensures { result ≡ option_or (least (λ n. shows_read (directive_step 64 rob.now.program (shown rob.now.machine) (Exec n))) count)
        (least (λ n. is_enabled 64 rob.now.program (shown rob.now.machine) (Exec n)) count) }
{
    let mut first = None;
    for n in 0..count {
        match look_at(rob, n, first.is_none()) {
            Readiness::Absent => return first,
            Readiness::Reading => return Some(n),
            Readiness::Enabled => first = Some(n),
            Readiness::Disabled => {}
        }
    }
    first
}

/// What the counter of the front end's position guesses; false where the front end has ended.
fn guess(counters: &[u8], rob: &Rob<'_, 64>) -> bool
    requires { length counters.now ≡ 1024 }
    ensures { result ≡ guess_at counters.now (position_of (shown rob.now.machine).front) }
{
    match rob.front() {
        Some(position) => counters[(position.0 % 1024) as usize] >= 2,
        None => false,
    }
}

/// The next directive; None where none is enabled. One pass over the entries: those with something left to execute are tested, each
/// against the entries before it, and behind the first that can be executed loads alone are.
pub(crate) fn choose(counters: &[u8], rob: &Rob<'_, 64>) -> Option<Directive>
    requires { length counters.now ≡ 1024 }
    ensures { result ≡ chosen rob.now.program counters.now (shown rob.now.machine) }
{
    if rob.enabled(Directive::Fetch) {
        return Some(Directive::Fetch);
    }
    let guess = guess(counters, rob);
    if rob.enabled(Directive::Predict(guess)) {
        return Some(Directive::Predict(guess));
    }
    if let Some(n) = next_execution(rob, 64) {
        return Some(Directive::Exec(n));
    }
    if rob.enabled(Directive::Retire) {
        return Some(Directive::Retire);
    }
    None
}
