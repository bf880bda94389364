//! Programs with other protects.
ghost use Rattle.std.specs.Prelude.{◌≡◌, ◌<◌, ◌^◌, length};
ghost use Rattle.std.specs.FinSet as fin;
ghost use Rattle.bl_cut.specs.Marks.{guarded, marked, marked_from, protected};

use bl_base::{List, Pos, SiteSet};
use bl_program::{Command, Mark, ProgramParts, WellFormed};

/// The program in which exactly the sites of the set are protected; all else stays. What is no site is passed over. Linear in
/// the commands, but for the logarithm of how many positions from 1,048,576 on the set has; takes no memory.
pub fn protect(program: WellFormed, protects: &SiteSet) -> WellFormed
    ensures { result ≡ protected (fin.contains protects.now) program }
{
    let parts = program.into_program().into_parts();
    let mut commands = parts.commands.into_vec();
    mark_all(&mut commands, protects);
    WellFormed::from_parts(ProgramParts {
        globals: parts.globals,
        memories: parts.memories,
        functions: parts.functions,
        exports: parts.exports,
        commands: List::of(commands),
        demands: parts.demands,
        weights: parts.weights,
    })
}

/// Protects exactly those commands whose positions are in the set.
fn mark_all(commands: &mut [Command], protects: &SiteSet)
    requires { length commands.old < 2 ^ 32 }
    ensures { commands.new ≡ marked_from (fin.contains protects.now) 0 commands.old }
{
    for at in 0..commands.len() {
        commands[at] = marked(commands[at], protects.contains(Pos(at as u32)));
    }
}

/// The command, with a protect or without one where it is one of a site.
fn marked(command: Command, protect: bool) -> Command
    ensures { result ≡ marked protect command }
{
    let mut command = command;
    match &mut command {
        Command::Set { mark, .. } => *mark = guarded(*mark, protect),
        Command::Load { mark, .. } => *mark = guarded(*mark, protect),
        Command::Arg { mark, .. } => *mark = guarded(*mark, protect),
        Command::Out { mark, .. } => *mark = guarded(*mark, protect),
        _ => {}
    }
    command
}

/// The mark with a protect or without one.
fn guarded(mark: Mark, protect: bool) -> Mark
    ensures { result ≡ guarded protect mark }
{
    Mark {
        depth: mark.depth,
        protect,
    }
}
