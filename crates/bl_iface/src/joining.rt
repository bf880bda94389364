//! Two programs joined.
ghost use Rattle.std.specs.Prelude.{◌≡◌, ◌++◌, ◌+◌, ◌<◌, ◌≤◌, ◌^◌, IfOk, IfErr, OnOk, length, map};
ghost use Rattle.bl_program.specs.{Layout.first_of, Layout.statics, Programs.IsProgram, Rules.IsWellFormed};
ghost use Rattle.bl_iface.specs.{Answers.JoinAnswers, Answers.StandsAgainst, InterfaceFunctions.AreTargets, InterfaceFunctions.Matches};
ghost use Rattle.bl_iface.specs.JoinedProgram.{CanJoin, client_shift, demands_of, joined, kept as exports_kept, library_shift, moved_export, moved_weight};
ghost use Rattle.bl_iface.specs.PartNumbers.{LeadsTo};

use crate::copies::{Copies, both, copied, kept_exports, push_globals, push_results};
use crate::error::JoinError;
use crate::iface::Iface;
use crate::limits::{first_over, sums, vars_of};
use crate::matching::matched;
use crate::numbers::Numbers;
use crate::obstacles::{first_taken, first_unlike};
use crate::shift::{Shift, moved_position};
use crate::tables::goals_of;
use bl_base::{List, NoMemory};
use bl_program::{
    Command, Demand, ExportDef, FIRST_ENTRY, ProgramParts, SiteWeight, WellFormed, firsts_of,
};
use std::alloc::Global;

/// A client and a library as one program.
///
/// It has the globals, the memories and the functions of the client and then those of the library, numbered anew, and the library's commands
/// behind the client's. Each call and argument of a client's function that the interface names goes to the library's of that name, and each
/// read of its result reads that one's; where several names stand for one function of the client, the first of them counts. Its exports are
/// those of the client that aren't in the interface, and then the library's. Marks, demands and weights go along. Where each program's marks
/// pass on its side of the interface, the joined program's pass (`laws::passes`).
///
/// The first of these that is so is the error: Types, where a function of the interface has other types in the one than in the other; Export,
/// where the library exports a name that the client keeps; Limit, where a number of both together is too large. Linear in the programs and
/// the interface, but for a logarithm of the functions, the names and the listed weights.
pub fn join(
    alloc: Global,
    client: &WellFormed,
    library: &WellFormed,
    iface: &Iface,
) -> Result<WellFormed, JoinError>
    requires client { Matches client.now iface.now }
    requires library { Matches library.now iface.now }
    ensures { JoinAnswers client.now library.now iface.now result }
{
    let ours = matched(alloc, client, iface)?;
    let theirs = matched(alloc, library, iface)?;
    let kept = kept_exports(
        alloc,
        client.program().parts().exports.as_slice(),
        iface.functions.as_slice(),
    )?;
    test_all(
        alloc,
        client,
        library,
        iface,
        ours.as_slice(),
        theirs.as_slice(),
        kept.as_slice(),
    )?;
    let goals = goals_of(
        alloc,
        client,
        library,
        iface,
        ours.as_slice(),
        theirs.as_slice(),
    )?;
    let parts = joined_parts(alloc, client, library, iface, goals.as_slice(), kept)?;
    Ok(WellFormed::from_parts(parts))
}

/// Tests whether the two can be joined to a well-formed program; the first thing that stands against it is the error.
fn test_all(
    alloc: Global,
    client: &WellFormed,
    library: &WellFormed,
    iface: &Iface,
    ours: &[u32],
    theirs: &[u32],
    kept: &[ExportDef],
) -> Result<(), JoinError>
    requires ours { AreTargets client.now iface.now ours.now }
    requires theirs { AreTargets library.now iface.now theirs.now }
    requires kept { kept.now ≡ exports_kept iface.now client.now }
    ensures can { OnOk result (CanJoin client.now library.now iface.now) }
    ensures program { OnOk result (IsProgram (joined client.now library.now iface.now)) }
    ensures rules { OnOk result (IsWellFormed (joined client.now library.now iface.now)) }
    ensures refused { IfErr result (StandsAgainst client.now library.now iface.now) }
{
    let client_parts = client.program().parts();
    let library_parts = library.program().parts();
    if let Some(index) = first_unlike(client_parts, library_parts, iface, ours, theirs) {
        return Err(JoinError::Types(index));
    }
    if let Some(index) = first_taken(alloc, kept, library_parts.exports.as_slice())? {
        return Err(JoinError::Export(index));
    }
    match first_over(&sums(client, library)) {
        Some(sum) => Err(JoinError::Limit {
            which: sum.which,
            value: sum.value,
        }),
        None => Ok(()),
    }
}

/// The parts of the joined program.
fn joined_parts(
    alloc: Global,
    client: &WellFormed,
    library: &WellFormed,
    iface: &Iface,
    goals: &[Option<u32>],
    kept: List<ExportDef>,
) -> Result<ProgramParts, NoMemory>
    requires can { CanJoin client.now library.now iface.now }
    requires goals { LeadsTo iface.now client.now library.now goals.now }
    requires kept { kept ≡ exports_kept iface.now client.now }
    ensures { IfOk result (λ parts. parts ≡ joined client.now library.now iface.now) }
{
    let ours = client.program().parts();
    let theirs = library.program().parts();
    let exports = exports_of(alloc, client, library, kept)?;
    let commands = commands_of(alloc, client, library, iface, goals)?;
    Ok(ProgramParts {
        globals: both(alloc, ours.globals.as_slice(), theirs.globals.as_slice())?,
        memories: both(alloc, ours.memories.as_slice(), theirs.memories.as_slice())?,
        functions: both(
            alloc,
            ours.functions.as_slice(),
            theirs.functions.as_slice(),
        )?,
        exports,
        commands,
        demands: demands_of(alloc, client, library)?,
        weights: weights_of(alloc, client, library)?,
    })
}

/// The exports of the client that are kept, and those of the library.
fn exports_of(
    alloc: Global,
    client: &WellFormed,
    library: &WellFormed,
    kept: List<ExportDef>,
) -> Result<List<ExportDef>, NoMemory>
    requires { length client.now.functions + length library.now.functions < 2 ^ 32 }
    ensures { IfOk result (λ exports. exports ≡ kept ++ map (moved_export (length client.now.functions)) library.now.exports) }
{
    let mut exports = kept;
    let added = client.program().parts().functions.len() as u32;
    for export in library.program().parts().exports.as_slice() {
        let mut copy = ExportDef::copy_of(alloc, export)?;
        copy.function += added;
        exports.push(copy)?;
    }
    Ok(exports)
}

/// The commands of the joined program; none of the library's goes to the client.
fn commands_of(
    alloc: Global,
    client: &WellFormed,
    library: &WellFormed,
    iface: &Iface,
    goals: &[Option<u32>],
) -> Result<List<Command>, NoMemory>
    requires can { CanJoin client.now library.now iface.now }
    requires goals { LeadsTo iface.now client.now library.now goals.now }
    ensures { IfOk result (λ commands. commands ≡ (joined client.now library.now iface.now).commands) }
{
    let ours = client.program().parts();
    let theirs = library.program().parts();
    let our_firsts = firsts_of(alloc, ours)?;
    let their_firsts = firsts_of(alloc, theirs)?;
    let of_client = Numbers {
        part: ours,
        shift: client_shift(theirs),
        firsts: our_firsts.as_slice(),
        other: theirs,
        other_shift: library_shift(ours),
        other_firsts: their_firsts.as_slice(),
        goals,
    };
    let of_library = Numbers {
        part: theirs,
        shift: of_client.other_shift,
        firsts: of_client.other_firsts,
        other: ours,
        other_shift: of_client.shift,
        other_firsts: of_client.firsts,
        goals: &[],
    };
    let first = FIRST_ENTRY as usize;
    let mut commands = copied(alloc, &ours.commands.as_slice()[..first])?;
    of_client.push(&mut commands, &ours.commands.as_slice()[first..])?;
    of_library.push(&mut commands, &theirs.commands.as_slice()[first..])?;
    Ok(commands)
}

/// The demands of both: those of results, and then those of globals.
fn demands_of(
    alloc: Global,
    client: &WellFormed,
    library: &WellFormed,
) -> Result<List<Demand>, NoMemory>
    requires few { first_of client.now (length client.now.functions) + first_of library.now (length library.now.functions) < 2 ^ 32 }
    requires functions { length client.now.functions + length library.now.functions < 2 ^ 32 }
    ensures { IfOk result (λ demands. demands ≡ demands_of client.now library.now) }
{
    let ours = client.program().parts().demands.as_slice();
    let theirs = library.program().parts().demands.as_slice();
    let shift = client_shift(library.program().parts());
    let their_shift = library_shift(client.program().parts());
    let mut demands = List::new(alloc);
    push_results(&mut demands, shift, ours)?;
    push_results(&mut demands, their_shift, theirs)?;
    push_globals(&mut demands, shift, ours)?;
    push_globals(&mut demands, their_shift, theirs)?;
    Ok(demands)
}

/// The weights that are listed of both.
fn weights_of(
    alloc: Global,
    client: &WellFormed,
    library: &WellFormed,
) -> Result<List<SiteWeight>, NoMemory>
    requires { length client.now.commands + length library.now.commands < 2 ^ 32 }
    ensures { IfOk result (λ weights. weights ≡ client.now.weights ++ map (moved_weight (library_shift client.now)) library.now.weights) }
{
    let shift = library_shift(client.program().parts());
    let mut weights = copied(alloc, client.program().parts().weights.as_slice())?;
    for entry in library.program().parts().weights.as_slice() {
        weights.push(SiteWeight {
            at: moved_position(shift, entry.at),
            weight: entry.weight,
        })?;
    }
    Ok(weights)
}

/// The shift of the client: the library's globals and sizes stand before what comes behind its own.
fn client_shift(library: &ProgramParts) -> Shift
    requires { statics library.now < 2 ^ 32 }
    ensures { result ≡ client_shift library.now }
{
    Shift {
        globals: 0,
        sizes: library.globals.len() as u32,
        vars: (library.globals.len() + library.memories.len()) as u32,
        memories: 0,
        functions: 0,
        commands: 0,
    }
}

/// The shift of the library, which stands behind the client.
fn library_shift(client: &ProgramParts) -> Shift
    requires few { first_of client.now (length client.now.functions) < 2 ^ 32 }
    requires commands { 7 ≤ length client.now.commands × length client.now.commands < 2 ^ 32 }
    requires functions { length client.now.functions < 2 ^ 32 }
    ensures { result ≡ library_shift client.now }
{
    Shift {
        globals: client.globals.len() as u32,
        sizes: (client.globals.len() + client.memories.len()) as u32,
        vars: vars_of(client) as u32,
        memories: client.memories.len() as u32,
        functions: client.functions.len() as u32,
        commands: (client.commands.len() - FIRST_ENTRY as usize) as u32,
    }
}
