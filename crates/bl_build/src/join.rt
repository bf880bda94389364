//! A client and a library joined by the bytes of their images and of an interface file.
ghost use Rattle.std.specs.{Prelude.IfOk, List.All};
ghost use Rattle.bl_build.specs.StageAnswers.{FindsFailing, IsWhole, refusal_of_join, sides_in, union_in};
ghost use Rattle.bl_build.specs.JoinStages.{joining, matching_both, pair_joining, pair_of, typing, uniting, with_library};
ghost use Rattle.bl_iface.specs.{Answers.JoinAnswers, JoinedProgram.HasSameTypes, InterfaceFunctions.Matches};
ghost use Rattle.bl_job.specs.{Stages.chain, WorkAnswers.IsStaged, WorkAnswers.IsTold};

use crate::build::{Built, sized};
use crate::entry::read_image;
use crate::interface::{match_all, read_interface};
use bl_base::{NoMemory, Pos, Role};
use bl_iface::{Iface, JoinError, UnderVerdict, join, passes_under};
use bl_job::{Reason, WorkError, limit, refused_at};
use bl_program::WellFormed;
use std::alloc::Global;

/// What comes of a client and a library.
#[derive(Drop)]
pub enum Union {
    /// One of them doesn't pass on its side of the interface: which one, and the position that tells why.
    Fails(Role, Pos),
    /// The program that they are joined to, and its image.
    Whole(Built),
}

/// The client and the library of two images' bytes, joined by the interface of a file's bytes, where both pass on their sides of it; else which
/// one doesn't, the client first. Refused exactly where an image is, the client's first; or else the file has a bad line; a function of the
/// interface isn't there, in the client first, or has two types; or else, where both pass, the library exports a name that the client keeps, a
/// number of both together is too large, or the image of the joined program is; with the first in this order. Linear in the bytes, but for
/// logarithms of how many names there are.
pub fn join_images(
    alloc: Global,
    iface: &[u8],
    client: &[u8],
    library: &[u8],
) -> Result<Union, WorkError>
    ensures { IsStaged (joining iface.now library.now) union_in client.now result }
{
    match read_image(alloc, client) {
        Ok(client) => {
            let union = join_client(alloc, iface, &client, library);
            drop(client);
            union
        }
        Err(error) => Err(error),
    }
}

/// The same of the client's program.
fn join_client(
    alloc: Global,
    iface: &[u8],
    client: &WellFormed,
    library: &[u8],
) -> Result<Union, WorkError>
    ensures { IsStaged (chain (with_library library.now) (pair_joining iface.now)) union_in client.now result }
{
    match read_image(alloc, library) {
        Ok(library) => {
            let union = join_programs(alloc, iface, client, &library);
            drop(library);
            union
        }
        Err(error) => Err(error),
    }
}

/// The same of both programs.
fn join_programs(
    alloc: Global,
    iface: &[u8],
    client: &WellFormed,
    library: &WellFormed,
) -> Result<Union, WorkError>
    ensures { IsStaged (pair_joining iface.now) union_in (pair_of client.now library.now) result }
{
    match read_interface(alloc, iface) {
        Ok(iface) => {
            let union = join_sides(alloc, client, library, &iface);
            drop(iface);
            union
        }
        Err(error) => Err(error),
    }
}

/// The same by the interface.
fn join_sides(
    alloc: Global,
    client: &WellFormed,
    library: &WellFormed,
    iface: &Iface,
) -> Result<Union, WorkError>
    ensures { IsStaged (chain matching_both (chain typing uniting)) union_in (sides_in client.now library.now iface.now) result }
{
    match match_both(alloc, client, library, iface) {
        Ok(()) => join_matched(alloc, client, library, iface),
        Err(error) => Err(error),
    }
}

/// Tests whether both have all functions of an interface.
fn match_both(
    alloc: Global,
    client: &WellFormed,
    library: &WellFormed,
    iface: &Iface,
) -> Result<(), WorkError>
    ensures { IsStaged matching_both (λ _. sides_in client.now library.now iface.now) (sides_in client.now library.now iface.now) result }
{
    match match_all(alloc, client, iface) {
        Ok(()) => match_all(alloc, library, iface),
        Err(error) => Err(error),
    }
}

/// A client and a library that have all functions of an interface. They are joined first: whether they can be is told behind whether they
/// pass.
fn join_matched(
    alloc: Global,
    client: &WellFormed,
    library: &WellFormed,
    iface: &Iface,
) -> Result<Union, WorkError>
    requires client { Matches client.now iface.now }
    requires library { Matches library.now iface.now }
    ensures { IsStaged (chain typing uniting) union_in (sides_in client.now library.now iface.now) result }
{
    match join(alloc, client, library, iface) {
        Err(JoinError::Types(index)) => Err(of_joining(alloc, JoinError::Types(index))),
        Err(JoinError::Memory) => Err(WorkError::Memory),
        joined => unite(alloc, client, library, iface, joined),
    }
}

/// A client and a library whose functions of an interface have the same types, by what comes of joining them.
fn unite(
    alloc: Global,
    client: &WellFormed,
    library: &WellFormed,
    iface: &Iface,
    joined: Result<WellFormed, JoinError>,
) -> Result<Union, WorkError>
    requires client { Matches client.now iface.now }
    requires library { Matches library.now iface.now }
    requires types { All (HasSameTypes client.now library.now) iface.now.functions }
    requires joined { JoinAnswers client.now library.now iface.now joined }
    ensures { IsStaged (chain typing uniting) union_in (sides_in client.now library.now iface.now) result }
{
    match first_failing(alloc, client, library, iface)? {
        Some((role, position)) => Ok(Union::Fails(role, position)),
        None => whole(alloc, joined),
    }
}

/// Which of a client and a library doesn't pass on its side of an interface, the client first, and the position that tells why; None where both
/// pass.
fn first_failing(
    alloc: Global,
    client: &WellFormed,
    library: &WellFormed,
    iface: &Iface,
) -> Result<Option<(Role, Pos)>, NoMemory>
    requires client { Matches client.now iface.now }
    requires library { Matches library.now iface.now }
    ensures { IfOk result (FindsFailing (sides_in client.now library.now iface.now)) }
{
    match passes_under(alloc, client, Role::Client, iface)? {
        UnderVerdict::No(position) => Ok(Some((Role::Client, position))),
        UnderVerdict::Yes => match passes_under(alloc, library, Role::Library, iface)? {
            UnderVerdict::No(position) => Ok(Some((Role::Library, position))),
            UnderVerdict::Yes => Ok(None),
        },
    }
}

/// The joined program with its image, where there is one that is short enough.
fn whole(alloc: Global, joined: Result<WellFormed, JoinError>) -> Result<Union, WorkError>
    ensures { IsWhole joined result }
{
    match joined {
        Ok(program) => match sized(alloc, program) {
            Ok(built) => Ok(Union::Whole(built)),
            Err(error) => Err(error),
        },
        Err(error) => Err(of_joining(alloc, error)),
    }
}

/// Why two programs aren't joined.
fn of_joining(alloc: Global, error: JoinError) -> WorkError
    ensures { IsTold (refusal_of_join error) result }
{
    match error {
        JoinError::Types(index) => {
            refused_at(alloc, Reason::Interface, "interface: types ", "", index)
        }
        JoinError::Export(index) => {
            refused_at(alloc, Reason::Interface, "interface: export ", "", index)
        }
        JoinError::Limit { which, value } => limit(alloc, which, value),
        JoinError::Memory => WorkError::Memory,
    }
}
