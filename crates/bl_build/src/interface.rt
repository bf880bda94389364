//! Interface files, and the functions of an interface in a program.
ghost use Rattle.bl_build.specs.InterfaceStages.{matching, reading, side_of};
ghost use Rattle.bl_build.specs.StageAnswers.{refusal_of_interface, refusal_of_targets};
ghost use Rattle.bl_job.specs.WorkAnswers.{IsStaged, IsTold};

use bl_iface::{Iface, IfaceError, TargetsError, read_iface, targets};
use bl_job::{Reason, WorkError, refused_at};
use bl_program::WellFormed;
use std::alloc::Global;

/// The interface of a file's bytes; Refused exactly where a line is bad, with the first such one. Costs the bytes times the logarithm of how
/// many lines there are.
pub(crate) fn read_interface(alloc: Global, bytes: &[u8]) -> Result<Iface, WorkError>
    ensures { IsStaged reading (λ iface. iface) bytes.now result }
{
    match read_iface(alloc, bytes) {
        Ok(iface) => Ok(iface),
        Err(error) => Err(of_interface(alloc, error)),
    }
}

/// Why a file is no interface.
fn of_interface(alloc: Global, error: IfaceError) -> WorkError
    ensures { IsTold (refusal_of_interface error) result }
{
    match error {
        IfaceError::Line(number) => {
            refused_at(alloc, Reason::Interface, "interface: line ", "", number)
        }
        IfaceError::Memory => WorkError::Memory,
    }
}

/// Tests whether a program has all functions of an interface; Refused exactly where it lacks one, with the first such one.
pub(crate) fn match_all(alloc: Global, program: &WellFormed, iface: &Iface) -> Result<(), WorkError>
    ensures { IsStaged matching (λ _. side_of program.now iface.now) (side_of program.now iface.now) result }
{
    match targets(alloc, program, iface) {
        Ok(targets) => {
            drop(targets);
            Ok(())
        }
        Err(error) => Err(of_targets(alloc, error)),
    }
}

/// Why a program doesn't have all functions of an interface.
fn of_targets(alloc: Global, error: TargetsError) -> WorkError
    ensures { IsTold (refusal_of_targets error) result }
{
    match error {
        TargetsError::Unmatched(index) => {
            refused_at(alloc, Reason::Interface, "interface: function ", "", index)
        }
        TargetsError::Memory => WorkError::Memory,
    }
}
