//! Facts about a running call, and what a command does to them.
ghost use Rattle.std.specs.Prelude.{◌↔◌, IsTrue};
ghost use Rattle.bl_definite.specs.Facts.{Follows, Loses, Makes};
ghost use Rattle.bl_program.specs.Rules.{GoesTo, Leaves};

use bl_program::Command;

/// A fact about a running call.
#[derive(Clone, Copy, Debug, PartialEq, Eq)]
pub enum Fact {
    /// The variable of the running function was written in this call. It isn't a result.
    Own(u32),
    /// An Arg gave the parameter of that function a value, and no Call has come since.
    Argument {
        /// The number of the function.
        function: u32,
        /// The index of the parameter.
        index: usize,
    },
    /// A Call of that function came last of all Calls, so its results can be read.
    Returned(usize),
    /// An Out gave the running function's result of that index a value.
    Given(usize),
}

/// Whether the command makes the fact true.
pub(crate) fn makes(command: Command, fact: Fact) -> bool
    ensures { IsTrue result ↔ Makes command fact }
{
    match command {
        Command::Set { to, .. } | Command::Load { to, .. } => fact == Fact::Own(to.0),
        Command::Arg {
            function,
            index,
            ..
        } => {
            fact == Fact::Argument {
                function,
                index: index as usize,
            }
        }
        Command::Call { function } => fact == Fact::Returned(function as usize),
        Command::Out { index, .. } => fact == Fact::Given(index as usize),
        _ => false,
    }
}

/// Whether the command makes the fact untrue.
pub(crate) fn loses(command: Command, fact: Fact) -> bool
    ensures { IsTrue result ↔ Loses command fact }
{
    match command {
        Command::Call { function } => match fact {
            Fact::Argument { .. } => true,
            Fact::Returned(other) => other != function as usize,
            _ => false,
        },
        _ => false,
    }
}

/// Whether the command never goes on to the next position by itself.
pub(crate) fn leaves(command: Command) -> bool
    ensures { IsTrue result ↔ Leaves command }
{
    match command {
        Command::Test { .. } | Command::Jump { .. } | Command::Ret | Command::Trap { .. } => true,
        _ => false,
    }
}

/// Whether the command names the position as one that it may go to.
fn goes_to(command: Command, position: usize) -> bool
    ensures { IsTrue result ↔ GoesTo command position }
{
    match command {
        Command::Test { yes, no, .. } => yes.0 as usize == position || no.0 as usize == position,
        Command::Jump { to } => to.0 as usize == position,
        _ => false,
    }
}

/// Whether the position may follow the command, which is at `from`.
pub(crate) fn follows(command: Command, from: usize, position: usize) -> bool
    ensures { IsTrue result ↔ Follows command from position }
{
    goes_to(command, position) || position > 0 && from == position - 1 && !leaves(command)
}
