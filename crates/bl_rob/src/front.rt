//! The front end.
ghost use Rattle.std.specs.Prelude.{◌≡◌, ◌<◌, None, Some, length, OnOk, OnErr};
ghost use Rattle.bl_seq.specs.Layouts.{IsLayout};
ghost use Rattle.bl_rob.specs.CallResults.{front_in};
ghost use Rattle.bl_rob.specs.Machines.{called, fetched};

use crate::chain::Chain;
use crate::directive::End;
use crate::fetch::entry_of;
use bl_base::{MOST_CALLS, NoMemory, Trap};
use bl_program::Command;
use bl_seq::Layout;
use std::alloc::Global;

/// Where the next command is fetched.
#[derive(Debug, Drop)]
pub struct Front {
    /// The position of the next command, or of the last one where the front end has ended.
    pub position: u32,
    /// The positions to which the open calls return.
    pub chain: Chain,
    /// How the front end has ended, if it has.
    pub end: Option<End>,
}

impl Front {
    /// Goes to where the command at its position goes. A Test leaves it; a Trap ends it, and so do a return where no call is open and a call
    /// where too many are. A refusal leaves it as it was.
    pub fn advance(&mut self, layout: &Layout, command: Command) -> Result<(), NoMemory>
        requires layout { IsLayout layout.now }
        requires running { self.old.end ≡ None }
        requires within { self.old.position < length layout.now.parts.now.commands }
        ensures ok { OnOk result (self.new ≡ front_in self.old (fetched layout.now.parts.now self.old.position self.old.chain (Some command))) }
        ensures err { OnErr result (self.new ≡ self.old) }
    {
        match command {
            Command::Jump { to } => self.position = to.0,
            Command::Call { function } => return self.call(layout, function),
            Command::Ret => match self.chain.close() {
                Some(caller) => self.position = caller,
                None => self.end = Some(End::Returned),
            },
            Command::Trap { kind } => self.end = Some(End::Trapped(kind)),
            Command::Test { .. } => {}
            Command::Set { .. }
            | Command::Load { .. }
            | Command::Store { .. }
            | Command::Arg { .. }
            | Command::Out { .. } => self.position += 1,
        }
        Ok(())
    }

    /// Goes to a function's entry, to return to the next position; ends where too many calls are open.
    fn call(&mut self, layout: &Layout, function: u32) -> Result<(), NoMemory>
        requires layout { IsLayout layout.now }
        requires running { self.old.end ≡ None }
        requires within { self.old.position < length layout.now.parts.now.commands }
        ensures ok { OnOk result (self.new ≡ front_in self.old (called layout.now.parts.now function self.old.position self.old.chain)) }
        ensures err { OnErr result (self.new ≡ self.old) }
    {
        if self.chain.depth() < MOST_CALLS {
            self.chain.open(self.position + 1)?;
            self.position = entry_of(layout, function);
        } else {
            self.end = Some(End::Trapped(Trap::StackExhausted));
        }
        Ok(())
    }
}
