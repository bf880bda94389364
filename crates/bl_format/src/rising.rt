//! Writers of things whose numbers rise: the rows of memories, and weights.
ghost use Rattle.std.specs.Prelude.{◌≡◌, ◌<◌, ◌^◌, ℕ, List as Listed, length, OnOk};
ghost use Rattle.bl_leb.specs.Grammar.{◌⨾◌};
ghost use Rattle.bl_format.specs.{Grammar.u32, Grammar.rising, Image.row, Image.weight};
ghost use Rattle.bl_format.specs.WriterAnswers.{Adds, HasLength, Rises};

use crate::write::{length_of_count, length_of_u64, write_u64};
use bl_base::{List, NoMemory};
use bl_program::{MemRow, SiteWeight};

/// What stands in an image behind a number that rises.
pub trait Numbered: Drop {
    /// Its number.
    ghost numbered: { Self → ℕ };

    /// What is spelled of it behind its number.
    ghost behind: { Self → Listed ℕ → Type 0 };

    /// Its number.
    fn number(&self) -> u32
        ensures { result ≡ numbered self.now };

    /// Appends what stands behind its number.
    fn write_behind(&self, to: &mut Vec<u8>) -> Result<(), NoMemory>
        ensures { OnOk result (Adds (behind self.now) to.old.items to.new.items) };

    /// How many bytes that has.
    fn length_behind(&self) -> u64
        ensures { HasLength (behind self.now) result };
}

impl Numbered for MemRow {
    ghost numbered = { λ one. one.number };

    ghost behind = { row };

    fn number(&self) -> u32 {
        self.number
    }

    fn write_behind(&self, to: &mut Vec<u8>) -> Result<(), NoMemory> {
        let bytes = self.bytes;
        to.extend_from_slice(&bytes)?;
        Ok(())
    }

    #[tactic(auto, using(crate::proofs::WriterLemmas::row_long))]
    fn length_behind(&self) -> u64 {
        let bytes = self.bytes;
        bytes.len() as u64
    }
}

impl Numbered for SiteWeight {
    ghost numbered = { λ one. one.at.0 };

    ghost behind = { weight };

    fn number(&self) -> u32 {
        self.at.0
    }

    fn write_behind(&self, to: &mut Vec<u8>) -> Result<(), NoMemory> {
        write_u64(self.weight, to)
    }

    fn length_behind(&self) -> u64 {
        length_of_u64(self.weight)
    }
}

/// Appends things, each behind its number.
fn write_rising<T: Numbered>(things: &[T], to: &mut Vec<u8>) -> Result<(), NoMemory>
    requires { Rises T.numbered 0 things.now }
    ensures { OnOk result (Adds (rising T.numbered T.behind things.now) to.old.items to.new.items) }
{
    let mut least = 0;
    for thing in things {
        let number = u64::from(thing.number());
        write_u64(number - least, to)?;
        thing.write_behind(to)?;
        least = number + 1;
    }
    Ok(())
}

/// Appends how many things there are, and each behind its number.
pub fn write_numbered<T: Numbered>(things: &List<T>, to: &mut Vec<u8>) -> Result<(), NoMemory>
    requires few { length things.now < 2 ^ 32 }
    requires rise { Rises T.numbered 0 things.now }
    ensures { OnOk result (Adds (u32 (length things.now) ⨾ rising T.numbered T.behind things.now) to.old.items to.new.items) }
{
    write_u64(things.len() as u64, to)?;
    write_rising(things.as_slice(), to)?;
    Ok(())
}

/// How many bytes things have, each behind its number.
fn length_of_rising<T: Numbered>(things: &[T]) -> u64
    requires { Rises T.numbered 0 things.now }
    ensures { HasLength (rising T.numbered T.behind things.now) result }
{
    let mut length: u64 = 0;
    let mut least = 0;
    for thing in things {
        let number = u64::from(thing.number());
        let gap = length_of_u64(number - least);
        let here = gap.saturating_add(thing.length_behind());
        length = length.saturating_add(here);
        least = number + 1;
    }
    length
}

/// How many bytes the number of things has, and each behind its number.
pub fn length_of_numbered<T: Numbered>(things: &List<T>) -> u64
    requires few { length things.now < 2 ^ 32 }
    requires rise { Rises T.numbered 0 things.now }
    ensures { HasLength (u32 (length things.now) ⨾ rising T.numbered T.behind things.now) result }
{
    let count = length_of_count(things);
    count.saturating_add(length_of_rising(things.as_slice()))
}
