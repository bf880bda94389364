//! The search for a stretch of control on which a fact is lacking.
ghost use Rattle.std.specs.Prelude.{◌≡◌, ◌<◌, IfOk, OnOk, false, length, true};
ghost use Rattle.bl_program.specs.Layout.{Holds, entry_of};
ghost use Rattle.bl_definite.specs.Facts.{IsKnownAtEntry};
ghost use Rattle.bl_definite.specs.Search.{Answers, Came, Entered, IsClean, IsPlace, Seen, Traced};

use crate::facts::{Fact, follows, loses, makes};
use crate::place::Place;
use bl_base::NoMemory;

/// What the search has seen.
#[derive(Debug, Drop)]
pub(crate) struct Search {
    /// For each position the fact for which it was seen last.
    pub(crate) stamps: Vec<Option<Fact>>,
    /// The positions that are to be looked at.
    pub(crate) waiting: Vec<usize>,
}

/// Whether the fact is lacking at the position of the function on some stretch of control.
pub(crate) fn lacks(
    place: &Place,
    search: &mut Search,
    fact: Fact,
    position: usize,
) -> Result<bool, NoMemory>
    requires place { IsPlace place.now }
    requires holds { Holds place.now.parts.now place.now.function position }
    requires clean { IsClean place.now.parts.now search.old }
    ensures { IfOk result (λ answer. Answers place.now.parts.now (λ other. other ≡ fact) position answer search.new) }
{
    see(search, fact, position)?;
    while let Some(next) = search.waiting.pop() {
        if trace(place, search, fact, next)? {
            return Ok(true);
        }
    }
    Ok(false)
}

/// Looks at everything that comes before a position of the function: whether the fact is lacking there for a reason of its
/// own. Positions at which that has to be asked again are queued.
fn trace(place: &Place, search: &mut Search, fact: Fact, position: usize) -> Result<bool, NoMemory>
    requires place { IsPlace place.now }
    requires holds { Holds place.now.parts.now place.now.function position }
    requires room { length search.old.stamps.items ≡ length place.now.parts.now.commands }
    ensures { IfOk result (λ answer. Traced place.now.parts.now place.now.function fact position answer search.old search.new) }
{
    if is_begun(place, fact, position) {
        return Ok(true);
    }
    if comes(place, search, fact, position - 1, position)? {
        return Ok(true);
    }
    enter(place, search, fact, position)
}

/// Whether the position is the function's entry, and the fact isn't known there.
fn is_begun(place: &Place, fact: Fact, position: usize) -> bool
    requires { IsPlace place.now }
    ensures yes { result ≡ true → position ≡ entry_of place.now.parts.now place.now.function }
    ensures unknown { result ≡ true → IsKnownAtEntry place.now.parts.now place.now.function fact → ⊥ }
    ensures no { result ≡ false → position ≡ entry_of place.now.parts.now place.now.function → IsKnownAtEntry place.now.parts.now place.now.function fact }
{
    position == place.entry() && !place.is_known(fact)
}

/// The same for the commands that go to the position by naming it.
fn enter(place: &Place, search: &mut Search, fact: Fact, position: usize) -> Result<bool, NoMemory>
    requires place { IsPlace place.now }
    requires holds { Holds place.now.parts.now place.now.function position }
    requires room { length search.old.stamps.items ≡ length place.now.parts.now.commands }
    ensures { IfOk result (λ answer. Entered place.now.parts.now place.now.function fact position answer search.old search.new) }
{
    let mut number = place.tables.entrants.heads[position];
    while number > 0 {
        let link = place.tables.entrants.links[number - 1];
        if comes(place, search, fact, link.from, position)? {
            return Ok(true);
        }
        number = link.next;
    }
    Ok(false)
}

/// The same for the command at `from`, if the position may follow it.
fn comes(
    place: &Place,
    search: &mut Search,
    fact: Fact,
    from: usize,
    position: usize,
) -> Result<bool, NoMemory>
    requires place { IsPlace place.now }
    requires holds { Holds place.now.parts.now place.now.function position }
    requires room { length search.old.stamps.items ≡ length place.now.parts.now.commands }
    ensures { IfOk result (λ answer. Came place.now.parts.now place.now.function fact from position answer search.old search.new) }
{
    if from >= place.count() {
        return Ok(false);
    }
    let command = place.command_at(from);
    if !follows(command, from, position) {
        return Ok(false);
    }
    if makes(command, fact) {
        return Ok(false);
    }
    if loses(command, fact) {
        return Ok(true);
    }
    see(search, fact, from)?;
    Ok(false)
}

/// Queues the position unless it was seen for the fact.
fn see(search: &mut Search, fact: Fact, position: usize) -> Result<(), NoMemory>
    requires { position < length search.old.stamps.items }
    ensures { OnOk result (Seen fact position search.old search.new) }
{
    if search.stamps[position] != Some(fact) {
        search.stamps[position] = Some(fact);
        search.waiting.push(position)?;
    }
    Ok(())
}
