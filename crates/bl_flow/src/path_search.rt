//! Searches for paths from one start at a time. They have no contract: whoever lets more flow along a trail tests the trail.

use crate::capacities::Capacities;
use crate::note::{MOST_LINKS, Note};
use crate::split::{Link, Links};
use crate::split_network::SplitNetwork;
use bl_base::NoMemory;
use std::alloc::Global;

/// How often all searches together may follow all links; the links of the paths found count too. In networks of programs
/// the searches follow each link once or twice. If they need more, other algorithms are faster.
const ROUNDS: usize = 6;

/// How a search ended.
#[derive(Clone, Copy)]
pub enum SearchEnd {
    /// The trail is a path.
    Path,
    /// No path from the start is left.
    NoPath,
    /// Too many links were followed.
    Spent,
}

/// What searches for paths share.
#[derive(Drop)]
pub struct PathSearch {
    /// What is noted of each part.
    notes: Vec<Note>,
    /// The parts that the current search has found, in this order.
    queue: Vec<u32>,
    /// The links of the path found, from the end back to the start.
    pub trail: Vec<usize>,
    /// How many links may still be followed.
    left: usize,
}

impl PathSearch {
    /// Nothing is noted yet. No search goes back to the part before all starts.
    pub fn new(alloc: Global, split: &SplitNetwork) -> Result<PathSearch, NoMemory> {
        let links = 2 * split.links.half();
        let mut search = PathSearch {
            notes: vec![in alloc; Note::nothing(); split.rows.len()]?,
            queue: Vec::new(alloc),
            trail: Vec::new(alloc),
            left: links.saturating_mul(ROUNDS),
        };
        if links >= MOST_LINKS {
            search.left = 0;
        }
        if let Ok(source) = u32::try_from(split.nodes.saturating_mul(2)) {
            search.set_note(source, Note::dead());
        }
        Ok(search)
    }

    /// Whether too many links were followed.
    pub fn is_spent(&self) -> bool {
        self.left == 0
    }

    /// What is noted of a part.
    #[inline(always)]
    fn note(&self, part: u32) -> Note {
        match self.notes.get(part as usize) {
            Some(note) => *note,
            None => Note::dead(),
        }
    }

    /// Notes something of a part.
    #[inline(always)]
    fn set_note(&mut self, part: u32, note: Note) {
        if let Some(old) = self.notes.get_mut(part as usize) {
            *old = note;
        }
    }

    /// Searches for a path from the source that begins with a link.
    pub fn find(
        &mut self,
        split: &SplitNetwork,
        capacities: &Capacities,
        first: u32,
    ) -> Result<SearchEnd, NoMemory> {
        self.queue.clear();
        if self.is_spent() {
            return Ok(SearchEnd::Spent);
        }
        match self.spread(split, capacities, first)? {
            Some(link) => {
                self.trail.reverse();
                self.trace_back(split, link)?;
                self.settle(Note::nothing());
                self.left = self.left.saturating_sub(self.trail.len());
                Ok(SearchEnd::Path)
            }
            None => {
                if self.is_spent() {
                    return Ok(SearchEnd::Spent);
                }
                self.settle(Note::dead());
                Ok(SearchEnd::NoPath)
            }
        }
    }

    /// Replaces the notes of all parts that the search has found and that aren't on the path. An out part may have been
    /// found without being queued.
    fn settle(&mut self, note: Note) {
        for place in 0..self.queue.len() {
            if let Some(part) = self.queue.get(place) {
                let part = *part;
                self.settle_part(part, note);
                if part % 2 == 0 {
                    self.settle_part(part | 1, note);
                }
            }
        }
    }

    /// Replaces a part's note, if the search has found the part and it isn't on the path.
    #[inline(always)]
    fn settle_part(&mut self, part: u32, note: Note) {
        if let Some(old) = self.notes.get_mut(part as usize) {
            if old.link_found().is_some() {
                *old = note;
            }
        }
    }

    /// Follows links from the first on, breadth first, until one leads to the end or to a part from which a path is known;
    /// gives that link.
    fn spread(
        &mut self,
        split: &SplitNetwork,
        capacities: &Capacities,
        first: u32,
    ) -> Result<Option<u32>, NoMemory> {
        let last = self.follow_all(split, capacities, &[first])?;
        if last.is_some() {
            return Ok(last);
        }
        for place in 0..split.rows.len() {
            let Some(part) = self.queue.get(place) else {
                return Ok(None);
            };
            let part = *part;
            let last = self.visit(split, capacities, part)?;
            if last.is_some() || self.is_spent() {
                return Ok(last);
            }
        }
        Ok(None)
    }

    /// Follows the links from a part; gives one that leads to the end or to a part from which a path is known. If nothing
    /// flows through the part's node, its in part leads on only through the node, and its out part only along arcs.
    fn visit(
        &mut self,
        split: &SplitNetwork,
        capacities: &Capacities,
        part: u32,
    ) -> Result<Option<u32>, NoMemory> {
        let node = part / 2;
        if capacities.carries(node as usize) {
            return self.follow_all(split, capacities, row_of(split, part));
        }
        if part % 2 == 1 {
            return self.follow_unbounded(split, capacities, part);
        }
        let out = part | 1;
        if !self.note(out).is_nothing() {
            return self.follow_all(split, capacities, &[node]);
        }
        if !capacities.may_take(node as usize) {
            return Ok(None);
        }
        self.set_note(out, Note::found(node));
        self.follow_unbounded(split, capacities, out)
    }

    /// Follows those of the links that can take more; gives the first that leads to the end or to a part from which a path
    /// is known.
    fn follow_all(
        &mut self,
        split: &SplitNetwork,
        capacities: &Capacities,
        row: &[u32],
    ) -> Result<Option<u32>, NoMemory> {
        for (place, link) in row.iter().enumerate() {
            if let Some(to) = next_part(split, capacities, *link) {
                if self.find_part(split, capacities, to, *link)? {
                    self.left = self.left.saturating_sub(place);
                    return Ok(Some(*link));
                }
            }
        }
        self.left = self.left.saturating_sub(row.len());
        Ok(None)
    }

    /// The same for the links from an out part along arcs, which have no bound.
    fn follow_unbounded(
        &mut self,
        split: &SplitNetwork,
        capacities: &Capacities,
        part: u32,
    ) -> Result<Option<u32>, NoMemory> {
        let row = row_of(split, part);
        for (place, link) in row.iter().enumerate() {
            if let Some(to) = split.links.end_along(*link) {
                if self.find_part(split, capacities, to, *link)? {
                    self.left = self.left.saturating_sub(place);
                    return Ok(Some(*link));
                }
            }
        }
        self.left = self.left.saturating_sub(row.len());
        Ok(None)
    }

    /// A link leads to a part: says whether the part is the end, or one from which a path is known; the trail is then that
    /// path. Any other part is queued, if it is new to the search.
    #[inline(always)]
    fn find_part(
        &mut self,
        split: &SplitNetwork,
        capacities: &Capacities,
        part: u32,
        link: u32,
    ) -> Result<bool, NoMemory> {
        let note = self.note(part);
        if !note.is_open() {
            return Ok(false);
        }
        let may_end = note.is_onward() || is_sink(split, part);
        if may_end && self.goes_on(split, capacities, part)? {
            return Ok(true);
        }
        self.set_note(part, Note::found(link));
        self.queue.push(part)?;
        Ok(false)
    }

    /// Whether the path that is noted from a part still leads to the end; it is then the trail, and else forgotten.
    fn goes_on(
        &mut self,
        split: &SplitNetwork,
        capacities: &Capacities,
        part: u32,
    ) -> Result<bool, NoMemory> {
        self.trail.clear();
        let mut at = part;
        for _ in 0..split.rows.len() {
            if is_sink(split, at) {
                return Ok(true);
            }
            let Some(link) = self.note(at).link_onward() else {
                break;
            };
            self.trail.push(link as usize)?;
            let Some(to) = next_part(split, capacities, link) else {
                break;
            };
            at = to;
        }
        self.forget_trail(split);
        Ok(false)
    }

    /// Forgets the path along the trail.
    fn forget_trail(&mut self, split: &SplitNetwork) {
        self.left = self.left.saturating_sub(self.trail.len());
        for place in 0..self.trail.len() {
            if let Some(from) = self.part_on_trail(split, place) {
                self.set_note(from, Note::nothing());
            }
        }
    }

    /// The part from which the trail's link at a place leads.
    fn part_on_trail(&self, split: &SplitNetwork, place: usize) -> Option<u32> {
        let link = u32::try_from(*self.trail.get(place)?).ok()?;
        let ends = link_in(&split.links, link)?;
        Some(ends.from)
    }

    /// Puts the path from the source to a link on the trail, and notes by which link it goes on from each part.
    fn trace_back(&mut self, split: &SplitNetwork, last: u32) -> Result<(), NoMemory> {
        let mut link = last;
        for _ in 0..split.rows.len() {
            self.trail.push(link as usize)?;
            let Some(ends) = link_in(&split.links, link) else {
                return Ok(());
            };
            let Some(before) = self.note(ends.from).link_found() else {
                return Ok(());
            };
            self.set_note(ends.from, Note::onward(link));
            link = before;
        }
        Ok(())
    }
}

/// A link by its place, if there is one.
#[inline(always)]
pub fn link_in(links: &Links, place: u32) -> Option<Link> {
    let place = place as usize;
    if place < 2 * links.half() {
        Some(links.link(place))
    } else {
        None
    }
}

/// The part to which a link leads, if it can take more.
#[inline(always)]
fn next_part(split: &SplitNetwork, capacities: &Capacities, link: u32) -> Option<u32> {
    if capacities.may_take(link as usize) {
        let ends = link_in(&split.links, link)?;
        Some(ends.to)
    } else {
        None
    }
}

/// The links from a part.
pub fn row_of(split: &SplitNetwork, part: u32) -> &[u32] {
    let part = part as usize;
    if part < split.rows.len() {
        split.rows.row(part)
    } else {
        &[]
    }
}

/// Whether a part is the one behind all ends.
fn is_sink(split: &SplitNetwork, part: u32) -> bool {
    part as usize == split.nodes.saturating_mul(2).saturating_add(1)
}
