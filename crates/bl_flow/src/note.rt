//! What a search for paths notes of a part.

/// The number of links from which no note can be made.
pub const MOST_LINKS: usize = 1 << 30;

/// Links have lower numbers, so that two bits of the code are left for the kinds below.
const LINKS: u32 = 1 << 30;
/// The search found the part by the link.
const FOUND: u32 = 1 << 30;
/// The last path from the part to the end went on by the link.
const ONWARD: u32 = 2 << 30;
/// No path leads from the part to the end.
const DEAD: u32 = 3 << 30;

/// What a search for paths notes of a part, in four bytes: nothing, the link by which it found the part, the link by which
/// the last path went on from the part, or that no path leads from the part to the end.
#[derive(Clone, Copy, Debug, Drop)]
pub struct Note {
    /// A kind and the number of a link; 0 for nothing.
    code: u32,
}

impl Note {
    /// Nothing is known of the part.
    pub fn nothing() -> Note {
        Note { code: 0 }
    }

    /// The search found the part by this link.
    pub fn found(link: u32) -> Note {
        Note {
            code: FOUND | link % LINKS,
        }
    }

    /// The last path from the part to the end went on by this link.
    pub fn onward(link: u32) -> Note {
        Note {
            code: ONWARD | link % LINKS,
        }
    }

    /// No path leads from the part to the end.
    pub fn dead() -> Note {
        Note { code: DEAD }
    }

    /// Whether nothing is known of the part.
    pub fn is_nothing(self) -> bool {
        self.code == 0
    }

    /// Whether the search has to look at the part: it hasn't found the part yet, and a path may lead on from there.
    pub fn is_open(self) -> bool {
        self.code < FOUND || self.is_onward()
    }

    /// Whether a path once went on from the part.
    pub fn is_onward(self) -> bool {
        ONWARD <= self.code && self.code < DEAD
    }

    /// The link by which the search found the part, if it did.
    pub fn link_found(self) -> Option<u32> {
        if FOUND <= self.code && self.code < ONWARD {
            Some(self.code % LINKS)
        } else {
            None
        }
    }

    /// The link by which the last path went on, if there was one.
    pub fn link_onward(self) -> Option<u32> {
        if self.is_onward() {
            Some(self.code % LINKS)
        } else {
            None
        }
    }
}
