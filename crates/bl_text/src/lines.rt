//! The lines of a text, and where its words end.
ghost use Rattle.std.specs.Prelude.{◌≡◌, ◌≤◌, ◌<◌, ◌==◌, ◌∷◌, length};
ghost use Rattle.std.specs.List.{position_or_len};
ghost use Rattle.bl_text.specs.Lines.{lines_left, lines_of};

/// The lines of a text in their order, without the LF that each ends with; the last one may lack it.
#[derive(Debug, Drop)]
pub struct Lines<'a> {
    rest: &'a [u8],
}

impl<'a> Lines<'a> {
    /// Those of a text. Takes no memory.
    pub fn of(text: &'a [u8]) -> Lines<'a>
        ensures all { lines_left result ≡ lines_of text.now }
        ensures few { length (lines_left result) ≤ length text.now }
    {
        Lines { rest: text }
    }
}

impl<'a> Iterator for Lines<'a> {
    ghost use Rattle.std.specs.Iterator.{YieldsFirstRef, item_count};
    ghost use Rattle.bl_text.specs.Lines.{lines_left};

    type Item = &'a [u8];

    ghost next_gives = { YieldsFirstRef lines_left };

    ghost remaining = { item_count lines_left };

    fn next(&mut self) -> Option<&'a [u8]> {
        if self.rest.is_empty() {
            return None;
        }
        let (line, rest) = split_line(self.rest);
        self.rest = rest;
        Some(line)
    }
}

/// The first line of a text that isn't empty, and what stands behind it.
fn split_line(text: &[u8]) -> (&[u8], &[u8])
    ensures { 0 < length text.now → lines_of text.now ≡ result.0.now ∷ lines_of result.1.now }
{
    let end = place_of(text, b'\n');
    if end == text.len() {
        return (text, &[]);
    }
    (&text[..end], &text[end + 1..])
}

/// The place of the first such byte; the length where there is none.
pub fn place_of(bytes: &[u8], byte: u8) -> usize
    ensures place { result ≡ position_or_len (λ b. b == byte) bytes.now }
    ensures within { result ≤ length bytes.now }
{
    let mut place = 0;
    while place < bytes.len() && bytes[place] != byte {
        place += 1;
    }
    place
}
