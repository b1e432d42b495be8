//! A text as lines: where they begin and end, and where the cursor may stand.
//! Lines and columns are counted from 0.
ghost use Rattle.std.specs.Prelude.{◌≡◌, ◌==◌, ◌+◌, ◌-◌, ◌<◌, ◌≤◌, length, take, count_by, IfSome, MatchOption, slice_index};
ghost use Rattle.plain_lines.specs.Lines.{IsWithinLine};

// How many bytes are before the first line end.
fn line_length(bytes: &[u8]) -> usize
    ensures within { result ≤ length bytes.now }
    ensures inside { IsWithinLine bytes.now 0 result }
    ensures ended { result < length bytes.now → slice_index bytes.now result ≡ 10 }
{
    let first = bytes.iter().position(|byte| *byte == b'\n');
    first.unwrap_or(bytes.len())
}

// A place of a text: the number of bytes before it.
// Kept: each function says that its result is of the same text: a definition would be as long as that equation of the two texts.
#[derive(Clone, Copy)]
pub struct Place<'a> {
    pub text: &'a [u8],
    pub at: usize,
    ghost within: { at ≤ length text.now },
}

impl<'a> Place<'a> {
    // Another place of the same text.
    pub fn to(self, at: usize) -> Place<'a>
        requires { at ≤ length self.text.now }
        ensures text { result.text.now ≡ self.entry.text.now }
        ensures at { result.at ≡ at }
    {
        Place {
            text: self.text,
            at,
        }
    }

    // Where its line begins.
    pub fn line_start(self) -> Place<'a>
        ensures text { result.text.now ≡ self.entry.text.now }
        ensures within { result.at ≤ self.entry.at }
        ensures inside { IsWithinLine self.entry.text.now result.at self.entry.at }
        ensures before { 0 < result.at → slice_index self.entry.text.now (result.at - 1) ≡ 10 }
    {
        let before = &self.text[..self.at];
        let last = before.iter().rposition(|byte| *byte == b'\n');
        self.to(last.map_or(0, |last| last + 1))
    }

    // Its line's end: the place of a byte 10, or the text's end.
    pub fn line_end(self) -> Place<'a>
        ensures text { result.text.now ≡ self.entry.text.now }
        ensures behind { self.entry.at ≤ result.at }
        ensures inside { IsWithinLine self.entry.text.now self.entry.at result.at }
        ensures ended { result.at < length self.entry.text.now → slice_index self.entry.text.now result.at ≡ 10 }
    {
        self.to(self.at + line_length(&self.text[self.at..]))
    }

    // How many lines end before it, which is the number of its line.
    pub fn line(self) -> usize
        ensures within { result ≤ self.entry.at }
        ensures value { result ≡ count_by (λ byte. byte == 10) (take self.entry.at self.entry.text.now) }
    {
        let before = &self.text[..self.at];
        before.iter().map(|byte| usize::from(*byte == b'\n')).sum()
    }

    // How many bytes of its line are before it.
    pub fn column(self) -> usize
        ensures within { result ≤ self.entry.at }
        ensures inside { IsWithinLine self.entry.text.now (self.entry.at - result) self.entry.at }
        ensures before { result < self.entry.at → slice_index self.entry.text.now (self.entry.at - result - 1) ≡ 10 }
    {
        self.at - self.line_start().at
    }

    // So many bytes back, at most to where its line begins.
    pub fn left(self, count: usize) -> Place<'a>
        ensures text { result.text.now ≡ self.entry.text.now }
        ensures before { result.at ≤ self.entry.at }
        ensures near { self.entry.at ≤ result.at + count }
        ensures inside { IsWithinLine self.entry.text.now result.at self.entry.at }
        ensures full { self.entry.at < result.at + count → 0 < result.at → slice_index self.entry.text.now (result.at - 1) ≡ 10 }
    {
        self.to(self.at - count.min(self.column()))
    }

    // So many bytes on, at most to its line's end.
    pub fn right(self, count: usize) -> Place<'a>
        ensures text { result.text.now ≡ self.entry.text.now }
        ensures behind { self.entry.at ≤ result.at }
        ensures near { result.at ≤ self.entry.at + count }
        ensures inside { IsWithinLine self.entry.text.now self.entry.at result.at }
        ensures full { result.at < self.entry.at + count → result.at < length self.entry.text.now → slice_index self.entry.text.now result.at ≡ 10 }
    {
        self.to(self.at.saturating_add(count).min(self.line_end().at))
    }

    // The beginning of the next line, if there is one.
    pub fn next_line(self) -> Option<Place<'a>>
        ensures { MatchOption result
            (IsWithinLine self.entry.text.now self.entry.at (length self.entry.text.now))
            (λ p. (p.text.now ≡ self.entry.text.now) × (self.entry.at < p.at)
            × (slice_index self.entry.text.now (p.at - 1) ≡ 10)
            × IsWithinLine self.entry.text.now self.entry.at (p.at - 1)) }
    {
        let end = self.line_end();
        if end.at < self.text.len() {
            Some(self.to(end.at + 1))
        } else {
            None
        }
    }

    // Where a line of the text begins, if there are as many.
    pub fn nth_line(self, line: usize) -> Option<Place<'a>>
        ensures { IfSome result (λ p. p.text.now ≡ self.entry.text.now) }
    {
        let mut start = self.to(0);
        for _ in 0..line {
            start = start.next_line()?;
        }
        Some(start)
    }

    // The place itself, or the one before it where it is the end of a line that has bytes.
    pub fn clamp(self) -> Place<'a>
        ensures text { result.text.now ≡ self.entry.text.now }
        ensures within { result.at ≤ self.entry.at }
        ensures near { self.entry.at ≤ result.at + 1 }
    {
        let begins = self.at == 0 || self.text[self.at - 1] == b'\n';
        let ends = self.at == self.text.len() || self.text[self.at] == b'\n';
        if ends && !begins {
            self.to(self.at - 1)
        } else {
            self
        }
    }

    // The first place from here on that has no blank or tab.
    pub fn past_blanks(self) -> Place<'a>
        ensures text { result.text.now ≡ self.entry.text.now }
        ensures behind { self.entry.at ≤ result.at }
    {
        let behind = &self.text[self.at..];
        let first = behind
            .iter()
            .position(|byte| *byte != b' ' && *byte != b'\t');
        self.to(self.at + first.unwrap_or(behind.len()))
    }

    // The line's first byte that is no blank or tab, or its last byte.
    pub fn first_nonblank(self) -> Place<'a>
        ensures { result.text.now ≡ self.entry.text.now }
    {
        self.line_start().past_blanks().clamp()
    }

    // Where a column is in the line that begins here, at most the line's last byte.
    pub fn in_column(self, column: usize) -> Place<'a>
        ensures { result.text.now ≡ self.entry.text.now }
    {
        self.right(column).clamp()
    }
}
