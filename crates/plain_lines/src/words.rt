//! Where words begin and end. A word is a longest run of one sort of byte that is not blank;
//! an empty line counts as a word where one looks for beginnings.
ghost use Rattle.std.specs.Prelude.{◌≡◌, ◌+◌, ◌<◌, ◌≤◌, List, length};
ghost use Rattle.std.specs.List.{FoldsTo};

use crate::text::Place;

#[derive(Clone, Copy, PartialEq, Eq)]
enum Sort {
    Blank,
    Word,
    Other,
}

impl From<u8> for Sort {
    fn from(byte: u8) -> Sort {
        match byte {
            b' ' | b'\t' | b'\n' => Sort::Blank,
            b'a'..=b'z' | b'A'..=b'Z' | b'0'..=b'9' | b'_' | 128..=255 => Sort::Word,
            _ => Sort::Other,
        }
    }
}

// Whether a byte is one of a word that its neighbour is no part of.
fn is_outermost(byte: u8, neighbour: u8) -> bool {
    let sort = Sort::from(byte);
    sort != Sort::Blank && Sort::from(neighbour) != sort
}

fn begins_word(before: u8, byte: u8) -> bool {
    (before == b'\n' && byte == b'\n') || is_outermost(byte, before)
}

impl<'a> Place<'a> {
    // Where the next word begins, or the text's end if there is none.
    fn next_beginning(self) -> Place<'a>
        ensures text { result.text.now ≡ self.entry.text.now }
        ensures behind { self.entry.at ≤ result.at }
    {
        let first = self.text[self.at..]
            .array_windows::<2>()
            .position(|[before, byte]| begins_word(*before, *byte));
        self.to(first.map_or(self.text.len(), |pair| self.at + pair + 1))
    }

    // Where the last word before begins, or the text's beginning.
    fn previous_beginning(self) -> Place<'a>
        ensures text { result.text.now ≡ self.entry.text.now }
        ensures before { result.at ≤ self.entry.at }
    {
        let last = self.text[..self.at]
            .array_windows::<2>()
            .rposition(|[before, byte]| begins_word(*before, *byte));
        self.to(last.map_or(0, |pair| pair + 1))
    }

    // The last byte of the next word that ends behind, or the text's last byte.
    fn next_ending(self) -> Place<'a>
        ensures text { result.text.now ≡ self.entry.text.now }
        ensures behind { self.entry.at ≤ result.at }
        ensures within { self.entry.at < length self.entry.text.now → result.at < length self.entry.text.now }
    {
        let last = self.text.len().saturating_sub(1);
        if self.at >= last {
            return self;
        }
        let first = self.text[self.at + 1..]
            .array_windows::<2>()
            .position(|[byte, behind]| is_outermost(*byte, *behind));
        self.to(first.map_or(last, |pair| self.at + 1 + pair))
    }

    // As many steps from here, or those before one that leads nowhere.
    fn repeated<F: Fn(Place<'a>) -> Place<'a>>(self, step: F, count: usize) -> Place<'a>
        requires { F.IsAlwaysCallable step }
        ensures { (steps : List Unit) × (length steps ≤ count)
            × FoldsTo (λ p _ q. F.post step p q) self.entry steps result }
    {
        let mut place = self;
        for _ in 0..count {
            let next = step(place);
            if next.at == place.at {
                break;
            }
            place = next;
        }
        place
    }

    // So many words on, or the text's end if there are fewer.
    pub fn words_on(self, count: usize) -> Place<'a>
        ensures text { result.text.now ≡ self.entry.text.now }
        ensures behind { self.entry.at ≤ result.at }
    {
        self.repeated(Place::next_beginning, count)
    }

    // So many words back, or the text's beginning if there are fewer.
    pub fn words_back(self, count: usize) -> Place<'a>
        ensures text { result.text.now ≡ self.entry.text.now }
        ensures before { result.at ≤ self.entry.at }
    {
        self.repeated(Place::previous_beginning, count)
    }

    // The last byte of the `count`-th word that ends behind, or of the text if there are fewer.
    pub fn word_ends_on(self, count: usize) -> Place<'a>
        ensures text { result.text.now ≡ self.entry.text.now }
        ensures behind { self.entry.at ≤ result.at }
        ensures within { self.entry.at < length self.entry.text.now → result.at < length self.entry.text.now }
    {
        self.repeated(Place::next_ending, count)
    }
}
