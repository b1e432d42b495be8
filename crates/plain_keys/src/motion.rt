//! Where motions lead.
ghost use Rattle.std.specs.Prelude.{◌≡◌, ◌<◌, ◌≤◌, length, IfSome, MatchOption};

use crate::count::Count;
use plain_lines::Place;

#[derive(Clone, Copy)]
pub enum Motion {
    Left,
    Right,
    Down,
    Up,
    LineStart,
    FirstNonblank,
    LineEnd,
    WordForward,
    WordBack,
    WordEnd,
    ToLine,
    ToFirstLine,
    Find(u8),
    Till(u8),
}

// A motion is done only where it leads elsewhere.
pub fn elsewhere<'a>(here: Place<'a>, place: Place<'a>) -> Option<Place<'a>>
    ensures { MatchOption result (place.entry.at ≡ here.entry.at)
        (λ p. (p.text.now ≡ place.entry.text.now) × (p.at ≡ place.entry.at)) }
{
    if place.at == here.at {
        None
    } else {
        Some(place)
    }
}

// A column of a line, if there are as many lines.
fn in_line(here: Place, line: usize, column: usize) -> Option<Place>
    ensures { IfSome result (λ p. p.text.now ≡ here.entry.text.now) }
{
    Some(here.nth_line(line)?.in_column(column))
}

// The end of the line that is so many less 1 below.
pub fn end_below(here: Place, count: usize) -> Option<Place>
    ensures { IfSome result (λ p. p.text.now ≡ here.entry.text.now) }
{
    let below = count.saturating_sub(1);
    let start = here.nth_line(here.line().saturating_add(below))?;
    Some(start.line_end())
}

// None where nothing of the text is behind.
pub fn word_end(here: Place, count: usize) -> Option<Place>
    ensures { IfSome result (λ p. (p.text.now ≡ here.entry.text.now) × (p.at < length p.text.now)) }
{
    if here.text.len() - here.at <= 1 {
        return None;
    }
    Some(here.word_ends_on(count))
}

// The first byte that is not blank of a line counted from 1, or of the last line.
fn to_line(here: Place, number: usize) -> Place
    ensures { result.text.now ≡ here.entry.text.now }
{
    let last = here.to(here.text.len());
    let start = here.nth_line(number.saturating_sub(1)).unwrap_or(last);
    start.first_nonblank()
}

// The `count`-th of the bytes in the line, behind the place, that equal `byte`.
pub fn find(here: Place, byte: u8, count: usize) -> Option<Place>
    ensures { IfSome result (λ p. (p.text.now ≡ here.entry.text.now) × (here.entry.at < p.at) × (p.at < length p.text.now)) }
{
    let (behind, _) = here.text[here.at..here.line_end().at]
        .iter()
        .enumerate()
        .skip(1)
        .filter(|(_, other)| **other == byte)
        .nth(count.saturating_sub(1))?;
    Some(here.to(here.at + behind))
}

// Where the cursor goes by a motion; none where it can't be done. `column` is the one to keep to.
pub fn destination(here: Place, column: usize, motion: Motion, count: Count) -> Option<Place>
    ensures { IfSome result (λ p. p.text.now ≡ here.entry.text.now) }
{
    let times = count.times();
    match motion {
        Motion::Left => elsewhere(here, here.left(times)),
        Motion::Right => elsewhere(here, here.right(times).clamp()),
        Motion::Down => in_line(here, here.line().saturating_add(times), column),
        Motion::Up => in_line(here, here.line().checked_sub(times)?, column),
        Motion::LineStart => Some(here.line_start()),
        Motion::FirstNonblank => Some(here.first_nonblank()),
        Motion::LineEnd => Some(end_below(here, times)?.clamp()),
        Motion::WordForward => elsewhere(here, here.words_on(times).clamp()),
        Motion::WordBack => elsewhere(here, here.words_back(times)),
        Motion::WordEnd => Some(word_end(here, times)?.clamp()),
        Motion::ToLine => Some(to_line(here, count.given().unwrap_or(usize::MAX))),
        Motion::ToFirstLine => Some(to_line(here, times)),
        Motion::Find(byte) => find(here, byte, times),
        Motion::Till(byte) => {
            let found = find(here, byte, times)?;
            Some(found.to(found.at - 1))
        }
    }
}
