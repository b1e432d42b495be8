//! What an operator takes that stands before a motion, or is typed twice.
ghost use Rattle.std.specs.Prelude.{◌≡◌, ◌≤◌, ◌↔◌, length, IsTrue, IfSome};

use crate::count::Count;
use crate::motion::{Motion, destination, elsewhere, end_below, find, word_end};
use plain_lines::Place;

#[derive(Clone, Copy)]
pub enum Shape {
    Bytes,
    Lines,
}

// What an operator takes: from a place up to another. Of lines the last one's end is left out.
#[derive(Clone, Copy)]
pub struct Extent {
    pub from: usize,
    pub to: usize,
    pub shape: Shape,
    ghost ordered: { from ≤ to },
}

impl Extent {
    pub fn is_empty(self) -> bool
        ensures { IsTrue result ↔ (self.from ≡ self.to) }
    {
        self.from == self.to
    }
}

// How far `w` takes bytes: once, it stays in a line that has any left.
fn word_reach(here: Place, count: usize) -> Option<Place>
    ensures { IfSome result (λ p. p.text.now ≡ here.entry.text.now) }
{
    let place = elsewhere(here, here.words_on(count))?;
    let end = here.line_end();
    if count == 1 && here.at < end.at && end.at < place.at {
        Some(end)
    } else {
        Some(place)
    }
}

// Up to where a motion by bytes takes them: behind the last one, of those that take it along.
// A line end isn't taken along: `e` at the text's end stops before the last one.
fn reach(here: Place, motion: Motion, count: Count) -> Option<Place>
    ensures { IfSome result (λ p. p.text.now ≡ here.entry.text.now) }
{
    let times = count.times();
    match motion {
        Motion::Right => elsewhere(here, here.right(times)),
        Motion::WordForward => word_reach(here, times),
        Motion::WordEnd => Some(word_end(here, times)?.clamp().right(1)),
        Motion::Find(byte) => {
            let found = find(here, byte, times)?;
            Some(found.to(found.at + 1))
        }
        Motion::Till(byte) => find(here, byte, times),
        Motion::LineEnd => end_below(here, times),
        // these motions keep to no column
        _ => destination(here, 0, motion, count),
    }
}

// The lines of two places of a text and those between.
fn lines_between(one: Place, other: Place) -> Extent
    requires { one.text.now ≡ other.text.now }
    ensures before { (result.from ≤ one.entry.at) × (result.from ≤ other.entry.at) }
    ensures behind { (one.entry.at ≤ result.to) × (other.entry.at ≤ result.to) }
    ensures within { result.to ≤ length one.entry.text.now }
{
    let first = one.to(one.at.min(other.at));
    let last = one.to(one.at.max(other.at));
    Extent {
        from: first.line_start().at,
        to: last.line_end().at,
        shape: Shape::Lines,
    }
}

// What an operator before a motion takes, perhaps nothing; none where the motion can't be done.
pub fn taken_by(here: Place, motion: Motion, count: Count) -> Option<Extent>
    ensures { IfSome result (λ e. (e.from ≤ here.entry.at) × (here.entry.at ≤ e.to) × (e.to ≤ length here.entry.text.now)) }
{
    match motion {
        Motion::Down | Motion::Up | Motion::ToLine | Motion::ToFirstLine => {
            // in any column of its line
            let place = destination(here, 0, motion, count)?;
            Some(lines_between(here, place))
        }
        _ => {
            let place = reach(here, motion, count)?;
            Some(Extent {
                from: here.at.min(place.at),
                to: here.at.max(place.at),
                shape: Shape::Bytes,
            })
        }
    }
}

// As many lines from this one on; none where there are fewer.
pub fn lines_from(here: Place, count: Count) -> Option<Extent>
    ensures { IfSome result (λ e. (e.from ≤ here.entry.at) × (here.entry.at ≤ e.to) × (e.to ≤ length here.entry.text.now)) }
{
    let end = end_below(here, count.times())?;
    Some(lines_between(here, end))
}
