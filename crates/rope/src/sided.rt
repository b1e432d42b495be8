//! The sides of a rope. What is done on one side is done on the other in mirror image.
ghost use Rattle.std.specs.Prelude.{◌≡◌};
ghost use Rattle.rope.specs.Sided.{ordered};

use cells::Ref;

/// The side of a rope on which another is attached.
#[derive(Clone, Copy)]
pub enum Side {
    Left,
    Right,
}

impl Side {
    /// The first and the second, which is on this side, from left to right; and the left and the right as first and second.
    pub fn ordered(self, first: Ref, second: Ref) -> (Ref, Ref)
        ensures { result ≡ ordered self first second }
    {
        match self {
            Side::Right => (first, second),
            Side::Left => (second, first),
        }
    }
}
