//! The count of a command.
ghost use Rattle.std.specs.Prelude.{◌≡◌, ◌≤◌, None, MatchOption};

// The digits of one count stop here.
const MOST: usize = 9_999;

// None as long as no digit was typed.
#[derive(Clone, Copy)]
pub struct Count(Option<usize>);

impl Count {
    pub fn none() -> Count
        ensures { result.0 ≡ None }
    {
        Count(None)
    }

    pub fn has_begun(self) -> bool {
        self.0.is_some()
    }

    pub fn with_digit(self, digit: u8) -> Count
        ensures { MatchOption result.0 ⊥ (λ n. n ≤ 9999) }
    {
        let tens = self.0.unwrap_or(0).saturating_mul(10);
        Count(Some(tens.saturating_add(digit as usize).min(MOST)))
    }

    // How often, which is once where no count was typed.
    pub fn times(self) -> usize {
        self.0.unwrap_or(1)
    }

    pub fn given(self) -> Option<usize> {
        self.0
    }

    // The count in all, of one before an operator and one behind it.
    pub fn combined(self, behind: Count) -> Count {
        Count(match (self.0, behind.0) {
            (Some(n), Some(m)) => Some(n.saturating_mul(m)),
            (one, other) => one.or(other),
        })
    }
}
