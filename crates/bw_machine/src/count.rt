//! Ghost state: a count for contracts alone. It has no bytes, and its calls do nothing at run time.
ghost use Rattle.std.specs.Prelude.{◌≡◌, ◌+◌, ℕ};
ghost use Rattle.std.specs.Borrow.{ftrue};

use std::marker::Model;

/// Number of times that something was done, from one point on.
#[derive(Drop)]
pub struct Count {
    pub ghost steps: { ℕ },
}

impl Model for Count {
    ghost also_owns = { λ _. ftrue };
}

impl Count {
    /// A count of 0.
    pub fn none() -> Count
        ensures { result.steps ≡ 0 }
    {
        Count {}
    }

    /// One more.
    pub fn one_more(&self) -> Count
        ensures { result.steps ≡ self.now.steps + 1 }
    {
        Count {}
    }

    /// As many as two counts together.
    pub fn with(&self, other: &Count) -> Count
        ensures { result.steps ≡ self.now.steps + other.now.steps }
    {
        Count {}
    }
}
