ghost use Rattle.std.specs.Prelude.{◌≡◌};

use crate::difference::Difference;

/// Which of two runs.
#[derive(Clone, Copy, Debug, PartialEq, Eq)]
pub enum Side {
    First,
    Second,
}

/// How a name compares in two runs.
#[derive(Clone, Copy, Debug, PartialEq, Eq)]
pub enum Comparison {
    /// It shows the same at every compared tick. `agree` says whether the two runs agree on its
    /// fan-in cone.
    Same { agree: bool },
    /// It differs, first at this tick.
    Differs(Difference),
    /// Only one run has a net with this name.
    OnlyIn(Side),
}

impl Comparison {
    ghost use Rattle.wave_diff.specs.Comparison.{is_same};

    /// Returns whether the name shows the same in both runs, whether they agree on its cone or not.
    pub fn is_same(self) -> bool
        ensures { result ≡ is_same self }
    {
        match self {
            Comparison::Same { agree: _ } => true,
            Comparison::Differs(_) | Comparison::OnlyIn(_) => false,
        }
    }
}
