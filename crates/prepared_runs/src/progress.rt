//! Receivers of reports of a run's progress.
use timing_text::Horizon;

/// A receiver of reports of a run's progress.
pub trait Progress {
    ghost use Rattle.std.specs.Prelude.{ℕ, ◌+◌, ◌≤◌, List, [], ◌∷◌, ◌++◌};

    // The reports of these numbers of ticks, in this order, for a run up to this horizon led from the
    // first state to the second.
    ghost reports: { ℕ → Self → List ℕ → Self → Type 0 };

    /// Receives the report that `known` ticks of every net are known, in a run up to this horizon.
    fn report(&mut self, known: u64, horizon: Horizon)
        requires { known ≤ horizon + 1 }
        ensures { reports horizon self.old (known ∷ []) self.new };

    ghost nothing: { (horizon : ℕ) (state : Self) → reports horizon state [] state };

    ghost joined: { (horizon : ℕ) (old mid new : Self) (first second : List ℕ) →
        reports horizon old first mid → reports horizon mid second new → reports horizon old (first ++ second) new };
}

/// Ignores all reports.
#[derive(Drop)]
pub struct Silent;

impl Progress for Silent {
    ghost use Rattle.std.specs.Prelude.{⊤};

    ghost reports = { λ _ _ _ _. ⊤ };

    fn report(&mut self, _known: u64, _horizon: Horizon) {}

    ghost nothing = { λ _ _. tt };

    ghost joined = { λ _ _ _ _ _ _ _ _. tt };
}
