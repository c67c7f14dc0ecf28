//! Facts about the definitions alone.
ghost use Rattle.std.specs.Prelude.{◌≡◌, ℕ, true, List, IsOkAnd, Ok};
ghost use Rattle.wave_diff.specs.declared.comparison.Comparison.{Comparison};
ghost use Rattle.wave_diff.specs.declared.comparison.Comparison.TheVariants.{Same};
ghost use Rattle.design.specs.Equations.{value_of};
ghost use Rattle.prepared_runs.specs.declared.view.DumpView.{DumpView};
ghost use Rattle.kernel_runs.specs.declared.simulation.Report.{Report};
ghost use Rattle.prepared_runs.specs.Source.{SourceView, design_of_source, dump_of_source};
ghost use Rattle.kernel_runs.specs.Diffs.{AgreeingPair};
ghost use Rattle.kernel_runs.specs.Isolation.{AcceptedRun, AgreeingRuns, EndsShowing};
ghost use Rattle.kernel_runs.specs.Simulated.{simulated};
ghost use Rattle.prepared_runs.specs.Viewed.{ShowsValues};

/// The dump of a run shows, for each shown net and at every tick to the horizon, the value that
/// the defining equations give that net.
pub fn dump_shows_values()
    ensures { (source : SourceView) (view : DumpView) (text : List ℕ) → dump_of_source source view ≡ Ok text →
        IsOkAnd (design_of_source source view.horizon) (λ ready. ShowsValues view ready.1 text) }
{}

/// What picks a run's events plays no part in its dump, which is that of the plain engine.
pub fn picks_play_no_part()
    ensures { (source : SourceView) (view : DumpView) (text : List ℕ) (report : Report) →
        simulated source view ≡ Ok (text, report) → dump_of_source source view ≡ Ok text }
{}

/// Isolation. Two accepted inputs, run to one horizon, agree on the fan-in cone that a net has in
/// the first of them: its parts, pins, timings and stimuli up to the horizon. All else may
/// differ: other nets, their order and numbers, settings, what is shown, and what picks the events.
/// Then both runs end, complete, within as many rounds as the horizon and their least delays allow:
/// each net is known up to the horizon. And both dumps show for that net, at every tick to the
/// horizon, the same value: the one that its defining equations give.
pub fn isolation()
    ensures first { (first second : AcceptedRun) (name : List ℕ) (net other_net : ℕ) →
        AgreeingRuns first second name net other_net →
        EndsShowing first name (value_of first.run.design.circuit net) }
    ensures second { (first second : AcceptedRun) (name : List ℕ) (net other_net : ℕ) →
        AgreeingRuns first second name net other_net →
        EndsShowing second name (value_of first.run.design.circuit net) }
{}

/// If two runs agree on the fan-in cone that a net has in the first of them, the net shows the same in both,
/// at whatever ticks they are compared and whatever else they contain: no other comparison of it can be
/// reported.
pub fn agreeing_cones_show_the_same()
    ensures { (name : List ℕ) (comparison : Comparison) → AgreeingPair name comparison → comparison ≡ Same true }
{}
