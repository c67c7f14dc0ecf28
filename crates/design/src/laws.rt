//! Facts about the defining equations alone.
ghost use Rattle.std.specs.Prelude.{◌≡◌, ℕ, ◌+◌, ◌<◌, ◌≤◌, map, All, Some};
ghost use Rattle.logic3.specs.declared.value.Value.{Value};
ghost use Rattle.logic3.specs.declared.value.Value.TheVariants.{Unknown};
ghost use Rattle.design.specs.Circuit.{Net, Circuit, IsTimed, IsCircuit};
ghost use Rattle.design.specs.Samples.{IsSample, first_sample, last_sample, next_sample, asked_tick, source_tick, first_asker};
ghost use Rattle.design.specs.Equations.{later, equation, equation_at, IsSolution, value_of};
ghost use Rattle.design.specs.OnePeriod.{IsPeriodicSolution, OnePeriodCircuit};

/// The equations of a circuit have exactly one solution.
pub fn one_solution()
    ensures solves { (circuit : Circuit) → IsCircuit circuit → IsSolution circuit (value_of circuit) }
    ensures only { (circuit : Circuit) (signals : ℕ → ℕ → Value) →
        IsCircuit circuit → IsSolution circuit signals →
        (net tick : ℕ) → signals net tick ≡ value_of circuit net tick }
{}

/// If a delay text is of version 1, all flip-flops begin with X and sample at the multiples of one
/// period. What the nets show is the only solution of the equations for that period.
pub fn one_period()
    ensures solves { (made : OnePeriodCircuit) → IsPeriodicSolution made.period made.circuit (value_of made.circuit) }
    ensures only { (made : OnePeriodCircuit) (signals : ℕ → ℕ → Value) → IsPeriodicSolution made.period made.circuit signals →
        (net tick : ℕ) → signals net tick ≡ value_of made.circuit net tick }
{}

/// If the phase is less than the period, the first sample, the last one up to a tick and the next one
/// from a tick on are samples. No other sample is before the first, between the last and the tick, or
/// between the tick and the next.
pub fn samples()
    ensures first { (period phase : ℕ) → phase < period →
        IsSample period phase (first_sample period phase) }
    ensures least { (period phase sample : ℕ) → phase < period → IsSample period phase sample →
        first_sample period phase ≤ sample }
    ensures last { (period phase tick : ℕ) → phase < period → first_sample period phase ≤ tick →
        IsSample period phase (last_sample period phase tick) × (last_sample period phase tick ≤ tick) }
    ensures greatest { (period phase tick sample : ℕ) → phase < period → IsSample period phase sample →
        sample ≤ tick → sample ≤ last_sample period phase tick }
    ensures next { (period phase tick : ℕ) → phase < period →
        IsSample period phase (next_sample period phase tick) × (tick ≤ next_sample period phase tick) }
    ensures soonest { (period phase tick sample : ℕ) → phase < period → IsSample period phase sample →
        tick ≤ sample → next_sample period phase tick ≤ sample }
{}

/// A pin shows what its source showed a wire delay earlier, and X until then. If all wire delays of a net
/// are 0, its equation is the one over its sources themselves.
pub fn wires()
    ensures source { (wire tick at : ℕ) → source_tick wire tick ≡ Some at → at + wire ≡ tick }
    ensures shown { (wire at : ℕ) (signal : ℕ → Value) → later wire signal (at + wire) ≡ signal at }
    ensures before { (wire tick : ℕ) (signal : ℕ → Value) → tick < wire → later wire signal tick ≡ Unknown }
    ensures at_once { (net : Net) (signals : ℕ → ℕ → Value) (tick : ℕ) → IsTimed net →
        All (λ wire. wire ≡ 0) net.wires →
        equation_at (Some net) signals tick ≡ equation net (map signals net.pins) tick }
{}

/// A net's value asks for its pins at least a delay earlier, and a later value doesn't ask for an
/// earlier tick. Before the first tick that asks for a tick of the pins, only earlier ones are asked for.
/// From that one on, some tick is always asked for, at most a delay before the first tick that asks.
pub fn asked_ticks()
    ensures earlier { (net : Net) (tick asked : ℕ) → IsTimed net →
        asked_tick net tick ≡ Some asked → asked + net.timing.delay ≤ tick }
    ensures rising { (net : Net) (tick late asked : ℕ) → IsTimed net →
        asked_tick net tick ≡ Some asked → tick ≤ late →
        (next : ℕ) × (asked_tick net late ≡ Some next) × (asked ≤ next) }
    ensures before { (net : Net) (pin first tick asked : ℕ) → IsTimed net →
        first_asker net pin ≡ Some first → asked_tick net tick ≡ Some asked → tick < first → asked < pin }
    ensures from { (net : Net) (pin first tick : ℕ) → IsTimed net →
        first_asker net pin ≡ Some first → first ≤ tick →
        (asked : ℕ) × (asked_tick net tick ≡ Some asked) × (first ≤ asked + net.timing.delay) }
{}
