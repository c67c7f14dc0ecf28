//! Facts about causes alone.
ghost use Rattle.std.specs.Prelude.{◌≡◌, ◌≢◌, ℕ, suc, true, false, ◌≤◌, ◌<◌, List, length, slice_get, None, Some};
ghost use Rattle.logic3.specs.declared.value.Value.{Value};
ghost use Rattle.logic3.specs.declared.value.Value.TheVariants.{Unknown};
ghost use Rattle.logic3.specs.declared.gates.GateKind.{GateKind};
ghost use Rattle.logic3.specs.Gate.{HasArity, value_of_gate};
ghost use Rattle.design.specs.Circuit.{Circuit, IsCircuit};
ghost use Rattle.causes.specs.Causes.{causes_of, leads_to};
ghost use Rattle.causes.specs.declared.cause.Cause.{Cause};
ghost use Rattle.causes.specs.Deciding.{deciding_place, deciding_value, since, IsControlled, IsGreatest};
ghost use Rattle.causes.specs.Swings.{repeats, swing_start};
ghost use Rattle.causes.specs.Why.{IsWhy};

/// The first cause is that of the net's value at the tick. Each one is the cause of its net's value
/// after those before it and leads to the next one, and the last one leads to none. A cause leads to a
/// net at an earlier tick.
pub fn causes_lead_on()
    ensures why { (circuit : Circuit) (net tick : ℕ) → IsCircuit circuit → IsWhy circuit net tick (causes_of circuit net tick) }
    ensures earlier { (circuit : Circuit) (cause : Cause) (from : ℕ × ℕ) → IsCircuit circuit → leads_to circuit cause ≡ Some from →
        (cause.net < length circuit → from.0 < length circuit) × (from.1 < cause.at) }
{}

/// From the tick since which a signal shows a value it shows that at each tick, and one tick before it
/// showed another. From the tick after the beginning of a swing it shows at each tick what it showed one
/// period before, and at the beginning it doesn't, if that is after tick 0.
pub fn values_last()
    ensures holds { (signal : ℕ → Value) (tick at : ℕ) → since signal tick ≤ at → at ≤ tick → signal at ≡ signal tick }
    ensures changed { (signal : ℕ → Value) (tick before : ℕ) → since signal tick ≡ suc before → signal before ≢ signal tick }
    ensures swings { (signal : ℕ → Value) (period tick at : ℕ) →
        swing_start signal period tick < at → at ≤ tick → repeats signal period at ≡ true }
    ensures begins { (signal : ℕ → Value) (period tick : ℕ) →
        0 < swing_start signal period tick → repeats signal period (swing_start signal period tick) ≡ false }
{}

/// If a gate shows X, the pin that decides shows X. If a pin shows the controlling value of a gate, the
/// gate shows the same for all values of the other pins. If no pin decides by its value, none changed
/// later than the one that decides.
pub fn pins_that_decide()
    ensures unknown { (kind : GateKind) (values : List Value) (since : List ℕ) → HasArity kind (length values) →
        value_of_gate kind values ≡ Unknown → slice_get values (deciding_place kind values since) ≡ Some Unknown }
    ensures settles { (kind : GateKind) (values others : List Value) →
        IsControlled kind values → IsControlled kind others → value_of_gate kind others ≡ value_of_gate kind values }
    ensures last { (kind : GateKind) (values : List Value) (since : List ℕ) → deciding_value kind values ≡ None →
        IsGreatest since (deciding_place kind values since) }
{}
