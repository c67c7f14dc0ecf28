//! Facts about the definitions alone.
ghost use Rattle.std.specs.Prelude.{◌≡◌, ◌↔◌, ℕ, ◌+◌, ◌<◌, ◌≤◌, List, length, All, Contains, Some, slice_get, slice_set};
ghost use Rattle.logic3.specs.declared.value.Value.{Value};
ghost use Rattle.logic3.specs.declared.value.Value.TheVariants.{Unknown};
ghost use Rattle.logic3.specs.declared.change.Change.{Change};
ghost use Rattle.logic3.specs.declared.gates.GateKind.{GateKind};
ghost use Rattle.logic3.specs.Gate.{AnswerStays, HasArity, Refines, value_of_gate};
ghost use Rattle.logic3.specs.Rising.{TicksRise};
ghost use Rattle.logic3.specs.Wave.{IsChangeOf, IsWave, joined, value_at, wave_of};

/// If all pins are X, every gate gives X.
pub fn unknown_pins()
    ensures { (kind : GateKind) (pins : List Value) → HasArity kind (length pins) →
        All (λ pin. pin ≡ Unknown) pins → value_of_gate kind pins ≡ Unknown }
{}

/// If a gate gives 0 or 1, setting one X pin, or any number of them at once, to 0 or 1 doesn't
/// change the result.
pub fn known_answer_stays()
    ensures one_pin { (kind : GateKind) (pins : List Value) (place : ℕ) (value : Value) →
        slice_get pins place ≡ Some Unknown → AnswerStays kind pins (slice_set pins place value) }
    ensures any_pins { (kind : GateKind) (pins refined : List Value) →
        Refines pins refined → AnswerStays kind pins refined }
{}

/// The waveform of a signal has a change at exactly those ticks of its span at which the signal
/// differs from its value one tick earlier, and its ticks rise strictly.
pub fn changes_of_a_signal()
    ensures changes { (signal : ℕ → Value) (from to : ℕ) (change : Change) →
        Contains (wave_of signal from to).changes change ↔ IsChangeOf signal from to change }
    ensures rise { (signal : ℕ → Value) (from to : ℕ) → TicksRise (wave_of signal from to).changes }
    ensures is_wave { (signal : ℕ → Value) (from to : ℕ) → IsWave (wave_of signal from to) }
{}

/// The waveform of a signal from one tick up to another shows the signal at each tick of that span
/// and at the one before it.
pub fn signal_back()
    ensures { (signal : ℕ → Value) (from to tick : ℕ) → from ≤ tick + 1 → tick < to →
        value_at (wave_of signal from to) tick ≡ signal tick }
{}

/// Two waveforms from tick 0 to one end are equal exactly if their signals agree before that end.
pub fn equal_waves()
    ensures { (first second : ℕ → Value) (to : ℕ) →
        (wave_of first 0 to ≡ wave_of second 0 to) ↔ ((tick : ℕ) → tick < to → first tick ≡ second tick) }
{}

/// The waveform up to one tick, joined with the changes from there up to a second tick, is the
/// waveform up to the second.
pub fn waves_join()
    ensures { (signal : ℕ → Value) (from mid to : ℕ) → from ≤ mid → mid ≤ to →
        joined (wave_of signal from mid) (wave_of signal mid to).changes ≡ wave_of signal from to }
{}
