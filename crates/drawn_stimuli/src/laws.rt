//! Facts about the definitions alone.
ghost use Rattle.std.specs.Prelude.{◌≡◌, ℕ, ◌+◌, ◌≤◌, List, [], ◌∷◌, All, Ok, length, map, true, false};
ghost use Rattle.std.specs.List.{range_with_len};
ghost use Rattle.rand_core.specs.Pcg32Seed.{pcg32_seed};
ghost use Rattle.rand_core.specs.Steps.{first_words};
ghost use Rattle.rand_pcg.specs.Pcg.{pcg32, pcg32_of_seed};
ghost use Rattle.logic3.specs.Wave.{changes_between};
ghost use Rattle.netlist.specs.Netlist.{NetlistView};
ghost use Rattle.timing_text.specs.Ranges.{most_ticks};
ghost use Rattle.timing_text.specs.Stimuli.{stimuli_of};
ghost use Rattle.drawn_stimuli.specs.Inputs.{InputDriveView, ForAccepted, InputView, drives_named, input_names, inputs_of, is_drawn};
ghost use Rattle.drawn_stimuli.specs.declared.drive.Drive.TheVariants.{HoldBits};
ghost use Rattle.drawn_stimuli.specs.Given.{bit_values, parts_from, values_at};
ghost use Rattle.drawn_stimuli.specs.Signals.{GiveTheirPulses, is_pulse, word_after};
ghost use Rattle.drawn_stimuli.specs.StimulusText.{Drawing, changes_drawn, inputs_drawn, stimuli_drawn, text_drawn, value_drawn, value_read};

/// The reader of stimuli accepts the text for its netlist, and reads from it the changes that it was
/// made of. For each input of the netlist, in order, the changes that are read are those of its
/// signal, one wherever the value changes. So the input shows exactly the values of its signal, at
/// each tick up to the horizon.
pub fn texts_read_back()
    ensures taken { (drawing : Drawing) (text : List ℕ) → drawing.horizon ≤ most_ticks → text_drawn drawing ≡ Ok text →
        stimuli_of drawing.netlist text ≡ Ok (stimuli_drawn drawing) }
    ensures inputs { (netlist : NetlistView) (drives : List InputDriveView) →
        map (λ (input : InputView). input.name) (inputs_of netlist drives)
        ≡ input_names netlist }
    ensures changes { (drawing : Drawing) → All (λ input. changes_drawn drawing input
        ≡ changes_between (value_drawn drawing input) 0 (drawing.horizon + 1)) (inputs_drawn drawing) }
    ensures values { (drawing : Drawing) (tick : ℕ) → tick ≤ drawing.horizon → All (λ input.
        value_read drawing input tick ≡ value_drawn drawing input tick) (inputs_drawn drawing) }
{}

/// If no drive is faulty, each takes effect, for each of its inputs. The input with the name of a clock or of a held value has
/// exactly this drive. The input with the name of a pulse is 1 in each pulse with this name, and 0 elsewhere.
pub fn drives_count()
    ensures alone { ForAccepted (λ drives driven. is_pulse driven.drive ≡ false →
        drives_named drives driven.name ≡ driven.drive ∷ []) }
    ensures pulses { ForAccepted (λ drives driven. is_pulse driven.drive ≡ true →
        GiveTheirPulses (drives_named drives driven.name)) }
{}

/// Inputs that hold a number together show its bits at each tick, the first input the most significant one.
pub fn held_bits()
    ensures { (place ones unknown tick : ℕ) (names : List (List ℕ)) →
        values_at tick (parts_from place (HoldBits ones unknown) names) ≡ bit_values ones unknown (length names) }
{}

/// Where only the inputs that drives name have values, the text has no change of another input, which
/// therefore is X.
pub fn only_named()
    ensures { (drawing : Drawing) → drawing.draws.only ≡ true → All (λ (input : InputView).
        is_drawn input.drives ≡ true → changes_drawn drawing input ≡ []) (inputs_drawn drawing) }
{}

/// The words that are drawn are those of the generator, in order.
pub fn words_in_order()
    ensures { (seed count : ℕ) →
        first_words pcg32 count (pcg32_of_seed (pcg32_seed 16 seed)) ≡ map (word_after seed) (range_with_len 0 count) }
{}
