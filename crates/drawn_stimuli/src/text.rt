//! The stimulus text of drives and draws.
ghost use Rattle.std.specs.Prelude.{◌≡◌, ◌≢◌, ◌≤◌, ◌++◌, All, length, map, filter, IfOk, OnOk, Ok, Err};
ghost use Rattle.std.specs.Result.{result_map_both};
ghost use Rattle.texts.specs.Text.{longest_text};
ghost use Rattle.netlist.specs.Netlist.{NetlistView};
ghost use Rattle.timing_text.specs.Ranges.{most_ticks};
ghost use Rattle.drawn_stimuli.specs.declared.input.InputNet.{InputNet as TheInputNet};
ghost use Rattle.drawn_stimuli.specs.Signals.{AreRounds};
ghost use Rattle.drawn_stimuli.specs.Inputs.{IsInputNet, drawn_count, seen_input};
ghost use Rattle.drawn_stimuli.specs.Given.{seen_drive};
ghost use Rattle.drawn_stimuli.specs.StimulusText.{stimuli_text, lines_or_fault, tick_text};
ghost use Rattle.drawn_stimuli.specs.Ticks.{is_moving};

use crate::drive::{Draws, Driven, Rounds};
use crate::fault::DriveFault;
use crate::given::input_drives;
use crate::input::{InputNet, drives_by_net, inputs_of, is_drawn};
use crate::lines::push_tick;
use crate::ticks::{moving_inputs, next_tick};
use netlist::Netlist;
use std::alloc::{AllocError, Global};
use texts::LONGEST_TEXT;
use timing_text::Horizon;

/// Adds the lines of a tick: at a tick of draws any input may change, and at others only those with a
/// clock or a pulse.
fn push_due(
    text: &mut Vec<u8>,
    netlist: &Netlist,
    inputs: &[InputNet<'_>],
    moving: &[InputNet<'_>],
    rounds: Rounds,
    tick: u64,
) -> Result<(), AllocError>
    requires rounds { AreRounds rounds }
    requires inputs { All (IsInputNet netlist.now) inputs.now }
    requires moving { moving.now ≡ filter (λ (input : TheInputNet). is_moving input.drives.now) inputs.now }
    requires tick { tick ≤ most_ticks }
    ensures { OnOk result (text.new.items
        ≡ text.old.items ++ tick_text rounds (map (seen_input netlist.now) inputs.now) tick) }
{
    if tick % rounds.draws.every == 0 {
        push_tick(text, netlist, inputs, rounds, tick)
    } else {
        push_tick(text, netlist, moving, rounds, tick)
    }
}

/// Returns the lines of these inputs at each tick up to the horizon, unless the text is too long.
fn lines_text(
    alloc: Global,
    netlist: &Netlist,
    inputs: &[InputNet<'_>],
    rounds: Rounds,
    horizon: u64,
) -> Result<Vec<u8>, DriveFault>
    requires rounds { AreRounds rounds }
    requires inputs { All (IsInputNet netlist.now) inputs.now }
    requires horizon { horizon ≤ most_ticks }
    ensures exact { result ≢ Err DriveFault.Memory →
        result_map_both (λ text. text.items) (λ fault. fault) result
        ≡ lines_or_fault rounds (map (seen_input netlist.now) inputs.now) horizon }
    ensures short { IfOk result (λ text. length text.items ≤ longest_text) }
{
    let moving = moving_inputs(alloc, inputs)?;
    let mut text = Vec::new(alloc);
    let mut tick = 0;
    while tick <= horizon {
        push_due(&mut text, netlist, inputs, moving.as_slice(), rounds, tick)?;
        if text.len() > LONGEST_TEXT {
            return Err(DriveFault::TooLong);
        }
        tick = next_tick(rounds.draws.every, moving.as_slice(), tick);
    }
    Ok(text)
}

/// Returns the number of drawn inputs.
fn drawn_count(inputs: &[InputNet<'_>]) -> u64
    ensures count { (netlist : NetlistView) → result ≡ drawn_count (map (seen_input netlist) inputs.now) }
    ensures few { result ≤ length inputs.now }
{
    inputs.iter().filter(|input| is_drawn(input.drives)).count() as u64
}

/// Returns the stimulus text of a netlist: for each input that drives name, the changes that they
/// give it, and for each other input the drawn values, if any are to be drawn. There is a line `TICK NAME VALUE` only where a
/// value changes, from tick 0, before which each input is X, up to the horizon, in the order of ticks
/// and then of inputs.
///
/// Visits only the ticks at which a value may change. At each it takes a step for each clock and each
/// pulse, and at ticks of draws also for each other input.
///
/// # Errors
/// The first fault, in the order of [`DriveFault`], or [`DriveFault::Memory`] if an allocation fails.
/// [`DriveFault::BadEvery`] is returned before anything is allocated.
pub fn stimuli_text(
    alloc: Global,
    netlist: &Netlist,
    drives: &[Driven<'_>],
    draws: Draws,
    horizon: Horizon,
) -> Result<Vec<u8>, DriveFault>
    ensures exact { result ≢ Err DriveFault.Memory →
        result_map_both (λ text. text.items) (λ fault. fault) result
        ≡ stimuli_text netlist.now (map seen_drive drives.now) draws horizon }
    ensures at_once { draws.every ≡ 0 → result ≡ Err DriveFault.BadEvery }
    ensures short { IfOk result (λ text. length text.items ≤ longest_text) }
{
    if draws.every == 0 {
        return Err(DriveFault::BadEvery);
    }
    let parts = input_drives(alloc, netlist, drives)?;
    let by_net = drives_by_net(alloc, netlist, parts.as_slice())?;
    let inputs = inputs_of(alloc, netlist, by_net.as_slice())?;
    let rounds = Rounds {
        draws,
        inputs: drawn_count(inputs.as_slice()),
    };
    lines_text(alloc, netlist, inputs.as_slice(), rounds, horizon.ticks())
}
