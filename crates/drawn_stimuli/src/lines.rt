//! The lines of a stimulus text.
ghost use Rattle.std.specs.Prelude.{◌≡◌, ◌≤◌, ◌++◌, All, map, OnOk};
ghost use Rattle.timing_text.specs.Ranges.{most_ticks};
ghost use Rattle.drawn_stimuli.specs.Signals.{AreRounds};
ghost use Rattle.drawn_stimuli.specs.Inputs.{IsInputNet, seen_input};
ghost use Rattle.drawn_stimuli.specs.StimulusText.{change_line, input_text, tick_text};

use crate::drive::Rounds;
use crate::input::InputNet;
use crate::signals::{value_before, value_of};
use logic3::Value;
use netlist::Netlist;
use std::alloc::AllocError;
use texts::push_number;

/// Adds the line of a change.
fn push_change(text: &mut Vec<u8>, tick: u64, name: &[u8], value: Value) -> Result<(), AllocError>
    ensures { OnOk result (text.new.items
        ≡ text.old.items ++ change_line (record { name = name.now; change = record { tick = tick; value = value } })) }
{
    push_number(text, tick)?;
    text.extend_from_slice(b" ")?;
    text.extend_from_slice(name)?;
    text.extend_from_slice(b" ")?;
    text.extend_from_slice(value.text().as_bytes())?;
    text.extend_from_slice(b"\n")?;
    Ok(())
}

/// Adds the line of an input at a tick, if it changes there.
fn push_input(
    text: &mut Vec<u8>,
    netlist: &Netlist,
    input: &InputNet<'_>,
    rounds: Rounds,
    tick: u64,
) -> Result<(), AllocError>
    requires rounds { AreRounds rounds }
    requires input { IsInputNet netlist.now input.now }
    requires tick { tick ≤ most_ticks }
    ensures { OnOk result (text.new.items
        ≡ text.old.items ++ input_text rounds tick (seen_input netlist.now input.now)) }
{
    let value = value_of(rounds, input.drives, input.place, tick);
    if value == value_before(rounds, input.drives, input.place, tick) {
        return Ok(());
    }
    push_change(text, tick, netlist.name(input.net), value)
}

/// Adds the lines of these inputs at a tick.
pub(crate) fn push_tick(
    text: &mut Vec<u8>,
    netlist: &Netlist,
    inputs: &[InputNet<'_>],
    rounds: Rounds,
    tick: u64,
) -> Result<(), AllocError>
    requires rounds { AreRounds rounds }
    requires inputs { All (IsInputNet netlist.now) inputs.now }
    requires tick { tick ≤ most_ticks }
    ensures { OnOk result (text.new.items
        ≡ text.old.items ++ tick_text rounds (map (seen_input netlist.now) inputs.now) tick) }
{
    for input in inputs {
        push_input(text, netlist, input, rounds, tick)?;
    }
    Ok(())
}
