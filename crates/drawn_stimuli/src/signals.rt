//! The value that an input has at each tick.
ghost use Rattle.std.specs.Prelude.{◌≡◌, ◌<◌, ◌≤◌, All};
ghost use Rattle.std.specs.List.{list_any};
ghost use Rattle.logic3.specs.Wave.{value_before};
ghost use Rattle.timing_text.specs.Ranges.{most_ticks};
ghost use Rattle.netlist.specs.Netlist.{most_nets};
ghost use Rattle.drawn_stimuli.specs.Signals.{AreRounds, IsDrive, bit, drawn_value, drive_value, drives_value, in_pulse, is_turned, lowest_bit, signal_of, word_after};

use crate::drive::{Drive, Rounds};
use logic3::Value;
use rand_core::SeedableRng;
use rand_core::utils::NextWord;
use rand_pcg::Lcg64Xsh32;

fn bit(one: bool) -> Value
    ensures { result ≡ bit one }
{
    if one { Value::One } else { Value::Zero }
}

/// Returns whether a clock with a first change shows at a tick what it doesn't begin with.
fn is_turned(half: u64, first: u64, tick: u64) -> bool
    requires { 0 < half }
    ensures { result ≡ is_turned half first tick }
{
    first <= tick && (tick - first) / half % 2 == 0
}

/// Returns the value of the lowest of the bits of a number.
fn lowest_bit(ones: u64, unknown: u64) -> Value
    ensures { result ≡ lowest_bit ones unknown }
{
    if unknown % 2 == 1 {
        Value::Unknown
    } else {
        bit(ones % 2 == 1)
    }
}

/// Returns the value that a drive gives one input.
fn drive_value(drive: Drive, tick: u64) -> Value
    requires { IsDrive drive }
    ensures { result ≡ drive_value drive tick }
{
    match drive {
        Drive::Clock { half } => bit(tick / half % 2 == 1),
        Drive::ClockFrom {
            half,
            first,
            begins_high,
        } => {
            let turned = is_turned(half, first, tick);
            bit(if begins_high { !turned } else { turned })
        }
        Drive::Hold(value) => value,
        Drive::HoldBits { ones, unknown } => lowest_bit(ones, unknown),
        Drive::Pulse { .. } => bit(in_pulse(drive, tick)),
    }
}

/// Returns whether a tick is in a pulse.
fn in_pulse(drive: Drive, tick: u64) -> bool
    ensures { result ≡ in_pulse drive tick }
{
    match drive {
        Drive::Pulse { from, to } => from <= tick && tick < to,
        Drive::Clock { .. } | Drive::ClockFrom { .. } | Drive::Hold(_) | Drive::HoldBits { .. } =>
            false,
    }
}

/// Returns whether a tick is in one of these pulses.
fn in_one(pulses: &[Drive], tick: u64) -> bool
    ensures { result ≡ list_any (λ pulse. in_pulse pulse tick) pulses.now }
{
    pulses.iter().any(|pulse| in_pulse(*pulse, tick))
}

/// Returns the value that the drives of an input give.
fn drives_value(first: Drive, others: &[Drive], tick: u64) -> Value
    requires { IsDrive first }
    ensures { result ≡ drives_value first others.now tick }
{
    if in_one(others, tick) {
        Value::One
    } else {
        drive_value(first, tick)
    }
}

/// Returns the word that the generator of this seed gives after `others` others. Takes logarithmic
/// time.
fn word_after(seed: u64, others: u64) -> u32
    ensures { result ≡ word_after seed others }
{
    let mut words = Lcg64Xsh32::seed_from_u64(seed);
    words.advance(others);
    words.next_word()
}

/// Returns the value of the drawn input at this place, which is X if only the named inputs have values.
fn drawn_value(rounds: Rounds, place: u32, tick: u64) -> Value
    requires rounds { AreRounds rounds }
    requires tick { tick ≤ most_ticks }
    ensures { result ≡ drawn_value rounds place tick }
{
    if rounds.draws.only {
        return Value::Unknown;
    }
    let round = tick / rounds.draws.every;
    let word = word_after(rounds.draws.seed, round * rounds.inputs + u64::from(place));
    bit(word % 2 == 1)
}

/// Returns the value of an input with these drives, or without any with this place among the drawn ones.
pub(crate) fn value_of(rounds: Rounds, drives: &[Drive], place: u32, tick: u64) -> Value
    requires rounds { AreRounds rounds }
    requires drives { All IsDrive drives.now }
    requires place { place < most_nets }
    requires tick { tick ≤ most_ticks }
    ensures { result ≡ signal_of rounds drives.now place tick }
{
    match drives.split_first() {
        Some((first, others)) => drives_value(*first, others, tick),
        None => drawn_value(rounds, place, tick),
    }
}

/// Returns the value of an input one tick earlier, and X before tick 0.
pub(crate) fn value_before(rounds: Rounds, drives: &[Drive], place: u32, tick: u64) -> Value
    requires rounds { AreRounds rounds }
    requires drives { All IsDrive drives.now }
    requires place { place < most_nets }
    requires tick { tick ≤ most_ticks }
    ensures { result ≡ value_before (signal_of rounds drives.now place) tick }
{
    if tick == 0 {
        Value::Unknown
    } else {
        value_of(rounds, drives, place, tick - 1)
    }
}
