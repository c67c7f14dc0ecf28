//! The tick at which a net reads its pins.
ghost use Rattle.std.specs.Prelude.{◌≡◌, ◌<◌, ◌≤◌, ◌+◌};
ghost use Rattle.netlist.specs.declared.part.Part.TheVariants.{Flop};
ghost use Rattle.timing_text.specs.Ranges.{most_delay, most_ticks, HasTiming};
ghost use Rattle.design.specs.Samples.{first_sample, last_sample, next_sample, asked_of_part, asker_of_part};

use netlist::Part;
use timing_text::Timing;

/// Returns the tick of its pins that decides what a net shows at a tick.
///
/// `None` for an input, before a gate's delay is over, and before a flip-flop's first sample shows.
pub fn asked_tick(part: Part, timing: Timing, tick: u64) -> Option<u64>
    requires { HasTiming part timing }
    ensures { result ≡ asked_of_part part timing tick }
{
    match part {
        Part::Input => None,
        Part::Gate(_) => tick.checked_sub(timing.delay),
        Part::Flop => sampled_tick(timing, tick),
    }
}

/// Returns the sample tick that a flip-flop shows at a tick; `None` before the first one shows.
fn sampled_tick(timing: Timing, tick: u64) -> Option<u64>
    requires { HasTiming Flop timing }
    ensures { result ≡ asked_of_part Flop timing tick }
{
    let sampled = tick.checked_sub(timing.delay)?;
    if sampled < first_sample(timing.period, timing.phase) {
        return None;
    }
    Some(last_sample(timing.period, timing.phase, sampled))
}

/// Returns the first tick at which a net asks for this tick of its pins or a later one.
///
/// `None` for an input.
pub fn first_asker(part: Part, timing: Timing, tick: u64) -> Option<u64>
    requires timing { HasTiming part timing }
    requires tick { tick ≤ most_ticks + 1 + most_delay }
    ensures { result ≡ asker_of_part part timing tick }
{
    match part {
        Part::Input => None,
        Part::Gate(_) => Some(tick + timing.delay),
        Part::Flop => Some(next_sample(timing.period, timing.phase, tick) + timing.delay),
    }
}

/// Returns the first tick of at least 1 whose remainder by the period is the phase.
fn first_sample(period: u64, phase: u64) -> u64
    ensures { result ≡ first_sample period phase }
{
    if phase == 0 { period } else { phase }
}

/// Returns the last such tick up to this one. The first isn't after this one.
fn last_sample(period: u64, phase: u64, tick: u64) -> u64
    requires some { 0 < period }
    requires phase { phase ≤ tick }
    ensures { result ≡ last_sample period phase tick }
{
    phase + (tick - phase) / period * period
}

/// Returns the next such tick, from this one on.
fn next_sample(period: u64, phase: u64, tick: u64) -> u64
    requires some { 0 < period }
    requires most { period ≤ most_ticks }
    requires phase { phase < period }
    requires tick { tick ≤ most_ticks + 1 + most_delay }
    ensures { result ≡ next_sample period phase tick }
{
    let periods = tick.saturating_sub(phase).div_ceil(period);
    first_sample(period, phase).max(phase + periods * period)
}
