//! What is noted of nets.
ghost use Rattle.std.specs.Prelude.{◌≡◌, ◌+◌, ◌<◌, length, nat_lt};
ghost use Rattle.std.specs.List.{list_any};
ghost use Rattle.logic3.specs.declared.change.Change.{Change};
ghost use Rattle.design.specs.Equations.{value_of, waves_of};
ghost use Rattle.plain_runs.specs.Remarks.{is_late, is_noted, is_undriven, is_unknown, net_is};
ghost use Rattle.plain_runs.specs.Text.{words_of};

use design::Design;
use logic3::{Change, Waveform};
use timing_text::Horizon;

/// What is noted of some nets.
#[derive(Clone, Copy)]
pub(crate) enum Remark {
    /// Inputs that have no stimulus, and so are X throughout.
    Undriven,
    /// Inputs that have a stimulus after the horizon.
    Late,
    /// Other nets that are X throughout.
    Unknown,
}

impl Remark {
    /// Returns what a line says of the nets that it names.
    pub(crate) fn words(self) -> &'static str
        ensures { result.now ≡ words_of self }
    {
        match self {
            Remark::Undriven => "inputs without a stimulus, X throughout",
            Remark::Late => "inputs whose stimuli after the horizon are ignored",
            Remark::Unknown => "other nets that are X throughout",
        }
    }

    /// Returns whether a net is noted, given the waveforms of all nets to the horizon.
    pub(crate) fn is_noted(
        self,
        design: &Design,
        horizon: Horizon,
        waves: &[Waveform],
        net: u32,
    ) -> bool
        requires net { net < length design.now.circuit }
        requires waves { waves.now ≡ waves_of design.now.circuit (horizon + 1) }
        ensures { result ≡ is_noted self horizon design.now.circuit net }
    {
        match self {
            Remark::Undriven => is_undriven(design, net),
            Remark::Late => is_late(design, horizon, net),
            Remark::Unknown => !is_undriven(design, net) && is_unknown(design, horizon, waves, net),
        }
    }
}

/// Whether a net is an input that has no stimulus.
pub(crate) fn is_undriven(design: &Design, net: u32) -> bool
    requires { net < length design.now.circuit }
    ensures { result ≡ net_is is_undriven design.now.circuit net }
{
    design.part(net).is_input() && design.stimuli(net).is_empty()
}

/// Whether a net has a stimulus after the horizon.
fn is_late(design: &Design, horizon: Horizon, net: u32) -> bool
    requires { net < length design.now.circuit }
    ensures { result ≡ net_is (is_late horizon) design.now.circuit net }
{
    has_change_past(design.stimuli(net), horizon.ticks())
}

/// Whether one of these changes is after a tick.
fn has_change_past(changes: &[Change], tick: u64) -> bool
    ensures { result ≡ list_any (λ (change : Change). nat_lt tick change.tick) changes.now }
{
    changes.iter().any(|change| tick < change.tick)
}

/// Whether a net is X throughout.
fn is_unknown(design: &Design, horizon: Horizon, waves: &[Waveform], net: u32) -> bool
    requires net { net < length design.now.circuit }
    requires waves { waves.now ≡ waves_of design.now.circuit (horizon + 1) }
    ensures { result ≡ is_unknown horizon (value_of design.now.circuit net) }
{
    waves[net as usize].changes().is_empty()
}
