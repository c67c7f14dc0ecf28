//! Since when a net swings.
ghost use Rattle.std.specs.Prelude.{◌≡◌, ◌<◌, length};
ghost use Rattle.design.specs.Equations.{signals_in};
ghost use Rattle.causes.specs.Swings.{repeats, swing, swing_start, unless_swing};

use crate::cause::Reason;
use design::plain::shown;
use logic3::Waveform;

/// Returns whether a net shows what it showed a period before.
fn repeats(waves: &[Waveform], net: u32, period: u64, tick: u64) -> bool
    requires { net < length waves.now }
    ensures { result ≡ repeats (signals_in waves.now net) period tick }
{
    period <= tick && shown(waves, net, tick) == shown(waves, net, tick - period)
}

/// Returns the last tick, up to a tick, at which a net doesn't show what it showed a period before.
fn swing_start(waves: &[Waveform], net: u32, period: u64, tick: u64) -> u64
    requires { net < length waves.now }
    ensures { result ≡ swing_start (signals_in waves.now net) period tick }
{
    let mut start = tick;
    while start > 0 && repeats(waves, net, period, start) {
        start -= 1;
    }
    start
}

/// Returns the reason for a value that a net took at one tick, and again at a later one: its swing, if
/// that began before the first of them, else the given reason.
fn swing(waves: &[Waveform], net: u32, from: u64, again: u64, reason: Reason) -> Reason
    requires { net < length waves.now }
    ensures { result ≡ swing (signals_in waves.now net) from reason again }
{
    let period = again.saturating_sub(from);
    let since = swing_start(waves, net, period, again);
    if since < from {
        Reason::Swings { since, period }
    } else {
        reason
    }
}

/// Returns the reason for a value that a net took at a tick: the given one, or its swing if a pin decides
/// and the net took the value again.
pub fn unless_swing(
    waves: &[Waveform],
    net: u32,
    from: u64,
    again: Option<u64>,
    reason: Reason,
) -> Reason
    requires { net < length waves.now }
    ensures { result ≡ unless_swing (signals_in waves.now net) from again reason }
{
    match reason {
        Reason::Pin(_) => match again {
            Some(again) => swing(waves, net, from, again, reason),
            None => reason,
        },
        _ => reason,
    }
}
