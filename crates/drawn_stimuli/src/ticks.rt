//! The ticks at which a value may change.
ghost use Rattle.std.specs.Prelude.{◌≡◌, ◌<◌, All, filter, IfOk};
ghost use Rattle.drawn_stimuli.specs.declared.input.InputNet.{InputNet as TheInputNet};
ghost use Rattle.drawn_stimuli.specs.Signals.{IsDrive};
ghost use Rattle.drawn_stimuli.specs.Ticks.{is_moving, moves, next_change, next_multiple, next_of, next_tick};

use crate::drive::Drive;
use crate::input::InputNet;
use std::alloc::{AllocError, Global};

/// Returns the first multiple of `step` after a tick.
fn next_multiple(step: u64, tick: u64) -> u64
    requires { 0 < step }
    ensures { result ≡ next_multiple step tick }
{
    (tick - tick % step).saturating_add(step)
}

/// Returns whether a drive may change.
fn moves(drive: Drive) -> bool
    ensures { result ≡ moves drive }
{
    match drive {
        Drive::Clock { .. } | Drive::ClockFrom { .. } | Drive::Pulse { .. } => true,
        Drive::Hold(_) | Drive::HoldBits { .. } => false,
    }
}

/// Returns whether an input with these drives may change at ticks other than those of draws.
fn is_moving(drives: &[Drive]) -> bool
    ensures { result ≡ is_moving drives.now }
{
    drives.iter().any(|drive| moves(*drive))
}

/// Returns the inputs that may change at ticks other than those of draws, in order.
pub(crate) fn moving_inputs<'d>(
    alloc: Global,
    inputs: &[InputNet<'d>],
) -> Result<Vec<InputNet<'d>>, AllocError>
    ensures { IfOk result (λ moving.
        moving.items ≡ filter (λ (input : TheInputNet). is_moving input.drives.now) inputs.now) }
{
    let mut moving = Vec::new(alloc);
    for input in inputs {
        if is_moving(input.drives) {
            moving.push(*input)?;
        }
    }
    Ok(moving)
}

/// Returns the first tick after this one at which a drive may change.
fn next_change(drive: Drive, tick: u64) -> u64
    requires { IsDrive drive }
    ensures { result ≡ next_change drive tick }
{
    match drive {
        Drive::Clock { half } => next_multiple(half, tick),
        Drive::ClockFrom { first, .. } if tick < first => first,
        Drive::ClockFrom { half, first, .. } => next_multiple(half, tick - first).saturating_add(
            first,
        ),
        Drive::Pulse { from, .. } if tick < from => from,
        Drive::Pulse { to, .. } if tick < to => to,
        Drive::Pulse { .. } | Drive::Hold(_) | Drive::HoldBits { .. } => u64::MAX,
    }
}

/// Returns the first tick after this one at which one of these drives may change.
fn next_of(drives: &[Drive], tick: u64) -> u64
    requires { All IsDrive drives.now }
    ensures { result ≡ next_of drives.now tick }
{
    let mut next = u64::MAX;
    for drive in drives {
        next = next.min(next_change(*drive, tick));
    }
    next
}

/// Returns the first tick after this one at which one of these inputs may change, or values are drawn.
pub(crate) fn next_tick(every: u64, inputs: &[InputNet<'_>], tick: u64) -> u64
    requires every { 0 < every }
    requires drives { All (λ (input : TheInputNet). All IsDrive input.drives.now) inputs.now }
    ensures { result ≡ next_tick every inputs.now tick }
{
    let mut next = next_multiple(every, tick);
    for input in inputs {
        next = next.min(next_of(input.drives, tick));
    }
    next
}
