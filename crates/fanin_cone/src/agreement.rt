//! Whether two designs agree on a net's fan-in cone.
ghost use Rattle.std.specs.Prelude.{◌≡◌, ◌∷◌, [], ◌<◌, ◌↔◌, length, All, IfOk, IfSome, IsSome, IsTrue, slice_get, Some};
ghost use Rattle.logic3.specs.Rising.{TicksRise};
ghost use Rattle.logic3.specs.Wave.{changes_until};
ghost use Rattle.design.specs.Circuit.{Net};
ghost use Rattle.design.specs.Design.{IsDesign};
ghost use Rattle.netlist.specs.Netlist.{name_at};
ghost use Rattle.fanin_cone.specs.Cone.{pin_names, InCone};
ghost use Rattle.fanin_cone.specs.Agreement.{net_of, IsSameNet, AgreesAt, AgreesOn};

use crate::cones::cone;
use design::Design;
use logic3::{Change, changes_until};
use std::alloc::{AllocError, Global};
use timing_text::Horizon;

/// Returns whether two designs agree, at ticks up to the horizon, on the fan-in cone that the net with
/// this name has in the first one; `None` if one of them has no net with this name.
///
/// They agree if each name of the cone is a net of both, with the same part, the same names at its pins in
/// order, the same delay, the same period, phase and initial value if it is a flip-flop, the same wire
/// delays at its pins in order, and the same stimuli at ticks up to the horizon. The numbers of nets may
/// differ.
///
/// # Errors
/// `AllocError` if an allocation fails.
pub fn agree(
    alloc: Global,
    first: &Design,
    second: &Design,
    name: &[u8],
    horizon: Horizon,
) -> Result<Option<bool>, AllocError>
    ensures found { IfOk result (λ answer.
        IsSome answer ↔ (IsSome (net_of first.now name.now) × IsSome (net_of second.now name.now))) }
    ensures agrees { IfOk result (λ answer. IfSome answer (λ agrees.
        IsTrue agrees ↔ AgreesOn first.now second.now (InCone first.now.netlist (name.now ∷ [])) horizon)) }
{
    let Some(net) = first.find(name) else {
        return Ok(None);
    };
    let Some(other) = second.find(name) else {
        return Ok(None);
    };
    prove!(net < first.nets());
    prove!(other < second.nets());
    for net in &cone(alloc, first, net)? {
        if !agrees_at(first, *net, second, horizon) {
            return Ok(Some(false));
        }
    }
    Ok(Some(true))
}

/// Returns whether the second design has a net with this one's name that is the same except for its
/// number.
pub(crate) fn agrees_at(first: &Design, net: u32, second: &Design, horizon: Horizon) -> bool
    requires first { IsDesign first.now }
    requires second { IsDesign second.now }
    requires net { net < length first.now.circuit }
    ensures { IsTrue result ↔ AgreesAt first.now second.now horizon (name_at first.now.netlist net) }
{
    match second.find(first.name(net)) {
        Some(other) => is_same_net(first, net, second, other, horizon),
        None => false,
    }
}

/// Returns whether two nets are the same, except for their numbers.
fn is_same_net(first: &Design, net: u32, second: &Design, other: u32, horizon: Horizon) -> bool
    requires first { IsDesign first.now }
    requires second { IsDesign second.now }
    requires net { net < length first.now.circuit }
    requires other { other < length second.now.circuit }
    ensures { (x y : Net) → slice_get first.now.circuit net ≡ Some x → slice_get second.now.circuit other ≡ Some y →
        IsTrue result ↔ IsSameNet first.now second.now horizon x y }
{
    let same_names = has_same_names(first, first.pins_of(net), second, second.pins_of(other));
    let same_stimuli = has_same_stimuli(first.stimuli(net), second.stimuli(other), horizon);
    first.part(net) == second.part(other)
        && first.timing(net) == second.timing(other)
        && first.wires_of(net) == second.wires_of(other)
        && same_names
        && same_stimuli
}

/// Returns whether the pins of two nets have the same names, in order.
fn has_same_names(first: &Design, pins: &[u32], second: &Design, others: &[u32]) -> bool
    requires first { IsDesign first.now }
    requires second { IsDesign second.now }
    requires pins { All (λ pin. pin < length first.now.circuit) pins.now }
    requires others { All (λ pin. pin < length second.now.circuit) others.now }
    ensures { IsTrue result ↔ (pin_names first.now.netlist pins.now ≡ pin_names second.now.netlist others.now) }
{
    if pins.len() != others.len() {
        return false;
    }
    for (pin, other) in pins.iter().zip(others) {
        if first.name(*pin) != second.name(*other) {
            return false;
        }
    }
    true
}

/// Returns whether the stimuli of two nets are the same at ticks up to the horizon.
fn has_same_stimuli(stimuli: &[Change], others: &[Change], horizon: Horizon) -> bool
    requires stimuli { TicksRise stimuli.now }
    requires others { TicksRise others.now }
    ensures { IsTrue result ↔ (changes_until horizon stimuli.now ≡ changes_until horizon others.now) }
{
    let end = horizon.ticks();
    changes_until(stimuli, end) == changes_until(others, end)
}
