//! The order in which values flow through gates.
//!
//! A depth-first walk goes from gates back over their pins, and leaves a gate once it has seen all its
//! pins. It keeps its path in a list, so that long chains of gates need no stack.
ghost use Rattle.std.specs.Prelude.{◌≡◌, ℕ, ◌<◌, not, if◌then◌else◌, [], ◌∷◌, ◌++◌, false, length, map, set, slice_index_or, true, All, IfOk, OnOk};
ghost use Rattle.std.specs.List.{range_with_len};
ghost use Rattle.netlist.specs.Netlist.{IsNetlist};
ghost use Rattle.netlist.specs.Repeats.{times};
ghost use Rattle.netlist.specs.Marks.{is_seen, KeepsSeen};
ghost use Rattle.netlist.specs.Flow.{is_gate_in, FollowsFlow};
ghost use Rattle.netlist.specs.Walk.{IsWalk, SeenBefore};

use crate::netlist::Netlist;
use std::alloc::{AllocError, Global};

/// Returns the gates, each once, in the order in which values flow.
///
/// Each gate comes after each gate at its pins, unless values also flow back from it to that gate,
/// through gates alone, so that the two are in a loop.
///
/// Takes time and memory in proportion to the nets and pins.
///
/// # Errors
/// `AllocError` if an allocation fails.
pub fn gate_order(alloc: Global, netlist: &Netlist) -> Result<Vec<u32>, AllocError>
    ensures each { IfOk result (λ gates. (net : ℕ) →
        times net gates.items ≡ (if is_gate_in netlist.now.nets net then 1 else 0)) }
    ensures behind { IfOk result (λ gates. FollowsFlow netlist.now.nets gates.items) }
{
    let mut walk = Walk {
        seen: other_nets(alloc, netlist)?,
        path: Vec::new(alloc),
        left: Vec::new(alloc),
    };
    for net in 0..netlist.nets() {
        if !walk.seen[net as usize] {
            walk.enter(net)?;
            walk.leave_all(netlist)?;
        }
    }
    Ok(walk.left)
}

/// Returns which nets aren't gates.
fn other_nets(alloc: Global, netlist: &Netlist) -> Result<Vec<bool>, AllocError>
    ensures { IfOk result (λ others.
        others.items ≡ map (λ net. not (is_gate_in netlist.now.nets net)) (range_with_len 0 (length netlist.now.nets))) }
{
    let mut others = Vec::new(alloc);
    for net in 0..netlist.nets() {
        others.push(!netlist.part(net).is_gate())?;
    }
    Ok(others)
}

/// A gate on the path, and the place of the first of its pins that may not have been seen.
#[derive(Clone, Copy)]
struct Step {
    gate: u32,
    place: usize,
}

/// A walk from gates back over their pins.
#[derive(Drop)]
struct Walk {
    // The nets that it needn't enter: other parts, and gates that it has entered.
    seen: Vec<bool>,
    // The gates that it has entered and not left, each at a pin of the one before it.
    path: Vec<Step>,
    // The gates that it has left, in that order.
    left: Vec<u32>,
}

impl Walk {
    /// Enters a net.
    fn enter(&mut self, net: u32) -> Result<(), AllocError>
        requires { net < length self.old.seen.items }
        ensures seen { OnOk result (self.new.seen.items ≡ set self.old.seen.items net true) }
        ensures path { OnOk result (self.new.path.items ≡ self.old.path.items ++ record { gate = net; place = 0 } ∷ []) }
        ensures left { OnOk result (self.new.left.items ≡ self.old.left.items) }
    {
        self.seen[net as usize] = true;
        self.path.push(Step {
            gate: net,
            place: 0,
        })?;
        Ok(())
    }

    /// Walks on until all gates of the path are left.
    fn leave_all(&mut self, netlist: &Netlist) -> Result<(), AllocError>
        requires formed { IsNetlist netlist.now }
        requires walk { IsWalk netlist.now.nets self.old.seen.items self.old.path.items self.old.left.items }
        ensures walk { OnOk result (IsWalk netlist.now.nets self.new.seen.items [] self.new.left.items) }
        ensures path { OnOk result (self.new.path.items ≡ []) }
        ensures kept { OnOk result (KeepsSeen self.old.seen.items self.new.seen.items) }
    {
        while let Some(step) = self.path.pop() {
            let pins = netlist.pins_of(step.gate);
            let place = first_unseen(pins, step.place, self.seen.as_slice());
            if place >= pins.len() {
                self.left.push(step.gate)?;
                continue;
            }
            self.path.push(Step {
                gate: step.gate,
                place,
            })?;
            self.enter(pins[place])?;
        }
        Ok(())
    }
}

/// Returns the first place, from one on, of a pin that was not seen, or a place past the last pin if
/// all were seen.
fn first_unseen(pins: &[u32], from: usize, seen: &[bool]) -> usize
    requires pins { All (λ pin. pin < length seen.now) pins.now }
    requires before { SeenBefore seen.now pins.now from }
    ensures seen { SeenBefore seen.now pins.now result }
    ensures unseen { result < length pins.now → is_seen seen.now (slice_index_or pins.now result 0) ≡ false }
{
    let mut place = from;
    while place < pins.len() && seen[pins[place] as usize] {
        place += 1;
    }
    place
}
