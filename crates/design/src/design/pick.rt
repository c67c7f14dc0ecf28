ghost use Rattle.std.specs.Prelude.{◌≡◌, ◌≢◌, ℕ, ◌<◌, length, map, All, AllPairs, Contains, IfOk};
ghost use Rattle.logic3.specs.Rising.{Rises};
ghost use Rattle.netlist.specs.Netlist.{net_at};
ghost use Rattle.timing_text.specs.Timings.{seen_timings};
ghost use Rattle.design.specs.PickedDesign.{picked_design, stimuli_in, timing_in};

use crate::design::Design;
use crate::design::build::{first_pins, joined};
use crate::design::feeding::fed_pins;
use flat_lists::FlatLists;
use logic3::Change;
use std::alloc::{AllocError, Global};
use timing_text::NetTimings;

impl Design {
    /// Returns the nets with these numbers in this order, with these outputs, as a design of their
    /// own. Each keeps its timing, wire delays and stimuli. For the rest, and for the requirements,
    /// see [`Netlist::pick`](netlist::Netlist::pick).
    ///
    /// Takes time in proportion to the nets that are kept and to their stimuli, and logarithmic time
    /// for each of their pins and for each output. Returns `AllocError` if an allocation fails.
    pub fn pick(&self, alloc: Global, keep: &[u32], outputs: &[u32]) -> Result<Design, AllocError>
        requires some { 0 < length keep.now }
        requires rising { Rises keep.now }
        requires nets { All (λ number. number < length self.now.netlist.nets) keep.now }
        requires pins { All (λ number. All (Contains keep.now) (net_at self.now.netlist number).pins) keep.now }
        requires outputs { All (Contains keep.now) outputs.now }
        requires outputs_once { AllPairs (λ (earlier later : ℕ). earlier ≢ later) outputs.now }
        ensures { IfOk result (λ design. design ≡ picked_design self.now keep.now outputs.now) }
    {
        let netlist = self.netlist.pick(alloc, keep, outputs)?;
        let first_pins = first_pins(alloc, &netlist)?;
        let sources = netlist.all_pins(alloc)?;
        let fed = fed_pins(alloc, netlist.nets(), sources.as_slice())?;
        let timed = timings_of(alloc, self, keep)?;
        let stimuli = stimuli_of(alloc, self, keep)?;
        Ok(joined(netlist, first_pins, sources, fed, timed, stimuli))
    }
}

/// Returns the timings and the wire delays of these nets, in order.
fn timings_of(alloc: Global, design: &Design, nets: &[u32]) -> Result<NetTimings, AllocError>
    requires { All (λ net. net < length design.now.circuit) nets.now }
    ensures { IfOk result (λ timed. seen_timings timed ≡ map (timing_in design.now.circuit) nets.now) }
{
    let mut timings = Vec::new(alloc);
    let mut wires = FlatLists::with_capacity(alloc, nets.len(), 0)?;
    for net in nets {
        timings.push(design.timing(*net))?;
        wires.push(design.wires_of(*net))?;
    }
    Ok(NetTimings { timings, wires })
}

/// Returns the stimuli of these nets, in order.
fn stimuli_of(alloc: Global, design: &Design, nets: &[u32]) -> Result<FlatLists<Change>, AllocError>
    requires { All (λ net. net < length design.now.circuit) nets.now }
    ensures { IfOk result (λ stimuli. stimuli ≡ map (stimuli_in design.now.circuit) nets.now) }
{
    let mut stimuli = FlatLists::with_capacity(alloc, nets.len(), 0)?;
    for net in nets {
        stimuli.push(design.stimuli(*net))?;
    }
    Ok(stimuli)
}
