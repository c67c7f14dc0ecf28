ghost use Rattle.std.specs.Prelude.{◌≡◌, ◌≢◌, ◌≤◌, length, IfOk, IsOk};
ghost use Rattle.texts.specs.Text.{longest_text};
ghost use Rattle.netlist.specs.Netlist.{IsNetlist};
ghost use Rattle.design.specs.Build.{design_of};
ghost use Rattle.timing_text.specs.Options.{options_of};
ghost use Rattle.timing_text.specs.Timings.{seen_timings};
ghost use Rattle.design.specs.Joined.{design_view, first_pins_of, IsJoined};

use crate::design::Design;
use crate::design::feeding::fed_pins;
use crate::fault::BuildFault;
use flat_lists::FlatLists;
use logic3::Change;
use netlist::Netlist;
use std::alloc::{AllocError, Global};
use timing_text::{NetTimings, options, read_stimuli, read_timings};

impl Design {
    /// Makes a design from a netlist, the timing and wire delays of a delay text, and the stimuli of a
    /// stimulus text.
    ///
    /// A gate or a flip-flop without a delay in the delay text has the default delay. A flip-flop
    /// without a clock there has this period and phase 0, in ticks, and one without an initial value
    /// begins with X. A pin without a wire delay shows its source at once. The netlist is dropped if a
    /// text is refused.
    ///
    /// # Errors
    /// The first fault, in the order default delay, period, delay text, stimulus text, or
    /// [`BuildFault::Memory`] if an allocation fails in any step. The settings and the length of
    /// the delay text are checked before anything is allocated.
    pub fn build(
        alloc: Global,
        netlist: Netlist,
        delays: &[u8],
        stimuli: &[u8],
        default_delay: u64,
        period: u64,
    ) -> Result<Design, BuildFault>
        ensures design { result ≢ Err BuildFault.Memory →
            result ≡ design_of netlist delays.now stimuli.now default_delay period }
        ensures settings { result ≡ Err BuildFault.Memory → IsOk (options_of default_delay period) }
        ensures delays { result ≡ Err BuildFault.Memory → length delays.now ≤ longest_text }
    {
        options(default_delay, period)?;
        let timed = read_timings(alloc, &netlist, delays, default_delay, period)?;
        let stimuli = read_stimuli(alloc, &netlist, stimuli)?;
        let first_pins = first_pins(alloc, &netlist)?;
        let sources = netlist.all_pins(alloc)?;
        let fed = fed_pins(alloc, netlist.nets(), sources.as_slice())?;
        Ok(joined(netlist, first_pins, sources, fed, timed, stimuli))
    }
}

/// Makes a design of its parts.
pub(super) fn joined(
    netlist: Netlist,
    first_pins: Vec<u32>,
    sources: Vec<u32>,
    fed: FlatLists<u32>,
    timed: NetTimings,
    stimuli: FlatLists<Change>,
) -> Design
    requires { IsJoined netlist first_pins.items sources.items fed (seen_timings timed) stimuli }
    ensures { result ≡ design_view netlist (seen_timings timed) stimuli }
{
    let (fed, first_fed) = fed.into_parts();
    let (wires, first_wires) = timed.wires.into_parts();
    let (stimuli, first_stimuli) = stimuli.into_parts();
    Design {
        netlist,
        first_pins,
        sources,
        fed,
        first_fed,
        timings: timed.timings,
        wires,
        first_wires,
        stimuli,
        first_stimuli,
    }
}

/// Returns the first pin of each net, and at the end the number of pins.
pub(super) fn first_pins(alloc: Global, netlist: &Netlist) -> Result<Vec<u32>, AllocError>
    ensures starts { IfOk result (λ starts. starts.items ≡ first_pins_of netlist.now) }
    ensures well_formed { IsNetlist netlist.now }
{
    let nets = netlist.nets();
    let mut starts = Vec::with_capacity(alloc, nets as usize + 1)?;
    let mut pin: u32 = 0;
    for net in 0..nets {
        starts.push(pin)?;
        pin += netlist.pins_of(net).len() as u32;
    }
    starts.push(pin)?;
    Ok(starts)
}
