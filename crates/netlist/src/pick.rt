//! Some nets of a netlist as a netlist of their own.
ghost use Rattle.std.specs.Prelude.{◌≡◌, ◌≢◌, ℕ, ◌<◌, length, map, All, AllPairs, Contains, IfOk};
ghost use Rattle.logic3.specs.Rising.{Rises};
ghost use Rattle.netlist.specs.Netlist.{net_at};
ghost use Rattle.netlist.specs.Pick.{place_in, picked, picked_wiring};
ghost use Rattle.netlist.specs.Joined.{seen_net};

use crate::netlist::{Net, Netlist};
use smallvec::SmallVec;
use std::alloc::{AllocError, Global};

impl Netlist {
    /// Returns the nets with these numbers in this order, with these outputs, as a netlist of their
    /// own. Each keeps its name and what drives it. Its pins are the same nets by their new numbers,
    /// which are their places in `keep`.
    ///
    /// `keep` has at least one number, its numbers rise, and it contains each net at a pin of a net
    /// that it contains. Each output is in `keep` too, and none is listed twice.
    ///
    /// Takes time in proportion to the nets that are kept, and logarithmic time for each of their pins
    /// and for each output. Returns `AllocError` if an allocation fails.
    pub fn pick(&self, alloc: Global, keep: &[u32], outputs: &[u32]) -> Result<Netlist, AllocError>
        requires some { 0 < length keep.now }
        requires rising { Rises keep.now }
        requires nets { All (λ number. number < length self.now.nets) keep.now }
        requires pins { All (λ number. All (Contains keep.now) (net_at self.now number).pins) keep.now }
        requires outputs { All (Contains keep.now) outputs.now }
        requires outputs_once { AllPairs (λ (earlier later : ℕ). earlier ≢ later) outputs.now }
        ensures { IfOk result (λ netlist. netlist ≡ picked self.now keep.now outputs.now) }
    {
        let names = self.names_of(alloc, keep)?;
        let nets = nets_of(alloc, self, keep)?;
        let mut outputs = Vec::from_slice(alloc, outputs)?;
        renumber(outputs.as_mut_slice(), keep);
        Netlist::new(names, nets, outputs)
    }
}

/// Returns what drives these nets, in order, and their pins by the new numbers.
fn nets_of(alloc: Global, netlist: &Netlist, keep: &[u32]) -> Result<Vec<Net>, AllocError>
    requires rising { Rises keep.now }
    requires nets { All (λ number. number < length netlist.now.nets) keep.now }
    requires pins { All (λ number. All (Contains keep.now) (net_at netlist.now number).pins) keep.now }
    ensures { IfOk result (λ nets. map seen_net nets.items ≡ map (picked_wiring netlist.now keep.now) keep.now) }
{
    let mut nets = Vec::new(alloc);
    for number in keep {
        let mut pins = SmallVec::from_slice(alloc, netlist.pins_of(*number))?;
        renumber(pins.as_mut_slice(), keep);
        nets.push(Net {
            part: netlist.part(*number),
            pins,
        })?;
    }
    Ok(nets)
}

/// Replaces each number by its place among those that are kept.
fn renumber(numbers: &mut [u32], keep: &[u32])
    requires rising { Rises keep.now }
    requires kept { All (Contains keep.now) numbers.old }
    ensures { numbers.new ≡ map (place_in keep.now) numbers.old }
{
    for number in numbers.iter_mut() {
        *number = place_in(*number, keep);
    }
}

/// Returns the place of a number among those that are kept. Takes logarithmic time.
fn place_in(number: u32, keep: &[u32]) -> u32
    requires rising { Rises keep.now }
    requires kept { Contains keep.now number }
    ensures { result ≡ place_in keep.now number }
{
    keep.partition_point(|kept| *kept < number) as u32
}
