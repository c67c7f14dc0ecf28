//! Which levels are known.
ghost use Rattle.std.specs.Prelude.{◌≡◌, ◌<◌, false, length, slice_index_or, All};
ghost use Rattle.circuit_info.specs.Known.{is_known, KnownBefore};

use netlist::Netlist;

/// Returns whether the level of a net is known. A gate whose level isn't known has 0.
pub(crate) fn is_known(netlist: &Netlist, net: u32, levels: &[u32]) -> bool
    requires size { length levels.now ≡ length netlist.now.nets }
    requires net { net < length netlist.now.nets }
    ensures { result ≡ is_known netlist.now levels.now net }
{
    !(netlist.part(net).is_gate() && levels[net as usize] == 0)
}

/// Returns the first place of a pin whose level isn't known, or a place past the last pin if all are known.
pub(crate) fn first_unknown(netlist: &Netlist, pins: &[u32], levels: &[u32]) -> usize
    requires size { length levels.now ≡ length netlist.now.nets }
    requires pins { All (λ pin. pin < length netlist.now.nets) pins.now }
    ensures known { KnownBefore netlist.now levels.now pins.now result }
    ensures unknown { result < length pins.now → is_known netlist.now levels.now (slice_index_or pins.now result 0) ≡ false }
{
    let mut place = 0;
    while place < pins.len() && is_known(netlist, pins[place], levels) {
        place += 1;
    }
    place
}
