//! Facts about the definitions alone.
ghost use Rattle.std.specs.Prelude.{◌≡◌, ◌≤◌, length, Ok};
ghost use Rattle.texts.specs.Text.{longest_text};
ghost use Rattle.netlist.specs.Netlist.{NetlistView, IsNetlist};
ghost use Rattle.bench_text.specs.NetlistOf.{netlist_of};
ghost use Rattle.bench_text.specs.Canonical.{canonical};

/// The canonical text of a netlist, unless it is too long, reads back as that netlist.
pub fn read_back()
    ensures { (netlist : NetlistView) → IsNetlist netlist → length (canonical netlist) ≤ longest_text →
        netlist_of (canonical netlist) ≡ Ok netlist }
{}
