//! The dump of a run, from the waveforms of the shown nets.
ghost use Rattle.std.specs.Prelude.{◌≡◌, IfErr, OnOk};
ghost use Rattle.std.specs.Io.KnownBytes.{Appends};
ghost use Rattle.design.specs.Design.{IsDesign};
ghost use Rattle.prepared_runs.specs.Source.{shown_nets, dump_of_design};
ghost use Rattle.prepared_runs.specs.Ends.{BreaksOff};
ghost use Rattle.prepared_runs.specs.Shown.{waves_up_to};

use design::Design;
use logic3::Waveform;
use prepared_runs::{DumpView, SimFault};
use std::alloc::Global;
use std::io::Write;
use timing_text::Horizon;
use vcd_dump::dump;

/// Writes the dump of the shown nets, from their waveforms up to a horizon.
pub(crate) fn write_dump<W: Write>(
    alloc: Global,
    design: &Design,
    horizon: Horizon,
    view: &DumpView<'_>,
    nets: &[u32],
    waves: &[Waveform],
    out: &mut W,
) -> Result<(), SimFault>
    requires well_formed { IsDesign design.now }
    requires nets { nets.now ≡ shown_nets view.now.show design.now.netlist }
    requires waves { waves.now ≡ waves_up_to design.now.circuit horizon nets.now }
    ensures ok { OnOk result (Appends (W.contents out.old) (W.contents out.new)
        (dump_of_design view.now horizon design.now)) }
    ensures err { IfErr result (BreaksOff (W.contents out.old) (W.contents out.new)
        (dump_of_design view.now horizon design.now)) }
{
    dump(alloc, out, design, nets, waves, horizon, view.unit)?;
    Ok(())
}
