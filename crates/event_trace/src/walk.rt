//! Applying a list of events.
ghost use Rattle.std.specs.Prelude.{◌≡◌, ◌≢◌, ◌++◌, false, All, IfErr, OnOk, OnErr};
ghost use Rattle.cmb_events.specs.Schedule.{Exists};
ghost use Rattle.cmb_kernel.specs.State.{IsUndrained};
ghost use Rattle.cmb_kernel.specs.Step.{steps};
ghost use Rattle.texts.specs.Written.{AppendsPrefix, GoesOut};
ghost use Rattle.event_trace.specs.ShownLines.{shown_text};
ghost use Rattle.event_trace.specs.Trace.{lines_of};

use crate::events::{TracedKernel, push_event};
use crate::shown_events::ShownEvents;
use cmb_events::Event;
use design::Design;
use std::io::Write;
use texts::send_long;
use vcd_dump::DumpFault;

/// Applies some events in order, and writes those of their lines that are shown after the waiting text.
pub fn walk<W: Write>(
    kernel: &mut TracedKernel<'_>,
    design: &Design,
    shown: ShownEvents,
    out: &mut W,
    text: &mut Vec<u8>,
    events: &[Event],
) -> Result<(), DumpFault>
    requires running { kernel.old.failed ≡ false }
    requires circuit { kernel.old.circuit ≡ design.now.circuit }
    requires undrained { IsUndrained kernel.old.state }
    requires exist { All (Exists design.now.circuit) events.now }
    ensures state { OnOk result (kernel.new ≡ record kernel.old { state = steps kernel.old.state events.now }) }
    ensures ok { OnOk result (GoesOut (W.contents out.old) (W.contents out.new)
        (text.old.items ++ shown_text shown design.now.circuit (lines_of kernel.old.state events.now)) text.new.items) }
    ensures err { OnErr result (AppendsPrefix (W.contents out.old) (W.contents out.new)
        (text.old.items ++ shown_text shown design.now.circuit (lines_of kernel.old.state events.now))) }
    ensures fault { IfErr result (λ fault. fault ≢ DumpFault.Failed) }
{
    for event in events {
        push_event(kernel, design, shown, text, *event)?;
        send_long(out, text)?;
    }
    Ok(())
}
