ghost use Rattle.std.specs.Prelude.{◌≡◌, ◌≢◌, ℕ, ◌<◌, ◌++◌, [], length, flat_map, All, AllPairs, OnOk, OnErr, IfErr};
ghost use Rattle.std.specs.Io.KnownBytes.{Appends};
ghost use Rattle.logic3.specs.declared.value.Value.TheVariants.{Unknown};
ghost use Rattle.logic3.specs.Wave.{Wave};
ghost use Rattle.texts.specs.Written.{AppendsPrefix, GoesOut};
ghost use Rattle.vcd_dump.specs.Codes.{AreCodes};
ghost use Rattle.vcd_dump.specs.Dump.{declaration, declarations, dump_text};
ghost use Rattle.vcd_dump.specs.Traces.{EndsBy, traces, named};

use crate::codes::{Code, first_codes};
use crate::fault::DumpFault;
use crate::gathering::gather_waves;
use crate::lines::{push_declaration, push_heading};
use crate::unit::TimeUnit;
use crate::writer::{write_last_time, write_span};
use design::Design;
use logic3::Waveform;
use std::alloc::Global;
use std::io::Write;
use texts::{send, send_long};
use timing_text::Horizon;

fn write_variables<W: Write>(
    out: &mut W,
    text: &mut Vec<u8>,
    design: &Design,
    shown: &[u32],
    codes: &[Code],
) -> Result<(), DumpFault>
    requires shown_exist { All (λ net. net < length design.now.circuit) shown.now }
    requires codes { AreCodes codes.now }
    requires one_code_each { length codes.now ≡ length shown.now }
    ensures ok { OnOk result (GoesOut (W.contents out.old) (W.contents out.new)
        (text.old.items ++ flat_map declaration (named design.now.circuit shown.now)) text.new.items) }
    ensures err { OnErr result (AppendsPrefix (W.contents out.old) (W.contents out.new)
        (text.old.items ++ flat_map declaration (named design.now.circuit shown.now))) }
    ensures fault { IfErr result (λ fault. fault ≢ DumpFault.Failed) }
{
    for (place, net) in shown.iter().enumerate() {
        push_declaration(text, &codes[place], design.name(*net))?;
        send_long(out, text)?;
    }
    Ok(())
}

/// Writes everything before the first time. `text` must be empty, and is empty after success.
pub fn write_declarations<W: Write>(
    out: &mut W,
    text: &mut Vec<u8>,
    design: &Design,
    shown: &[u32],
    codes: &[Code],
    unit: TimeUnit,
) -> Result<(), DumpFault>
    requires empty { text.old.items ≡ [] }
    requires shown_exist { All (λ net. net < length design.now.circuit) shown.now }
    requires codes { AreCodes codes.now }
    requires one_code_each { length codes.now ≡ length shown.now }
    ensures ok { OnOk result (Appends (W.contents out.old) (W.contents out.new)
        (declarations unit (named design.now.circuit shown.now))) }
    ensures sent { OnOk result (text.new.items ≡ []) }
    ensures err { OnErr result (AppendsPrefix (W.contents out.old) (W.contents out.new)
        (declarations unit (named design.now.circuit shown.now))) }
    ensures fault { IfErr result (λ fault. fault ≢ DumpFault.Failed) }
{
    push_heading(text, unit)?;
    write_variables(out, text, design, shown, codes)?;
    text.extend_from_slice(b"$upscope $end\n$enddefinitions $end\n")?;
    send(out, text)?;
    Ok(())
}

/// Writes the dump of the shown nets, from their waveforms, up to a horizon.
///
/// It is written in pieces of about 64 KiB. Nothing is written after a fault, and `out` isn't flushed.
///
/// # Errors
/// [`DumpFault::Write`] if a `write` returns an error, including an interruption,
/// [`DumpFault::WroteNothing`] if a `write` takes none of its bytes, and [`DumpFault::Memory`] if an
/// allocation fails; never [`DumpFault::Failed`]. A prefix of the dump has been written then.
pub fn dump<W: Write>(
    alloc: Global,
    out: &mut W,
    design: &Design,
    shown: &[u32],
    waves: &[Waveform],
    horizon: Horizon,
    unit: TimeUnit,
) -> Result<(), DumpFault>
    requires shown_exist { All (λ net. net < length design.now.circuit) shown.now }
    requires shown_once { AllPairs (λ (earlier later : ℕ). earlier ≢ later) shown.now }
    requires one_wave_each { length waves.now ≡ length shown.now }
    requires unknown_before { All (λ (wave : Wave). wave.before ≡ Unknown) waves.now }
    requires within_horizon { All (EndsBy horizon) waves.now }
    ensures ok { OnOk result (Appends (W.contents out.old) (W.contents out.new)
        (dump_text unit horizon (traces design.now.circuit shown.now waves.now))) }
    ensures err { OnErr result (AppendsPrefix (W.contents out.old) (W.contents out.new)
        (dump_text unit horizon (traces design.now.circuit shown.now waves.now))) }
    ensures fault { IfErr result (λ fault. fault ≢ DumpFault.Failed) }
{
    // No net is shown twice.
    prove!(shown.len() <= design.nets() as usize);
    let codes = first_codes(alloc, shown.len())?;
    let codes = codes.as_slice();
    let mut text = Vec::new(alloc);
    write_declarations(out, &mut text, design, shown, codes, unit)?;
    let horizon = horizon.ticks();
    let lines = gather_waves(alloc, waves, horizon)?;
    let time = write_span(out, &mut text, codes, lines.as_slice(), 0, 0)?;
    write_last_time(out, &mut text, time, horizon)
}
