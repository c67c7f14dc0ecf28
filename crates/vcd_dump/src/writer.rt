ghost use Rattle.std.specs.Prelude.{◌≡◌, ◌≢◌, ◌++◌, ◌<◌, ◌≤◌, [], length, All, OnOk, OnErr, IfOk, IfErr};
ghost use Rattle.std.specs.Io.KnownBytes.{Appends};
ghost use Rattle.texts.specs.Written.{AppendsPrefix, GoesOut};
ghost use Rattle.vcd_dump.specs.Codes.{AreCodes};
ghost use Rattle.vcd_dump.specs.Dump.{time_line_after};
ghost use Rattle.vcd_dump.specs.Lines.{LineView};
ghost use Rattle.vcd_dump.specs.Spans.{zero_text};
ghost use Rattle.vcd_dump.specs.Written.{written_text, last_tick, written_span};

use crate::codes::Code;
use crate::fault::DumpFault;
use crate::line::Line;
use crate::lines::{push_change, push_time_after};
use std::io::Write;
use texts::{send, send_long};

// Writes lines in order, after a time, and returns the time of the last.
fn write_lines<W: Write>(
    out: &mut W,
    text: &mut Vec<u8>,
    codes: &[Code],
    lines: &[Line],
    time: u64,
) -> Result<u64, DumpFault>
    requires codes { AreCodes codes.now }
    requires places { All (λ (line : LineView). line.place < length codes.now) lines.now }
    ensures last { IfOk result (λ last. last ≡ last_tick time lines.now) }
    ensures ok { OnOk result (GoesOut (W.contents out.old) (W.contents out.new)
        (text.old.items ++ written_text time lines.now) text.new.items) }
    ensures err { OnErr result (AppendsPrefix (W.contents out.old) (W.contents out.new)
        (text.old.items ++ written_text time lines.now)) }
    ensures fault { IfErr result (λ fault. fault ≢ DumpFault.Failed) }
{
    let mut before = time;
    for line in lines {
        let tick = line.tick();
        push_time_after(text, before, tick)?;
        push_change(text, line.value(), &codes[line.place()])?;
        send_long(out, text)?;
        before = tick;
    }
    Ok(before)
}

// Writes the values at tick 0, and returns the time.
fn write_values<W: Write>(
    out: &mut W,
    text: &mut Vec<u8>,
    codes: &[Code],
    values: &[Line],
    time: u64,
) -> Result<u64, DumpFault>
    requires codes { AreCodes codes.now }
    requires places { All (λ (line : LineView). line.place < length codes.now) values.now }
    ensures last { IfOk result (λ last. last ≡ last_tick time values.now) }
    ensures ok { OnOk result (GoesOut (W.contents out.old) (W.contents out.new)
        (text.old.items ++ zero_text (written_text time values.now)) text.new.items) }
    ensures err { OnErr result (AppendsPrefix (W.contents out.old) (W.contents out.new)
        (text.old.items ++ zero_text (written_text time values.now))) }
    ensures fault { IfErr result (λ fault. fault ≢ DumpFault.Failed) }
{
    text.extend_from_slice(b"#0\n$dumpvars\n")?;
    let last = write_lines(out, text, codes, values, time)?;
    text.extend_from_slice(b"$end\n")?;
    Ok(last)
}

// Writes the lines of a span that begins at a tick, in their order, and returns the time of the last.
fn write_in_order<W: Write>(
    out: &mut W,
    text: &mut Vec<u8>,
    codes: &[Code],
    lines: &[Line],
    from: u64,
    time: u64,
) -> Result<u64, DumpFault>
    requires codes { AreCodes codes.now }
    requires places { All (λ (line : LineView). line.place < length codes.now) lines.now }
    requires values { from ≡ 0 → length codes.now ≤ length lines.now }
    ensures last { IfOk result (λ last. last ≡ last_tick time lines.now) }
    ensures ok { OnOk result (GoesOut (W.contents out.old) (W.contents out.new)
        (text.old.items ++ written_span (length codes.now) from time lines.now) text.new.items) }
    ensures err { OnErr result (AppendsPrefix (W.contents out.old) (W.contents out.new)
        (text.old.items ++ written_span (length codes.now) from time lines.now)) }
    ensures fault { IfErr result (λ fault. fault ≢ DumpFault.Failed) }
{
    if from > 0 {
        return write_lines(out, text, codes, lines, time);
    }
    let nets = codes.len();
    let time = write_values(out, text, codes, &lines[..nets], time)?;
    write_lines(out, text, codes, &lines[nets..], time)
}

/// Writes the lines of a span that begins at a tick, in their order, and returns the time of the last,
/// or `time` if there are none. `text` must be empty, and is empty after success.
pub fn write_span<W: Write>(
    out: &mut W,
    text: &mut Vec<u8>,
    codes: &[Code],
    lines: &[Line],
    from: u64,
    time: u64,
) -> Result<u64, DumpFault>
    requires empty { text.old.items ≡ [] }
    requires codes { AreCodes codes.now }
    requires places { All (λ (line : LineView). line.place < length codes.now) lines.now }
    requires values { from ≡ 0 → length codes.now ≤ length lines.now }
    ensures last { IfOk result (λ last. last ≡ last_tick time lines.now) }
    ensures ok { OnOk result (Appends (W.contents out.old) (W.contents out.new)
        (written_span (length codes.now) from time lines.now)) }
    ensures sent { OnOk result (text.new.items ≡ []) }
    ensures err { OnErr result (AppendsPrefix (W.contents out.old) (W.contents out.new)
        (written_span (length codes.now) from time lines.now)) }
    ensures fault { IfErr result (λ fault. fault ≢ DumpFault.Failed) }
{
    let last = write_in_order(out, text, codes, lines, from, time)?;
    send(out, text)?;
    Ok(last)
}

/// Writes the horizon, if the last time was before it. `text` must be empty.
pub fn write_last_time<W: Write>(
    out: &mut W,
    text: &mut Vec<u8>,
    time: u64,
    horizon: u64,
) -> Result<(), DumpFault>
    requires empty { text.old.items ≡ [] }
    ensures ok { OnOk result (Appends (W.contents out.old) (W.contents out.new)
        (time_line_after time horizon)) }
    ensures err { OnErr result (AppendsPrefix (W.contents out.old) (W.contents out.new)
        (time_line_after time horizon)) }
    ensures fault { IfErr result (λ fault. fault ≢ DumpFault.Failed) }
{
    push_time_after(text, time, horizon)?;
    send(out, text)?;
    Ok(())
}
