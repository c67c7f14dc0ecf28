ghost use Rattle.std.specs.Prelude.{◌≡◌, ◌≢◌, ◌+◌, ℕ, ◌<◌, ◌≤◌, length, true, false, Err, All, AllPairs, OnOk, OnErr, IfOk, IfErr};
ghost use Rattle.std.specs.Io.KnownBytes.{Appends, Keeps};
ghost use Rattle.texts.specs.Written.{AppendsPrefix};
ghost use Rattle.logic3.specs.declared.change.Change.{Change};
ghost use Rattle.vcd_dump.specs.Dump.{declarations};
ghost use Rattle.vcd_dump.specs.Traces.{named};
ghost use Rattle.vcd_dump.specs.Spans.{begun, with_part, with_parts, spanned, lines_text, span_text, last_text, changes_in, IsSpan, CanSpan};

use crate::codes::{Code, first_codes};
use crate::dumper::write_declarations;
use crate::fault::DumpFault;
use crate::gathering::{gather, gather_parts};
use crate::line::Line;
use crate::sorting::Sorter;
use crate::unit::TimeUnit;
use crate::writer::{write_last_time, write_span};
use design::Design;
use logic3::Change;
use std::alloc::Global;
use std::io::Write;
use std::marker::Model;
use timing_text::Horizon;

/// A dump that is written one span of ticks at a time: by [`begin`](Self::begin), a [`span`](Self::span)
/// for each, and [`finish`](Self::finish).
///
/// A span's changes may also be given net by net, by a [`part`](Self::part) for each, and then written by
/// [`write_parts`](Self::write_parts). The caller then needs only one list of changes at a time.
///
/// Text is written in pieces of about 64 KiB, and at the end of each call. A call that returns a fault
/// has written a prefix of its text. The stream has failed then: it writes nothing more, and returns
/// [`DumpFault::Failed`]. The writer isn't flushed.
#[derive(Drop)]
pub struct Stream {
    // The codes of the shown nets.
    codes: Vec<Code>,
    horizon: u64,
    written: u64,
    // The time of the last time line.
    time: u64,
    // The number of nets whose changes were given since, and their lines.
    given: usize,
    lines: Vec<Line>,
    sorter: Sorter,
    failed: bool,
    text: Vec<u8>,
}

impl Model for Stream {
    ghost use Rattle.std.specs.Prelude.{◌≡◌, false, length};
    ghost use Rattle.vcd_dump.specs.Spans.{StreamView};

    ghost Value = { StreamView };

    ghost use Rattle.vcd_dump.specs.Ready.{IsReady};

    ghost view = { λ s. record {
      nets = length s.codes.items;
      horizon = s.horizon;
      written = s.written;
      time = s.time;
      given = s.given;
      lines = s.lines.items;
      failed = s.failed;
    } };

    ghost invariant = { λ s. s.failed ≡ false → IsReady s };
}

impl Stream {
    /// Writes the declarations of the shown nets, and makes the stream of their dump up to a horizon.
    ///
    /// # Errors
    /// [`DumpFault::Write`], [`DumpFault::WroteNothing`] and [`DumpFault::Memory`].
    pub fn begin<W: Write>(
        alloc: Global,
        out: &mut W,
        design: &Design,
        shown: &[u32],
        horizon: Horizon,
        unit: TimeUnit,
    ) -> Result<Stream, DumpFault>
        requires shown_exist { All (λ net. net < length design.now.circuit) shown.now }
        requires shown_once { AllPairs (λ (earlier later : ℕ). earlier ≢ later) shown.now }
        ensures stream { IfOk result (λ stream. stream ≡ begun (length shown.now) horizon) }
        ensures ok { OnOk result (Appends (W.contents out.old) (W.contents out.new)
            (declarations unit (named design.now.circuit shown.now))) }
        ensures err { OnErr result (AppendsPrefix (W.contents out.old) (W.contents out.new)
            (declarations unit (named design.now.circuit shown.now))) }
        ensures fault { IfErr result (λ fault. fault ≢ DumpFault.Failed) }
    {
        // No net is shown twice.
        prove!(shown.len() <= design.nets() as usize);
        let codes = first_codes(alloc, shown.len())?;
        let mut text = Vec::new(alloc);
        write_declarations(out, &mut text, design, shown, codes.as_slice(), unit)?;
        Ok(Stream {
            codes,
            horizon: horizon.ticks(),
            written: 0,
            time: 0,
            given: 0,
            lines: Vec::new(alloc),
            sorter: Sorter::new(alloc),
            failed: false,
            text,
        })
    }

    /// Returns the number of ticks whose lines have been written.
    pub fn written(&self) -> u64
        ensures { result ≡ self.now.written }
    {
        self.written
    }

    /// Writes the lines of the ticks up to but not including `upto`. The parts are the changes of each
    /// shown net at these ticks, in order. Changes given by [`part`](Self::part) before are discarded.
    ///
    /// Takes time in proportion to the changes, and none for ticks without changes.
    ///
    /// # Errors
    /// [`DumpFault::Failed`] if the stream has failed before, else as [`begin`](Self::begin). The stream
    /// has failed then.
    pub fn span<W: Write>(
        &mut self,
        out: &mut W,
        upto: u64,
        parts: &[Vec<Change>],
    ) -> Result<(), DumpFault>
        requires { self.old.failed ≡ false → IsSpan self.old upto (changes_in parts.now) }
        ensures stream { OnOk result
            (self.new ≡ spanned (with_parts self.old (changes_in parts.now)) upto) }
        ensures ok { OnOk result (Appends (W.contents out.old) (W.contents out.new)
            (span_text self.old.written upto (changes_in parts.now))) }
        ensures err { OnErr result (AppendsPrefix (W.contents out.old) (W.contents out.new)
            (span_text self.old.written upto (changes_in parts.now))) }
        ensures fails { OnErr result (self.new.failed ≡ true) }
        ensures failed { self.old.failed ≡ true →
            (result ≡ Err DumpFault.Failed) × Keeps (W.contents out.old) (W.contents out.new) }
        ensures only { result ≡ Err DumpFault.Failed → self.old.failed ≡ true }
    {
        self.take_parts(parts)?;
        self.write_parts(out, upto)
    }

    // Takes the changes of each shown net, in place of those given so far.
    fn take_parts(&mut self, parts: &[Vec<Change>]) -> Result<(), DumpFault>
        requires each { self.old.failed ≡ false → length parts.now ≡ self.old.nets }
        requires within { self.old.failed ≡ false →
            All (All (λ (change : Change). change.tick ≤ self.old.horizon)) (changes_in parts.now) }
        ensures stream { OnOk result (self.new ≡ with_parts self.old (changes_in parts.now)) }
        ensures running { OnOk result (self.old.failed ≡ false) }
        ensures fails { OnErr result (self.new.failed ≡ true) }
        ensures failed { self.old.failed ≡ true → result ≡ Err DumpFault.Failed }
        ensures fault { self.old.failed ≡ false → IfErr result (λ fault. fault ≡ DumpFault.Memory) }
    {
        if self.failed {
            return Err(DumpFault::Failed);
        }
        self.failed = true;
        self.lines.clear();
        gather_parts(&mut self.lines, self.written, parts)?;
        self.given = parts.len();
        self.failed = false;
        Ok(())
    }

    /// Adds the changes of the next shown net, all at ticks of the next span. Nothing is written.
    ///
    /// # Errors
    /// [`DumpFault::Failed`] if the stream has failed before, else [`DumpFault::Memory`]. The stream has
    /// failed then.
    pub fn part(&mut self, changes: &[Change]) -> Result<(), DumpFault>
        requires next { self.old.failed ≡ false → self.old.given < self.old.nets }
        requires within { self.old.failed ≡ false →
            All (λ (change : Change). change.tick ≤ self.old.horizon) changes.now }
        ensures stream { OnOk result (self.new ≡ with_part self.old changes.now) }
        ensures fails { OnErr result (self.new.failed ≡ true) }
        ensures failed { self.old.failed ≡ true → result ≡ Err DumpFault.Failed }
        ensures fault { self.old.failed ≡ false → IfErr result (λ fault. fault ≡ DumpFault.Memory) }
    {
        if self.failed {
            return Err(DumpFault::Failed);
        }
        // Most nets change in few spans. In the first one they have a line all the same.
        if changes.is_empty() && self.written > 0 {
            self.given += 1;
            return Ok(());
        }
        self.failed = true;
        let place = self.given as u32;
        gather(&mut self.lines, self.written, place, changes)?;
        self.given += 1;
        self.failed = false;
        Ok(())
    }

    /// Writes the lines of the ticks up to but not including `upto`, from the changes that were given for
    /// each shown net.
    ///
    /// Takes time in proportion to the changes, and none for ticks without changes.
    ///
    /// # Errors
    /// As [`span`](Self::span).
    pub fn write_parts<W: Write>(&mut self, out: &mut W, upto: u64) -> Result<(), DumpFault>
        requires { self.old.failed ≡ false → CanSpan self.old upto }
        ensures stream { OnOk result (self.new ≡ spanned self.old upto) }
        ensures ok { OnOk result (Appends (W.contents out.old) (W.contents out.new)
            (lines_text self.old.written upto self.old.lines)) }
        ensures err { OnErr result (AppendsPrefix (W.contents out.old) (W.contents out.new)
            (lines_text self.old.written upto self.old.lines)) }
        ensures fails { OnErr result (self.new.failed ≡ true) }
        ensures failed { self.old.failed ≡ true →
            (result ≡ Err DumpFault.Failed) × Keeps (W.contents out.old) (W.contents out.new) }
        ensures only { result ≡ Err DumpFault.Failed → self.old.failed ≡ true }
    {
        if self.failed {
            return Err(DumpFault::Failed);
        }
        self.failed = true;
        self.sorter
            .sort(&mut self.lines, self.written, upto - self.written)?;
        self.time = write_span(
            out,
            &mut self.text,
            self.codes.as_slice(),
            self.lines.as_slice(),
            self.written,
            self.time,
        )?;
        self.lines.clear();
        self.given = 0;
        self.written = upto;
        self.failed = false;
        Ok(())
    }

    /// Writes the last time, if it had no line, after all ticks up to the horizon have been written.
    ///
    /// # Errors
    /// As [`span`](Self::span).
    pub fn finish<W: Write>(mut self, out: &mut W) -> Result<(), DumpFault>
        requires { self.failed ≡ false → self.written ≡ self.horizon + 1 }
        ensures ok { OnOk result (Appends (W.contents out.old) (W.contents out.new) (last_text self)) }
        ensures err { OnErr result
            (AppendsPrefix (W.contents out.old) (W.contents out.new) (last_text self)) }
        ensures failed { self.failed ≡ true →
            (result ≡ Err DumpFault.Failed) × Keeps (W.contents out.old) (W.contents out.new) }
        ensures only { result ≡ Err DumpFault.Failed → self.failed ≡ true }
    {
        if self.failed {
            return Err(DumpFault::Failed);
        }
        write_last_time(out, &mut self.text, self.time, self.horizon)
    }
}
