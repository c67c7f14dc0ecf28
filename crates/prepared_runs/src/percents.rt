//! The progress of a run in percent, on one line.
ghost use Rattle.std.specs.Prelude.{◌≡◌, ◌+◌, ◌*◌, ◌/◌, OnErr, OnOk, false, true};
ghost use Rattle.std.specs.Io.KnownBytes.{Appends, Keeps};
ghost use Rattle.texts.specs.Written.{AppendsPrefix};
ghost use Rattle.prepared_runs.specs.Percents.{line_feed, percent_text};

use crate::progress::Progress;
use std::io::Write;
use texts::{WriteFault, write_all_bytes, write_numbered};
use timing_text::Horizon;

/// Writes how much of a run is done, in percent, over what it wrote before, and each percentage at
/// most once. After a failed write nothing more is written.
#[derive(Drop)]
pub struct Percents<'e, E> {
    out: &'e mut E,
    // The least percentage that may still be written.
    next: u64,
    failed: bool,
}

impl<'e, E: Write> Percents<'e, E> {
    /// Makes a meter that writes to this writer, and has written nothing yet.
    pub fn new(out: &'e mut E) -> Percents<'e, E>
        ensures same_writer { result.out.ghost_name ≡ out.entry.ghost_name }
        ensures bytes { result.out.now ≡ out.old }
        ensures next { result.next ≡ 0 }
        ensures failed { result.failed ≡ false }
    {
        Percents {
            out,
            next: 0,
            failed: false,
        }
    }

    /// Ends the line, if one has begun, and returns the writer.
    pub fn end(self) -> &'e mut E
        ensures same_writer { result.ghost_name ≡ self.entry.out.ghost_name }
        ensures text { AppendsPrefix (E.contents self.entry.out.now) (E.contents result.now)
            (line_feed self.entry.next) }
        ensures failed { self.entry.failed ≡ true → Keeps (E.contents self.entry.out.now) (E.contents result.now) }
    {
        let Percents { out, next, failed } = self;
        if next > 0 && !failed {
            let _ = write_all_bytes(out, b"\n");
        }
        out
    }

    /// Writes a percentage, unless the writer has failed.
    fn show(&mut self, percent: u64)
        ensures same_writer { self.new.out.ghost_name ≡ self.old.out.ghost_name }
        ensures next { self.new.next ≡ self.old.next }
        ensures part { AppendsPrefix (E.contents self.old.out.now) (E.contents self.new.out.now)
            (percent_text percent) }
        ensures whole { self.new.failed ≡ false →
            Appends (E.contents self.old.out.now) (E.contents self.new.out.now) (percent_text percent) }
        ensures failed { self.old.failed ≡ true → (self.new.failed ≡ true)
            × Keeps (E.contents self.old.out.now) (E.contents self.new.out.now) }
    {
        if !self.failed {
            self.failed = write_percent(self.out, percent).is_err();
        }
    }
}

/// Writes a percentage at the beginning of the line.
///
/// # Errors
/// `Write` or `WroteNothing`; a prefix of it has been written then.
fn write_percent<E: Write>(out: &mut E, percent: u64) -> Result<(), WriteFault>
    ensures ok { OnOk result (Appends (E.contents out.old) (E.contents out.new) (percent_text percent)) }
    ensures err { OnErr result (AppendsPrefix (E.contents out.old) (E.contents out.new) (percent_text percent)) }
{
    write_numbered(out, b"\r", percent)?;
    write_all_bytes(out, b"%")
}

impl<E: Write> Progress for Percents<'_, E> {
    ghost use Rattle.std.proofs.Common.{◌≡◌, refl, ◌∙◌};
    ghost use Rattle.prepared_runs.specs.Percents.{Shows};
    ghost use Rattle.prepared_runs.specs.Showing.{Shows-nothing, Shows-joined};

    ghost reports = { λ horizon old ticks new. (new.out.ghost_name ≡ old.out.ghost_name)
        × Shows horizon (record { next = old.next; failed = old.failed; bytes = E.contents old.out.now }) ticks
        (record { next = new.next; failed = new.failed; bytes = E.contents new.out.now }) };

    fn report(&mut self, known: u64, horizon: Horizon) {
        let percent = known * 100 / (horizon.ticks() + 1);
        if percent >= self.next {
            self.next = percent + 1;
            self.show(percent);
        }
    }

    ghost nothing = { λ horizon state. (refl, Shows-nothing horizon _) };

    ghost joined = { λ horizon old mid new first second reported more.
        (more.0 ∙ reported.0, Shows-joined horizon _ _ _ first second reported.1 more.1) };
}
