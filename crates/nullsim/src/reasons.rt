//! The system's message on a write that failed.
ghost use Rattle.std.specs.Prelude.{◌≡◌, None, Some, IfErr, OnOk};
ghost use Rattle.std.specs.Io.{WritesAtMost};
ghost use Rattle.std.specs.Io.KnownBytes.{Keeps, WriteAppends};

use std::alloc::Global;
use std::io::{self, Error, Write};
use std::marker::{Brand, PhantomData};

/// Returns the system's message on a failure, such as `No space left on device (os error 28)`, or `None` if there
/// is no failure or an allocation fails.
pub(crate) fn said_of(alloc: Global, failed: Option<Error>) -> Option<String>
    ensures { failed ≡ None → result ≡ None }
{
    let error = failed?;
    format!(in alloc; "{error}").ok()
}

/// A writer that passes everything on to a borrowed writer and keeps the last failure.
#[derive(Drop)]
pub(crate) struct WithReason<'w, W> {
    beneath: &'w mut W,
    failed: Option<Error>,
}

impl<'w, W: Write> WithReason<'w, W> {
    /// Returns a writer over the borrowed one, without a failure so far.
    pub(crate) fn new(beneath: &'w mut W) -> WithReason<'w, W>
        ensures same_writer { result.beneath.ghost_name ≡ beneath.entry.ghost_name }
        ensures bytes { result.beneath.now ≡ beneath.old }
        ensures failed { result.failed ≡ None }
    {
        WithReason {
            beneath,
            failed: None,
        }
    }

    /// Returns the borrowed writer, and the last failure, if any.
    pub(crate) fn end(self) -> (&'w mut W, Option<Error>)
        ensures same_writer { result.0.ghost_name ≡ self.entry.beneath.ghost_name }
        ensures bytes { result.0.now ≡ self.entry.beneath.now }
        ensures failed { result.1 ≡ self.entry.failed }
    {
        (self.beneath, self.failed)
    }

    fn write_beneath(&mut self, buf: &[u8]) -> io::Result<usize>
        ensures same_writer { self.new.beneath.ghost_name ≡ self.old.beneath.ghost_name }
        ensures bound { WritesAtMost result buf.now }
        ensures bytes { WriteAppends (W.contents self.old.beneath.now) (W.contents self.new.beneath.now)
            result buf.now }
        ensures ok { OnOk result (self.new.failed ≡ self.old.failed) }
        ensures err { IfErr result (λ error. self.new.failed ≡ Some error) }
    {
        match self.beneath.write(buf) {
            Ok(n) => Ok(n),
            Err(error) => Err(self.heard(error)),
        }
    }

    fn flush_beneath(&mut self) -> io::Result<()>
        ensures same_writer { self.new.beneath.ghost_name ≡ self.old.beneath.ghost_name }
        ensures bytes { Keeps (W.contents self.old.beneath.now) (W.contents self.new.beneath.now) }
        ensures ok { OnOk result (self.new.failed ≡ self.old.failed) }
        ensures err { IfErr result (λ error. self.new.failed ≡ Some error) }
    {
        match self.beneath.flush() {
            Ok(()) => Ok(()),
            Err(error) => Err(self.heard(error)),
        }
    }

    /// Keeps a failure in place of the one before, and returns it.
    fn heard(&mut self, error: Error) -> Error
        ensures same_writer { self.new.beneath.ghost_name ≡ self.old.beneath.ghost_name }
        ensures bytes { self.new.beneath.now ≡ self.old.beneath.now }
        ensures failed { self.new.failed ≡ Some error }
        ensures same { result ≡ error }
    {
        self.failed = Some(error);
        error
    }
}

/// Names a borrowed writer by a type, so that code that writes to a [`NamedWriter`] can't put another writer in
/// its place.
pub(crate) trait WriterName {
    ghost use Rattle.std.specs.Prelude.{ℕ};

    ghost name: { ℕ };
}

impl WriterName for Brand {
    ghost name = { 0 };
}

/// A writer with reasons whose borrowed writer has this name.
#[derive(Drop)]
pub(crate) struct NamedWriter<'w, W, N: WriterName> {
    pub(crate) writer: WithReason<'w, W>,
    pub(crate) name: PhantomData<N>,
    ghost same_writer: { writer.beneath.ghost_name ≡ N.name },
}

impl<W: Write, N: WriterName> Write for NamedWriter<'_, W, N> {
    ghost contents = { λ named. W.contents named.writer.beneath.now };

    fn write(&mut self, buf: &[u8]) -> io::Result<usize> {
        self.writer.write_beneath(buf)
    }

    fn flush(&mut self) -> io::Result<()> {
        self.writer.flush_beneath()
    }
}
