//! The failure of a reader, for the system's message on it.
ghost use Rattle.std.specs.Prelude.{◌≡◌};

use std::io::{self, Error, Read};

/// A reader that passes everything on from a borrowed reader and keeps the last failure.
#[derive(Drop)]
pub(crate) struct ReaderWithReason<'r, R> {
    beneath: &'r mut R,
    failed: Option<Error>,
}

impl<'r, R: Read> ReaderWithReason<'r, R> {
    /// Returns a reader over the borrowed one, without a failure so far.
    pub(crate) fn new(beneath: &'r mut R) -> ReaderWithReason<'r, R>
        ensures { result.beneath.now ≡ beneath.old }
    {
        ReaderWithReason {
            beneath,
            failed: None,
        }
    }

    /// Returns the last failure, if any.
    pub(crate) fn end(self) -> Option<Error> {
        self.failed
    }
}

impl<R: Read> Read for ReaderWithReason<'_, R> {
    ghost remaining = { λ reader. R.remaining reader.beneath.now };

    fn read(&mut self, buf: &mut [u8]) -> io::Result<usize> {
        match self.beneath.read(buf) {
            Ok(n) => Ok(n),
            Err(error) => {
                self.failed = Some(error);
                Err(error)
            }
        }
    }
}
