//! The system's message on a file that can't be read.
ghost use Rattle.std.specs.Prelude.{◌≡◌};

use std::alloc::Global;
use std::io::{self, Error, Read};

/// Returns the system's message on a failure, such as `No such file or directory (os error 2)`, or `None` if an
/// allocation fails.
pub(crate) fn said_of(alloc: Global, error: Error) -> Option<String> {
    format!(in alloc; "{error}").ok()
}

/// A reader that passes everything on from the reader beneath it and keeps the system's message on each
/// failure.
#[derive(Drop)]
pub(crate) struct WithReason<R: Drop> {
    alloc: Global,
    beneath: R,
    said: Option<String>,
}

impl<R: Drop> WithReason<R> {
    /// Returns a reader over the one beneath, without a failure so far.
    pub(crate) fn new(alloc: Global, beneath: R) -> WithReason<R> {
        WithReason {
            alloc,
            beneath,
            said: None,
        }
    }

    /// Returns the system's message on the last failure, if any.
    pub(crate) fn into_said(self) -> Option<String> {
        self.said
    }

    /// Keeps the system's message on a failure, and returns the failure.
    fn heard(&mut self, error: Error) -> Error
        ensures beneath { self.new.beneath ≡ self.old.beneath }
        ensures same { result ≡ error }
    {
        self.said = said_of(self.alloc, error);
        error
    }
}

impl<R: Read + Drop> Read for WithReason<R> {
    ghost remaining = { λ with_reason. R.remaining with_reason.beneath };

    fn read(&mut self, buf: &mut [u8]) -> io::Result<usize> {
        match self.beneath.read(buf) {
            Ok(n) => Ok(n),
            Err(error) => Err(self.heard(error)),
        }
    }
}
