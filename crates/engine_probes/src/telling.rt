//! What the probes of failed allocations report, a line for each call.
ghost use Rattle.std.specs.Prelude.{◌≡◌, IfSome, Ok};

use std::io::Write;

/// A fault of a call: that an allocation failed, or another one.
pub(crate) trait Fault {
    /// Whether an allocation failed.
    fn is_memory(&self) -> bool;
}

impl Fault for std::alloc::AllocError {
    fn is_memory(&self) -> bool {
        true
    }
}

/// Reports what each call returned and the state after it: the line `fine CALL` or `refused CALL` if that is
/// as it must be, and `wrong CALL` if it isn't. It takes no memory.
#[derive(Drop)]
pub struct Teller<W> {
    out: W,
}

impl<W: Write> Teller<W> {
    /// Returns a teller that writes to this.
    pub fn new(out: W) -> Teller<W> {
        Teller { out }
    }

    /// Reports a call without a failed allocation. Returns `None`, which ends the probe, if it is wrong.
    pub fn fine(&mut self, call: &str, holds: bool) -> Option<()> {
        self.line("fine ", call, holds);
        if holds { Some(()) } else { None }
    }

    /// Reports a call that ran out of memory, and said so. A probe ends with it.
    pub fn refused(&mut self, call: &str, holds: bool) {
        self.line("refused ", call, holds);
    }

    /// Reports a call of which only the result is checked. Returns `None`, which ends the probe, if it is a
    /// fault.
    pub(crate) fn told<T: Drop, E: Fault + Drop>(
        &mut self,
        call: &str,
        answer: Result<T, E>,
    ) -> Option<T>
        ensures { IfSome result (λ value. answer ≡ Ok value) }
    {
        match answer {
            Ok(value) => {
                self.line("fine ", call, true);
                Some(value)
            }
            Err(fault) => {
                self.line("refused ", call, fault.is_memory());
                None
            }
        }
    }

    // A failed write of a line isn't reported.
    fn line(&mut self, word: &str, call: &str, holds: bool) {
        let word = if holds { word } else { "wrong " };
        for piece in [word, call, "\n"] {
            let _ = self.out.write_all(piece.as_bytes());
        }
    }
}
