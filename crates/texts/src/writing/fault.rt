//! Why a write failed.
ghost use Rattle.std.specs.Prelude.{◌≡◌, Some};
ghost use Rattle.texts.specs.Faults.{name_of};

use std::fmt;
use thiserror::Error;

/// Why a text wasn't written whole. A prefix of it has been written then.
#[derive(Clone, Copy, Debug, PartialEq, Eq, Error)]
pub enum WriteFault {
    /// A `write` returned an error of any kind.
    Write,
    /// A `write` took none of its bytes.
    WroteNothing,
}

impl WriteFault {
    /// Returns the fault's name, which is its text.
    pub fn name(&self) -> &'static str
        ensures { result.now ≡ name_of self.now }
    {
        match self {
            WriteFault::Write => "Write",
            WriteFault::WroteNothing => "WroteNothing",
        }
    }
}

impl fmt::Display for WriteFault {
    ghost output = { λ fault. Some (name_of fault) };

    fn fmt<W: fmt::Write>(&self, f: &mut fmt::Formatter<W>) -> Result<(), fmt::Error> {
        f.write_str(self.name())
    }
}
