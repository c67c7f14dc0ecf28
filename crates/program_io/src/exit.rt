//! How the program exits.
ghost use Rattle.std.specs.Prelude.{◌≡◌, IsOk};

use vcd_dump::DumpFault;

/// The exit status, and whether what is reported with it was written.
#[derive(Clone, Copy, Debug)]
pub struct Exit {
    pub status: u8,
    /// The fault for which a prefix of it was written, if any. Only the program's callers ignore it.
    pub written: Result<(), DumpFault>,
}

impl Exit {
    /// Returns the exit with this status and nothing to report.
    pub fn silent(status: u8) -> Exit
        ensures status { result.status ≡ status }
        ensures written { IsOk result.written }
    {
        Exit {
            status,
            written: Ok(()),
        }
    }
}
