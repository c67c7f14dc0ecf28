//! Writers that fail.
use std::alloc::Global;
use std::io::{self, ErrorKind, Write};

/// A writer with a limit on the bytes that it takes in all, and in each call; then it fails or takes none.
#[derive(Drop)]
pub struct Narrow {
    /// What it took.
    pub taken: Vec<u8>,
    /// How often it was called.
    pub calls: u32,
    room: usize,
    most: usize,
    /// Whether it fails if there is no room.
    pub fails: bool,
    /// How often it was flushed.
    pub flushes: u32,
    /// Whether a flush fails.
    pub flush_fails: bool,
}

impl Narrow {
    /// Returns a writer with this much room, which fails if there is none.
    pub fn new(alloc: Global, room: usize, most: usize) -> Narrow {
        Narrow {
            taken: Vec::new(alloc),
            calls: 0,
            room,
            most,
            fails: true,
            flushes: 0,
            flush_fails: false,
        }
    }
}

impl Write for Narrow {
    fn write(&mut self, buf: &[u8]) -> io::Result<usize> {
        self.calls = self.calls.saturating_add(1);
        let count = buf.len().min(self.room).min(self.most);
        if count == 0 && self.fails {
            return Err(io::Error::from(ErrorKind::Other));
        }
        self.taken.extend_from_slice(&buf[..count])?;
        self.room -= count;
        Ok(count)
    }

    fn flush(&mut self) -> io::Result<()> {
        self.flushes = self.flushes.saturating_add(1);
        if self.flush_fails {
            return Err(io::Error::from(ErrorKind::Other));
        }
        Ok(())
    }
}

/// What a writer does at the one call at which it stumbles.
#[derive(Clone, Copy)]
pub enum Slip {
    /// It fails with a fault of this kind.
    Fails(ErrorKind),
    /// It takes nothing.
    TakesNothing,
}

/// Each way to stumble: an interruption is a failure, too.
pub static SLIPS: [Slip; 3] = [
    Slip::Fails(ErrorKind::Other),
    Slip::Fails(ErrorKind::Interrupted),
    Slip::TakesNothing,
];

/// A writer that stumbles at one call, and takes all that it is given at every other one.
#[derive(Drop)]
pub struct Stumbling {
    /// What it took.
    pub taken: Vec<u8>,
    /// How often it was called.
    pub calls: u32,
    /// How often it was given nothing.
    pub empty: u32,
    at: u32,
    slip: Slip,
}

impl Stumbling {
    /// Returns a writer that stumbles in this way at the call of this number, from 0.
    pub fn new(alloc: Global, at: u32, slip: Slip) -> Stumbling {
        Stumbling {
            taken: Vec::new(alloc),
            calls: 0,
            empty: 0,
            at,
            slip,
        }
    }
}

impl Write for Stumbling {
    fn write(&mut self, buf: &[u8]) -> io::Result<usize> {
        let call = self.calls;
        self.calls = call.saturating_add(1);
        if buf.is_empty() {
            self.empty = self.empty.saturating_add(1);
        }
        if call == self.at {
            return match self.slip {
                Slip::Fails(kind) => Err(io::Error::from(kind)),
                Slip::TakesNothing => Ok(0),
            };
        }
        self.taken.extend_from_slice(buf)?;
        Ok(buf.len())
    }

    fn flush(&mut self) -> io::Result<()> {
        Ok(())
    }
}
