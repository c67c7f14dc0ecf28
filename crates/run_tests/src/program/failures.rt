//! The messages for an answer that can't be written or flushed, with `--verbose` and without.
use crate::program::shelf::status_of;
use std::alloc::Global;
use std::io::{self, Error, ErrorKind, Write};
use std::process::Abort;
use std::test::Fail;

/// What a writer does once its room is used up.
#[derive(Clone, Copy)]
pub(crate) enum Behind {
    /// It fails with this kind of fault.
    Fails(ErrorKind),
    /// It accepts nothing.
    TakesNothing,
    /// It has room for everything, and its flush fails with this kind of fault.
    FailsToFlush(ErrorKind),
}

/// A writer with this room.
#[derive(Drop)]
pub(crate) struct Short {
    pub(crate) room: usize,
    pub(crate) behind: Behind,
}

impl Write for Short {
    fn write(&mut self, buf: &[u8]) -> io::Result<usize> {
        let count = buf.len().min(self.room);
        if count > 0 {
            self.room -= count;
            return Ok(count);
        }
        match self.behind {
            Behind::Fails(kind) => Err(Error::from(kind)),
            Behind::TakesNothing | Behind::FailsToFlush(_) => Ok(0),
        }
    }

    fn flush(&mut self) -> io::Result<()> {
        match self.behind {
            Behind::FailsToFlush(kind) => Err(Error::from(kind)),
            Behind::Fails(_) | Behind::TakesNothing => Ok(()),
        }
    }
}

/// The room of a writer and what it does after that, the line on standard error, and what follows it with
/// `--verbose`.
pub(crate) type Failure = (usize, Behind, &'static str, &'static str);

pub(crate) static FAILURES: [Failure; 5] = [
    // A full disk.
    (
        0,
        Behind::Fails(ErrorKind::StorageFull),
        "stdout:0: Write\n",
        "system error: no storage space\n\
          Write (reading and writing): standard output couldn't be written or flushed: the disk is full, or its reader has ended.\n\
          needed: free space on the disk, or a reader that reads to the end\n",
    ),
    // A reader that ends early.
    (
        9,
        Behind::Fails(ErrorKind::BrokenPipe),
        "stdout:0: Write\n",
        "system error: broken pipe\n\
          Write (reading and writing): standard output couldn't be written or flushed: the disk is full, or its reader has ended.\n\
          needed: free space on the disk, or a reader that reads to the end\n",
    ),
    // A disk that is full at the flush.
    (
        999,
        Behind::FailsToFlush(ErrorKind::QuotaExceeded),
        "stdout:0: Write\n",
        "system error: quota exceeded\n\
          Write (reading and writing): standard output couldn't be written or flushed: the disk is full, or its reader has ended.\n\
          needed: free space on the disk, or a reader that reads to the end\n",
    ),
    // The system has no message.
    (
        0,
        Behind::TakesNothing,
        "stdout:0: WroteNothing\n",
        "WroteNothing (reading and writing): standard output accepted no byte of what was written.\n\
          needed: an output that accepts what is written to it\n",
    ),
    (
        9,
        Behind::TakesNothing,
        "stdout:0: WroteNothing\n",
        "WroteNothing (reading and writing): standard output accepted no byte of what was written.\n\
          needed: an output that accepts what is written to it\n",
    ),
];

/// With such a writer, the status is 3, and these bytes are written to standard error.
fn answers(
    rt: &impl Abort,
    alloc: Global,
    line: &str,
    room: usize,
    behind: Behind,
    message: &[u8],
) {
    let (mut out, mut err) = (Short { room, behind }, Vec::new(alloc));
    let status = status_of(alloc, line, &mut out, &mut err);
    assert!(rt;
        status == Some(3) && err.as_slice() == message,
        "at {line}, {room}"
    );
}

fn is_reported(rt: &impl Abort, alloc: Global, line: &str, failure: &Failure) -> Result<(), Fail> {
    let (room, behind, fault, explained) = *failure;
    let mut message = Vec::from_slice(alloc, fault.as_bytes())?;
    answers(rt, alloc, line, room, behind, message.as_slice());
    message.extend_from_slice(explained.as_bytes())?;
    let verbose = format!(in alloc; "-v {line}")?;
    answers(
        rt,
        alloc,
        verbose.as_str(),
        room,
        behind,
        message.as_slice(),
    );
    Ok(())
}

#[test]
fn failed_writes(rt: HostRuntime) -> Result<(), Fail> {
    for line in [
        "info --bench inv.bench",
        "cone --bench inv.bench y",
        "run --bench inv.bench --horizon 20",
        "plain --bench inv.bench --horizon 20",
    ] {
        for failure in &FAILURES {
            is_reported(&rt, rt.alloc(), line, failure)?;
        }
    }
    Ok(())
}
