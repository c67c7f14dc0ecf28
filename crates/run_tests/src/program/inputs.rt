//! Readers through `read_text` and `tell`: readers that fail, that don't end, and that return few bytes a call.
use crate::program::cut_decks::answers;
use crate::program::deck_reports::INVERTER;
use nullsim::{ReadFault, read_text, tell};
use std::alloc::Global;
use std::io::{self, ErrorKind, Read, Write};
use std::process::Abort;
use std::test::Fail;
use worked_examples::dumps::INVERTER_DUMP;

// The most bytes that are read: one more than an accepted text may have.
const MOST_READ: usize = 16_777_217;

/// Returns `z`s, at most a number in each call: a number in total and then a fault of this kind, or for ever.
#[derive(Drop)]
pub(crate) struct Source {
    pub(crate) left: Option<usize>,
    pub(crate) a_call: usize,
    pub(crate) kind: ErrorKind,
}

impl Read for Source {
    fn read(&mut self, buf: &mut [u8]) -> io::Result<usize> {
        let mut count = buf.len().min(self.a_call);
        if let Some(left) = self.left {
            if left == 0 {
                return Err(io::Error::from(self.kind));
            }
            count = count.min(left);
            self.left = Some(left - count);
        }
        for byte in &mut buf[..count] {
            *byte = b'z';
        }
        Ok(count)
    }
}

/// Returns one byte of a text in each call.
#[derive(Drop)]
struct Drops<'a> {
    text: &'a [u8],
}

impl<'a> Read for Drops<'a> {
    fn read(&mut self, buf: &mut [u8]) -> io::Result<usize> {
        match (self.text.split_first(), buf.first_mut()) {
            (Some((byte, rest)), Some(place)) => {
                *place = *byte;
                self.text = rest;
                Ok(1)
            }
            _ => Ok(0),
        }
    }
}

// Reading ends with a fault.
fn fails<R: Read>(rt: &impl Abort, alloc: Global, input: &mut R) {
    let answer = read_text(alloc, input);
    assert!(rt; matches!(&answer, Err(ReadFault::Read)));
}

// This text is read.
fn reads<R: Read>(rt: &impl Abort, alloc: Global, input: &mut R, text: &[u8]) {
    let is_read = match read_text(alloc, input) {
        Ok(all) => all.as_slice() == text,
        Err(_) => false,
    };
    assert!(rt; is_read);
}

#[test]
fn a_fault_ends_the_reading(rt: HostRuntime) {
    let mut input = Source {
        left: Some(10),
        a_call: 4,
        kind: ErrorKind::Interrupted,
    };
    fails(&rt, rt.alloc(), &mut input);
    assert!(rt; input.left == Some(0));
}

#[test]
fn an_endless_reader_is_left_at_the_limit(rt: HostRuntime) {
    let mut input = Source {
        left: None,
        a_call: 5000,
        kind: ErrorKind::Other,
    };
    let is_left = match read_text(rt.alloc(), &mut input) {
        Ok(text) => text.len() == MOST_READ,
        Err(_) => false,
    };
    assert!(rt; is_left);
}

#[test]
fn a_byte_a_call_makes_the_whole_text(rt: HostRuntime) {
    let mut input = Drops {
        text: b"a few bytes".as_slice(),
    };
    reads(&rt, rt.alloc(), &mut input, b"a few bytes");
    assert!(rt; input.text.is_empty());
}

/// Returns a text, then its end, and then more.
#[derive(Drop)]
struct Pausing<'a> {
    text: &'a [u8],
    pauses: u32,
    more: &'a [u8],
}

impl<'a> Read for Pausing<'a> {
    fn read(&mut self, buf: &mut [u8]) -> io::Result<usize> {
        if !self.text.is_empty() {
            return self.text.read(buf);
        }
        if self.pauses > 0 {
            self.pauses -= 1;
            return Ok(0);
        }
        self.more.read(buf)
    }
}

#[test]
fn what_comes_after_the_end_is_not_read(rt: HostRuntime) {
    for text in [b"".as_slice(), b"a few bytes".as_slice()] {
        let mut input = Pausing {
            text,
            pauses: 1,
            more: b"%nullsim 0".as_slice(),
        };
        reads(&rt, rt.alloc(), &mut input, text);
        assert!(rt; input.more.len() == 10);
    }
}

// A deck that is read one byte a call is the same deck.
#[test]
fn a_deck_in_drops(rt: HostRuntime) {
    let mut input = Drops { text: INVERTER };
    answers(&rt, rt.alloc(), &mut input, 0, INVERTER_DUMP, b"");
}

#[test]
fn long_pieces_make_the_whole_text(rt: HostRuntime) -> Result<(), Fail> {
    let mut all = Vec::new(rt.alloc());
    for number in 0..9000u16 {
        all.push((number % 251) as u8)?;
    }
    reads(&rt, rt.alloc(), &mut all.as_slice(), all.as_slice());
    Ok(())
}

/// Fails in its first call, and then returns a text.
#[derive(Drop)]
struct Stumbling<'a> {
    kind: ErrorKind,
    has_failed: bool,
    text: &'a [u8],
}

impl<'a> Read for Stumbling<'a> {
    fn read(&mut self, buf: &mut [u8]) -> io::Result<usize> {
        if self.has_failed {
            return self.text.read(buf);
        }
        self.has_failed = true;
        Err(io::Error::from(self.kind))
    }
}

#[test]
fn a_reader_that_fails_once(rt: HostRuntime) {
    for kind in [ErrorKind::Other, ErrorKind::Interrupted] {
        let mut input = Stumbling {
            kind,
            has_failed: false,
            text: b"%nullsim 0".as_slice(),
        };
        fails(&rt, rt.alloc(), &mut input);
        assert!(rt; input.text.len() == 10);
    }
}

// If a deck can't be read to its end, or has no end, nothing is written.
#[test]
fn faulty_readers(rt: HostRuntime) {
    for (left, a_call, status, fault) in [
        (Some(10), 1, 3, "stdin:0: Read\n"),
        (None, MOST_READ, 1, "deck:0: TooLong\n"),
    ] {
        let kind = ErrorKind::Other;
        let mut input = Source { left, a_call, kind };
        answers(&rt, rt.alloc(), &mut input, status, b"", fault.as_bytes());
    }
}

/// Fails in every call.
#[derive(Drop)]
struct Broken {
    kind: ErrorKind,
}

impl Write for Broken {
    fn write(&mut self, _buf: &[u8]) -> io::Result<usize> {
        Err(io::Error::from(self.kind))
    }

    fn flush(&mut self) -> io::Result<()> {
        Err(io::Error::from(self.kind))
    }
}

#[test]
fn a_failed_reader_and_a_failed_writer_of_faults(rt: HostRuntime) {
    for kind in [ErrorKind::Other, ErrorKind::Interrupted] {
        let mut input = Source {
            left: Some(0),
            a_call: 1,
            kind,
        };
        let mut err = Broken { kind };
        let mut out = Vec::new(rt.alloc());
        let status = tell(rt.alloc(), &mut input, &mut out, &mut err);
        assert!(rt; status == 3 && out.is_empty());
    }
}
