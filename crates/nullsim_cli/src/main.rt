//! The program. Without arguments, or with `--verbose` alone, it reads a deck from standard input and writes its
//! dump; with other arguments it carries out a command over files.
#![tactic(auto)]

mod reasons;

use crate::reasons::{WithReason, said_of};
use nullsim::{ReadFault, Texts, answer_arguments, read_text};
use std::fs::File;
use std::io::{self, ErrorKind, Read, Write};
use std::process::ExitCode;

/// The texts of files, by their paths. One of them may be standard input, by the name `-`.
#[derive(Drop)]
struct Folder<'a> {
    rt: &'a HostRuntime,
    /// Whether standard input has been read.
    is_input_read: bool,
    /// The system's message on the file that was read last, if any.
    said: Option<String>,
}

impl Folder<'_> {
    /// Reads a text to its end, and keeps what the system says if that fails.
    fn read<R: Read + Drop>(&mut self, reader: R) -> Result<Vec<u8>, ReadFault> {
        let mut reader = WithReason::new(self.rt.alloc(), reader);
        let text = read_text(self.rt.alloc(), &mut reader);
        self.said = reader.into_said();
        text
    }

    /// Keeps what is said of a text that can't be read.
    fn unread(&mut self, said: Option<String>) -> Result<Vec<u8>, ReadFault> {
        self.said = said;
        Err(ReadFault::Read)
    }

    /// Reads standard input, which can be one text alone.
    fn standard_input(&mut self) -> Result<Vec<u8>, ReadFault> {
        if self.is_input_read {
            return self.unread(None);
        }
        self.is_input_read = true;
        let input = self.rt.stdin();
        self.read(input)
    }
}

impl Texts for Folder<'_> {
    fn text(&mut self, name: &str) -> Result<Vec<u8>, ReadFault> {
        if name == "-" {
            return self.standard_input();
        }
        match File::open(self.rt, name) {
            Ok(file) => self.read(file),
            Err(error) => self.unread(said_of(self.rt.alloc(), error)),
        }
    }

    fn reason(&self) -> Option<&[u8]> {
        let said = self.said.as_ref()?;
        Some(said.as_str().as_bytes())
    }
}

/// Returns the arguments after the program's own name.
fn words_given(rt: &HostRuntime) -> io::Result<Vec<String>> {
    Ok(std::env::args(rt)?.skip(1).collect(rt.alloc())?)
}

fn main(rt: HostRuntime) -> ExitCode {
    let alloc = rt.alloc();
    let (mut out, mut err) = (rt.stdout(), rt.stderr());
    let status = match words_given(&rt) {
        Ok(words) => {
            let mut files = Folder {
                rt: &rt,
                is_input_read: false,
                said: None,
            };
            answer_arguments(
                alloc,
                words.as_slice(),
                &mut rt.stdin(),
                &mut files,
                &mut out,
                &mut err,
            )
        }
        Err(fault) if fault.kind() == ErrorKind::OutOfMemory => {
            let _ = err.write_all(b"memory:0: Memory\n");
            4
        }
        Err(_) => {
            let _ = err.write_all(b"error: an argument isn't UTF-8 text\n");
            2
        }
    };
    ExitCode::from(status)
}
