//! A writer that knows what it should be given.
use std::io::{self, Write};

/// A writer that takes all that it is given, and checks whether it is a prefix of a text. It takes no memory.
#[derive(Drop)]
pub struct Follower {
    // What is left of the text.
    rest: &'static [u8],
    follows: bool,
}

impl Follower {
    /// Returns a writer that checks for this text.
    pub fn of(text: &'static [u8]) -> Follower {
        Follower {
            rest: text,
            follows: true,
        }
    }

    /// Returns whether what it took is a prefix of the text, or all of it.
    pub fn follows(&self) -> bool {
        self.follows
    }

    /// Returns whether what it took is the text.
    pub fn is_whole(&self) -> bool {
        self.follows && self.rest.is_empty()
    }

    /// Returns how many bytes of the text it didn't take.
    pub fn left(&self) -> usize {
        self.rest.len()
    }
}

impl Write for Follower {
    fn write(&mut self, buf: &[u8]) -> io::Result<usize> {
        match self.rest.strip_prefix(buf) {
            Some(rest) => self.rest = rest,
            None => self.follows = false,
        }
        Ok(buf.len())
    }

    fn flush(&mut self) -> io::Result<()> {
        Ok(())
    }
}
