//! The log of one net.
ghost use Rattle.std.specs.Prelude.{◌≡◌, ◌<◌, ◌≤◌, ◌↔◌, ◌^◌, IsTrue, length, drop, OnOk, OnErr};
ghost use Rattle.cmb_channels.specs.Logs.{past, empty_log, written, cut_to, passed};
ghost use Rattle.cmb_channels.specs.Parts.{messages_in};

use crate::logs::messages::Messages;
use crate::logs::waiting::{Part, Waiting};
use std::alloc::{AllocError, Global};
use std::marker::Model;

// A shorter log grows before anything is removed.
const LEAST_FULL: usize = 16;

/// The messages of a net, from one that every pin has taken or none has up to the newest.
#[derive(Debug, Drop)]
pub struct Log {
    // The number of pins that read it.
    readers: u32,
    // The number of these that haven't taken all messages.
    behind: u32,
    // The number of messages that were removed, modulo 2^64.
    cut: u64,
    // The messages that came after them, the oldest first.
    messages: Messages,
}

impl Model for Log {
    ghost use Rattle.cmb_channels.specs.Logs.{LogView};

    ghost Value = { LogView };

    ghost view = { λ l. record { readers = l.readers; behind = l.behind; cut = l.cut; messages = l.messages } };
}

impl Log {
    /// Makes an empty log that `readers` pins read.
    pub fn new(alloc: Global, readers: u32) -> Log
        ensures { result ≡ empty_log readers }
    {
        Log {
            readers,
            behind: 0,
            cut: 0,
            messages: Messages::new(alloc),
        }
    }

    /// Returns the number of messages in the log.
    pub fn len(&self) -> usize
        ensures { result ≡ length self.now.messages }
    {
        self.messages.len()
    }

    /// Returns whether every pin has taken all messages.
    pub fn is_read(&self) -> bool
        ensures { IsTrue result ↔ (self.now.behind ≡ 0) }
    {
        self.behind == 0
    }

    /// Returns whether `more` messages need more memory, and the log has as many messages as there are pins
    /// that read it, and more than a few. To look at each pin then costs no more than to move the messages.
    pub fn is_full(&self, more: usize) -> bool
        ensures { IsTrue result → self.now.readers ≤ length self.now.messages }
    {
        let len = self.messages.len();
        self.messages.room() < more && len >= LEAST_FULL && len >= self.readers as usize
    }

    /// Returns the messages that a pin that has taken `count` messages hasn't taken, the oldest first.
    pub fn unread(&self, count: u64) -> Waiting<'_>
        requires { past self.now.cut count ≤ length self.now.messages }
        ensures { result ≡ drop (past self.now.cut count) self.now.messages }
    {
        self.messages.from(count.wrapping_sub(self.cut) as usize)
    }

    /// Adds messages at the end, which no pin has taken. A log that no pin reads keeps nothing, and
    /// allocates nothing.
    ///
    /// An `AllocError` leaves the log unchanged.
    pub fn write(&mut self, messages: Part<'_>) -> Result<(), AllocError>
        ensures ok { OnOk result (self.new ≡ written (messages_in messages.entry) self.old) }
        ensures err { OnErr result (self.new ≡ self.old) }
        ensures memory { OnErr result (0 < self.old.readers) }
    {
        if self.readers > 0 {
            self.messages.extend(messages)?;
            self.behind = self.readers;
        }
        Ok(())
    }

    /// Notes that a pin, which was behind, has taken `count` messages now.
    pub fn pass(&mut self, count: u64)
        requires { past self.old.cut count ≡ length self.old.messages → 0 < self.old.behind }
        ensures passed { self.new ≡ passed (past self.old.cut count) self.old }
        ensures few { length self.old.messages < 2 ^ 63 }
    {
        if count.wrapping_sub(self.cut) == self.messages.len() as u64 {
            self.behind -= 1;
        }
    }

    /// Removes all messages but the last `kept`, if these are at most half of them. Keeps the memory.
    pub fn cut_to(&mut self, kept: usize)
        ensures { self.new ≡ cut_to kept self.old }
    {
        let len = self.messages.len();
        if kept <= len / 2 {
            self.cut = self.cut.wrapping_add((len - kept) as u64);
            self.messages.drop_front(len - kept);
        }
    }
}
