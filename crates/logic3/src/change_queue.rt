ghost use Rattle.std.specs.Prelude.{◌≡◌, ◌≤◌, [], ◌∷◌, ◌++◌, length, drop, IfOk, OnOk, OnErr};

use crate::change::Change;
use std::alloc::{AllocError, Global};
use std::marker::Model;

/// A list of changes that grows at the end and is dropped from the front.
///
/// Both operations take amortized constant time. Memory is kept for the next changes, so it is in
/// proportion to the most changes that the queue had at a time. A queue that has one at a time has
/// room for one.
#[derive(Debug, Drop)]
pub struct ChangeQueue {
    changes: Vec<Change>,
    // The changes before this place were dropped.
    start: usize,
}

impl Model for ChangeQueue {
    ghost use Rattle.std.specs.Prelude.{◌≤◌, List, length, drop};
    ghost use Rattle.logic3.specs.declared.change.Change.{Change};

    ghost Value = { List Change };

    ghost view = { λ q. drop q.start q.changes.items };

    ghost invariant = { λ q. q.start ≤ length q.changes.items };
}

impl ChangeQueue {
    /// Makes an empty queue.
    pub fn new(alloc: Global) -> ChangeQueue
        ensures { result ≡ [] }
    {
        ChangeQueue {
            changes: Vec::new(alloc),
            start: 0,
        }
    }

    /// Returns the changes, in order.
    pub fn as_slice(&self) -> &[Change]
        ensures { result.now ≡ self.now }
    {
        &self.changes.as_slice()[self.start..]
    }

    /// Returns an empty list on the queue's allocator.
    pub fn no_changes(&self) -> Vec<Change>
        ensures { result.items ≡ [] }
    {
        Vec::new(*self.changes.allocator())
    }

    /// Adds a change at the end. An `AllocError` leaves the queue unchanged.
    pub fn push(&mut self, change: Change) -> Result<(), AllocError>
        ensures ok { OnOk result (self.new ≡ self.old ++ change ∷ []) }
        ensures err { OnErr result (self.new ≡ self.old) }
    {
        if self.changes.capacity() == 0 {
            self.changes.reserve_exact(1)?;
        }
        self.changes.push(change)?;
        Ok(())
    }

    /// Drops the first `count` changes. Frees no memory.
    pub fn drop_front(&mut self, count: usize)
        requires { count ≤ length self.old }
        ensures { self.new ≡ drop count self.old }
    {
        self.start += count;
        if self.start == self.changes.len() {
            self.changes.clear();
            self.start = 0;
        } else if self.start > self.changes.len() / 2 {
            self.changes.rotate_left(self.start);
            self.changes.truncate(self.changes.len() - self.start);
            self.start = 0;
        }
    }

    /// Returns the same changes, on the same allocator.
    pub fn copy(&self) -> Result<ChangeQueue, AllocError>
        ensures { IfOk result (λ copy. copy ≡ self.now) }
    {
        let mut changes = self.no_changes();
        changes.extend_from_slice(self.as_slice())?;
        Ok(ChangeQueue { changes, start: 0 })
    }
}
