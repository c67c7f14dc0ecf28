//! Changes as processes keep them.
ghost use Rattle.std.specs.Prelude.{◌≡◌, ◌==◌, ◌+◌, ◌-◌, ◌<◌, ◌≤◌, [], ◌∷◌, ◌++◌, length, take, drop, nat_lt, OnOk, OnErr};
ghost use Rattle.std.specs.List.{prefix_len};
ghost use Rattle.logic3.specs.declared.change.Change.{Change};
ghost use Rattle.logic3.specs.Rising.{TicksRise};
ghost use Rattle.logic3.specs.Wave.{value_in_the_end};
ghost use Rattle.cmb_channels.specs.Packed.{changes_said};
ghost use Rattle.gate_process.specs.Knowledge.{delayed_changes};
ghost use Rattle.gate_process.specs.LaterChanges.{passed_left, passed_value};

use cmb_channels::{Packed, PackedChange};
use logic3::Value;
use smallvec::SmallVec;
use std::alloc::{AllocError, Global};
use std::marker::Model;

// Up to this number of changes need no allocation: they fit in the place of a list's pointer, length and
// capacity.
const FEW: usize = 4;

/// The changes that are kept of a net, in four bytes each: added at the end, and dropped from the front.
///
/// Both take constant time on average. Memory is kept for later changes, so it follows the largest number of
/// changes that were kept at a time.
#[derive(Debug, Drop)]
pub struct KeptChanges {
    changes: SmallVec<PackedChange, FEW>,
    // The changes before this place were dropped.
    start: usize,
}

impl Model for KeptChanges {
    ghost use Rattle.std.specs.Prelude.{◌≤◌, List, length, drop};
    ghost use Rattle.logic3.specs.declared.change.Change.{Change};

    ghost Value = { List Change };

    ghost view = { λ q. drop q.start q.changes.items };

    ghost invariant = { λ q. q.start ≤ length q.changes.items };
}

impl KeptChanges {
    /// Returns an empty list.
    pub fn new(alloc: Global) -> KeptChanges
        ensures { result ≡ [] }
    {
        KeptChanges {
            changes: SmallVec::new(alloc),
            start: 0,
        }
    }

    /// Returns the changes, in order.
    pub fn as_slice(&self) -> &[PackedChange]
        ensures { result.now ≡ self.now }
    {
        &self.changes.as_slice()[self.start..]
    }

    /// Returns whether there are none.
    pub fn is_empty(&self) -> bool
        ensures { result ≡ (length self.now == 0) }
    {
        self.as_slice().is_empty()
    }

    /// Adds a change at the end. An `AllocError` changes nothing.
    pub fn push(&mut self, change: PackedChange) -> Result<(), AllocError>
        ensures ok { OnOk result (self.new ≡ self.old ++ change ∷ []) }
        ensures err { OnErr result (self.new ≡ self.old) }
    {
        self.changes.push(change)?;
        Ok(())
    }

    /// Adds the changes that messages report at the end. An `AllocError` changes nothing.
    pub fn extend(&mut self, news: &[Packed]) -> Result<(), AllocError>
        ensures ok { OnOk result (self.new ≡ self.old ++ changes_said news.now) }
        ensures err { OnErr result (self.new ≡ self.old) }
        ensures memory { OnErr result (0 < length news.now) }
    {
        if news.is_empty() {
            return Ok(());
        }
        add_changes(&mut self.changes, news)
    }

    /// Drops this number of changes from the front. Their memory is kept for later ones.
    pub fn drop_front(&mut self, count: usize)
        requires { count ≤ length self.old }
        ensures { self.new ≡ drop count self.old }
    {
        let len = self.changes.len();
        self.start += count;
        if self.start == len {
            self.changes.clear();
            self.start = 0;
        } else if self.start > len / 2 {
            move_to_front(self.changes.as_mut_slice(), self.start);
            self.changes.truncate(len - self.start);
            self.start = 0;
        }
    }
}

/// Moves the changes from a place on to the front. There are at most as many as before that place.
// They change places with the first ones, since a rotation clears a room of its own at each call.
fn move_to_front(changes: &mut [PackedChange], start: usize)
    requires start { start ≤ length changes.old }
    requires few { length changes.old ≤ start + start }
    ensures moved { take (length changes.old - start) changes.new ≡ drop start changes.old }
    ensures length { length changes.new ≡ length changes.old }
{
    let (dropped, left) = changes.split_at_mut(start);
    dropped[..left.len()].swap_with_slice(left);
}

/// Adds the changes that messages report at the end of a list. An `AllocError` changes nothing.
fn add_changes(changes: &mut SmallVec<PackedChange, FEW>, news: &[Packed]) -> Result<(), AllocError>
    ensures ok { OnOk result (changes.new.items ≡ changes.old.items ++ changes_said news.now) }
    ensures err { OnErr result (changes.new.items ≡ changes.old.items) }
{
    changes.reserve(news.len())?;
    for message in news {
        if let Some(change) = message.change() {
            changes.push_reserved(change);
        }
    }
    Ok(())
}

/// Returns the value of the last change, or the value before them if there is none.
pub fn last_kept(before: Value, changes: &[PackedChange]) -> Value
    ensures { result ≡ value_in_the_end before changes.now }
{
    match changes.last() {
        Some(change) => change.value(),
        None => before,
    }
}

/// Returns the number of leading changes before a tick, in as many steps, or at once if none or all are.
#[inline(always)]
pub fn kept_below(changes: &[PackedChange], tick: u64) -> usize
    requires { TicksRise changes.now }
    ensures count { result ≡ prefix_len (λ (change : Change). nat_lt change.tick tick) changes.now }
    ensures within { result ≤ length changes.now }
{
    // Where none is, one look is enough.
    match changes.first() {
        Some(first) if first.tick() < tick => {}
        _ => return 0,
    }
    if let Some(last) = changes.last() {
        if last.tick() < tick {
            return changes.len();
        }
    }
    changes
        .iter()
        .take_while(|change| change.tick() < tick)
        .count()
}

/// Passes the leading changes that aren't seen after a tick, where each is seen later by the delay of a wire.
/// Returns the value of the last of them, or the value before them if there is none, and the changes that are
/// left. Takes a step for each change that it passes.
pub fn pass_due(
    changes: &[PackedChange],
    wire: u32,
    before: Value,
    tick: u64,
) -> (Value, &[PackedChange])
    ensures value { result.0 ≡ passed_value wire tick before changes.now }
    ensures left { delayed_changes wire result.1.now ≡ passed_left wire tick changes.now }
{
    let mut value = before;
    let mut left = changes;
    while let Some((first, others)) = left.split_first() {
        if first.seen_tick(wire) > tick {
            break;
        }
        value = first.value();
        left = others;
    }
    (value, left)
}
