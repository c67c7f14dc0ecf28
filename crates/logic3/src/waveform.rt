ghost use Rattle.std.specs.Prelude.{◌≡◌, ◌≢◌, ℕ, ◌+◌, ◌<◌, ◌≤◌, ◌↔◌, [], ◌∷◌, ◌++◌, All, length, Some, IsTrue, IfOk, OnOk, OnErr};
ghost use Rattle.logic3.specs.declared.value.Value.TheVariants.{Unknown};

use crate::change::{Change, changes_below, changes_until, due_below, value_after};
use crate::change_queue::ChangeQueue;
use crate::value::Value;
use std::alloc::{AllocError, Global};
use std::marker::Model;

/// What a net shows at each tick: a value before the first change, and the changes.
#[derive(Debug, Drop)]
pub struct Waveform {
    before: Value,
    changes: ChangeQueue,
}

impl Model for Waveform {
    ghost use Rattle.logic3.specs.Wave.{Wave, IsWave};

    ghost Value = { Wave };

    ghost view = { λ w. record { before = w.before; changes = w.changes } };

    ghost invariant = { λ w. IsWave (record { before = w.before; changes = w.changes }) };
}

impl Waveform {
    ghost use Rattle.logic3.specs.Wave.{value_at, last_value, joined, changes_below, changes_within, without_below, IsBefore, IsWave};

    /// Makes a waveform that is X at every tick.
    pub fn new(alloc: Global) -> Self
        ensures { result ≡ record { before = Unknown; changes = [] } }
    {
        Waveform {
            before: Value::Unknown,
            changes: ChangeQueue::new(alloc),
        }
    }

    /// Returns the value before the first change.
    pub fn before(&self) -> Value
        ensures { result ≡ self.now.before }
    {
        self.before
    }

    /// Returns the changes in order: their ticks rise strictly, and the value of each differs from the
    /// one before it, that of the first from [`before`](Self::before).
    pub fn changes(&self) -> &[Change]
        ensures changes { result.now ≡ self.now.changes }
        ensures alternates { IsWave self.now }
    {
        self.changes.as_slice()
    }

    /// Returns the value at a tick: that of the last change that is not after it, else the value before
    /// the first.
    ///
    /// Takes logarithmic time.
    pub fn value_at(&self, tick: u64) -> Value
        ensures { result ≡ value_at self.now tick }
    {
        value_after(self.before, self.changes.as_slice(), tick)
    }

    /// Returns the changes from one tick up to but not including another.
    ///
    /// Takes logarithmic time.
    pub fn changes_within(&self, from: u64, to: u64) -> &[Change]
        ensures { result.now ≡ changes_within from to self.now.changes }
    {
        let changes = self.changes.as_slice();
        let early = changes_below(changes, from).len();
        changes_below(&changes[early..], to)
    }

    /// Returns the first tick after this one at which the waveform shows another value, if any.
    ///
    /// Takes logarithmic time.
    pub fn next_change_after(&self, tick: u64) -> Option<u64>
        ensures later { (at : ℕ) → result ≡ Some at → tick < at }
        ensures differs { (at : ℕ) → result ≡ Some at → value_at self.now at ≢ value_at self.now tick }
        ensures steady { (at : ℕ) → tick ≤ at → IsBefore at result → value_at self.now at ≡ value_at self.now tick }
    {
        let changes = self.changes.as_slice();
        let due = changes_until(changes, tick).len();
        changes[due..].first().map(|next| next.tick)
    }

    /// Returns the value of the last change, or the value before the first if there is none.
    pub fn last_value(&self) -> Value
        ensures { result ≡ last_value self.now }
    {
        self.changes
            .as_slice()
            .last()
            .map_or(self.before, |change| change.value)
    }

    /// Adds a change at the end.
    ///
    /// An `AllocError` leaves the waveform unchanged.
    pub fn push(&mut self, change: Change) -> Result<(), AllocError>
        requires later { All (λ earlier. earlier.tick < change.tick) self.old.changes }
        requires differs { change.value ≢ last_value self.old }
        ensures ok { OnOk result (self.new ≡ joined self.old (change ∷ [])) }
        ensures err { OnErr result (self.new ≡ self.old) }
    {
        self.changes.push(change)?;
        Ok(())
    }

    /// Removes the changes before a tick, and returns them in order. The value before the first change
    /// becomes that of the last of them, if any.
    ///
    /// If there are none, it allocates nothing. An `AllocError` leaves the waveform unchanged.
    pub fn split_below(&mut self, tick: u64) -> Result<Vec<Change>, AllocError>
        ensures below { IfOk result (λ below. below.items ≡ changes_below tick self.old.changes) }
        ensures rest { OnOk result (self.new ≡ without_below tick self.old) }
        ensures err { OnErr result (self.new ≡ self.old) }
        ensures memory { OnErr result (0 < length (changes_below tick self.old.changes)) }
    {
        let mut below = self.changes.no_changes();
        self.split_below_into(tick, &mut below)?;
        Ok(below)
    }

    /// Removes the changes before a tick as [`split_below`](Self::split_below) does, and adds them in
    /// order to the end of a list.
    ///
    /// Takes amortized time in proportion to the changes that it removes. If there are none, it makes
    /// one comparison and allocates nothing. An `AllocError` leaves the waveform and the list
    /// unchanged.
    pub fn split_below_into(&mut self, tick: u64, below: &mut Vec<Change>) -> Result<(), AllocError>
        ensures below { OnOk result (below.new.items ≡ below.old.items ++ changes_below tick self.old.changes) }
        ensures rest { OnOk result (self.new ≡ without_below tick self.old) }
        ensures same { OnErr result (below.new.items ≡ below.old.items) }
        ensures err { OnErr result (self.new ≡ self.old) }
        ensures memory { OnErr result (0 < length (changes_below tick self.old.changes)) }
    {
        let changes = self.changes.as_slice();
        let due = due_below(changes, tick);
        if due == 0 {
            return Ok(());
        }
        let taken = &changes[..due];
        below.extend_from_slice(taken)?;
        self.before = taken.last().map_or(self.before, |change| change.value);
        self.changes.drop_front(due);
        Ok(())
    }

    /// Returns an equal waveform, on the same allocator.
    pub fn copy(&self) -> Result<Waveform, AllocError>
        ensures { IfOk result (λ copy. copy ≡ self.now) }
    {
        Ok(Waveform {
            before: self.before,
            changes: self.changes.copy()?,
        })
    }
}

impl PartialEq for Waveform {
    ghost use Rattle.std.specs.Cmp.{partial_equiv_from_equiv};
    ghost use Rattle.logic3.specs.Wave.{is_same_wave, is_same_wave_equiv};

    ghost eq = { is_same_wave };

    ghost laws = { partial_equiv_from_equiv is_same_wave_equiv };

    fn eq(&self, other: &Self) -> bool
        ensures value { result ≡ is_same_wave self.now other.now }
        ensures same { IsTrue result ↔ (self.now ≡ other.now) }
    {
        self.before == other.before && self.changes.as_slice() == other.changes.as_slice()
    }
}

impl Eq for Waveform {
    ghost use Rattle.logic3.specs.Wave.{is_same_wave_equiv};

    ghost laws = { is_same_wave_equiv };
}
