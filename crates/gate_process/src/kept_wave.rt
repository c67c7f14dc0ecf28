//! How a process keeps what its net shows.
ghost use Rattle.std.specs.Prelude.{◌≡◌, ◌<◌, ◌++◌, [], length, OnOk, OnErr};
ghost use Rattle.logic3.specs.declared.value.Value.TheVariants.{Unknown};
ghost use Rattle.logic3.specs.Wave.{Wave, IsWave, last_value, joined, changes_below, without_below};
ghost use Rattle.cmb_channels.specs.Packed.{changes_said};

use crate::kept_changes::{KeptChanges, kept_below, last_kept};
use cmb_channels::{Packed, PackedChange};
use logic3::{Change, Value, Waveform};
use std::alloc::{AllocError, Global};
use std::marker::Model;

/// What a process keeps of what its net shows: a [`Waveform`], which can be read as one, or a [`PackedWave`],
/// which takes a quarter of the memory.
pub trait KeptWave: Drop {
    /// What the net shows.
    ghost wave: { Self → Wave };

    /// Returns what is X at every tick.
    fn unknown(alloc: Global) -> Self
        ensures { wave result ≡ record { before = Unknown; changes = [] } };

    /// Returns the value of the last change, or the value before the first if there is none.
    fn last(&self) -> Value
        ensures { result ≡ last_value (wave self.now) };

    /// Adds the changes that messages report at the end. After an `AllocError` some of them may be added.
    fn add(&mut self, news: &[Packed]) -> Result<(), AllocError>
        requires { IsWave (joined (wave self.old) (changes_said news.now)) }
        ensures ok { OnOk result (wave self.new ≡ joined (wave self.old) (changes_said news.now)) }
        ensures memory { OnErr result (0 < length news.now) };

    /// Removes the changes before a tick, and adds them in order to the end of a list. An `AllocError` changes
    /// neither.
    fn take_below(&mut self, tick: u64, below: &mut Vec<Change>) -> Result<(), AllocError>
        ensures below { OnOk result (below.new.items ≡ below.old.items ++ changes_below tick (wave self.old).changes) }
        ensures rest { OnOk result (wave self.new ≡ without_below tick (wave self.old)) }
        ensures same { OnErr result (below.new.items ≡ below.old.items) }
        ensures err { OnErr result (wave self.new ≡ wave self.old) }
        ensures memory { OnErr result (0 < length (changes_below tick (wave self.old).changes)) };
}

impl KeptWave for Waveform {
    ghost wave = { λ w. w };

    fn unknown(alloc: Global) -> Self {
        Waveform::new(alloc)
    }

    fn last(&self) -> Value {
        self.last_value()
    }

    fn add(&mut self, news: &[Packed]) -> Result<(), AllocError> {
        for message in news {
            if let Some(change) = message.change() {
                self.push(change.change())?;
            }
        }
        Ok(())
    }

    fn take_below(&mut self, tick: u64, below: &mut Vec<Change>) -> Result<(), AllocError> {
        self.split_below_into(tick, below)
    }
}

/// What a net shows at each tick, in four bytes a change.
#[derive(Debug, Drop)]
pub struct PackedWave {
    changes: KeptChanges,
    before: Value,
}

impl Model for PackedWave {
    ghost use Rattle.logic3.specs.Wave.{Wave, IsWave};

    ghost Value = { Wave };

    ghost view = { λ w. record { before = w.before; changes = w.changes } };

    ghost invariant = { λ w. IsWave (record { before = w.before; changes = w.changes }) };
}

impl KeptWave for PackedWave {
    ghost wave = { λ w. w };

    fn unknown(alloc: Global) -> Self {
        PackedWave {
            changes: KeptChanges::new(alloc),
            before: Value::Unknown,
        }
    }

    fn last(&self) -> Value {
        last_kept(self.before, self.changes.as_slice())
    }

    fn add(&mut self, news: &[Packed]) -> Result<(), AllocError> {
        self.changes.extend(news)
    }

    fn take_below(&mut self, tick: u64, below: &mut Vec<Change>) -> Result<(), AllocError> {
        let changes = self.changes.as_slice();
        let count = kept_below(changes, tick);
        if count == 0 {
            return Ok(());
        }
        let taken = &changes[..count];
        unpack(taken, below)?;
        self.before = last_kept(self.before, taken);
        self.changes.drop_front(count);
        Ok(())
    }
}

/// Adds changes in order to the end of a list. An `AllocError` changes nothing.
fn unpack(changes: &[PackedChange], list: &mut Vec<Change>) -> Result<(), AllocError>
    ensures ok { OnOk result (list.new.items ≡ list.old.items ++ changes.now) }
    ensures err { OnErr result (list.new.items ≡ list.old.items) }
    ensures memory { OnErr result (0 < length changes.now) }
{
    list.reserve(changes.len())?;
    for change in changes {
        list.push_reserved(change.change());
    }
    Ok(())
}
