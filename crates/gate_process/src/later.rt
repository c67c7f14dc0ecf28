//! The changes that a walk hasn't passed yet.
ghost use Rattle.std.specs.Prelude.{◌≡◌, take, drop, option_map, slice_get};
ghost use Rattle.logic3.specs.declared.change.Change.{Change};
ghost use Rattle.logic3.specs.Wave.{value_in_the_end};
ghost use Rattle.gate_process.specs.Knowledge.{delayed_changes};
ghost use Rattle.gate_process.specs.LaterChanges.{due_by};

use crate::changes::{due_changes, last_value};
use crate::kept_changes::pass_due;
use cmb_channels::PackedChange;
use logic3::{Change, Value};
use std::marker::Model;

/// The changes that are left of what a net reads, at the ticks at which they are seen.
#[derive(Debug, Drop)]
pub struct Later<'c> {
    source: Source<'c>,
}

/// Where the changes come from.
#[derive(Clone, Copy, Debug)]
enum Source<'c> {
    /// The stimuli of an input.
    Stimuli(&'c [Change]),
    /// What a pin received, which is seen later by the delay of its wire.
    Pin(&'c [PackedChange], u32),
}

impl<'c> Model for Later<'c> {
    ghost use Rattle.std.specs.Prelude.{List};
    ghost use Rattle.logic3.specs.declared.change.Change.{Change};
    ghost use Rattle.gate_process.specs.LaterChanges.{changes_of};

    ghost Value = { List Change };

    ghost view = { λ l. changes_of l.source };
}

impl<'c> Later<'c> {
    /// Returns the stimuli of an input.
    pub fn stimuli(changes: &'c [Change]) -> Later<'c>
        ensures { result ≡ changes.now }
    {
        Later {
            source: Source::Stimuli(changes),
        }
    }

    /// Returns what a pin received, seen later by the delay of its wire.
    pub fn received(changes: &'c [PackedChange], wire: u32) -> Later<'c>
        ensures { result ≡ delayed_changes wire changes.now }
    {
        Later {
            source: Source::Pin(changes, wire),
        }
    }

    /// Returns the tick of the first change.
    pub fn first_tick(&self) -> Option<u64>
        ensures { result ≡ option_map (λ (change : Change). change.tick) (slice_get self.now 0) }
    {
        match self.source {
            Source::Stimuli(changes) => Some(changes.first()?.tick),
            Source::Pin(changes, wire) => Some(changes.first()?.seen_tick(wire)),
        }
    }

    /// Passes the changes up to and including a tick, and returns the value of the last of them, or the value
    /// before them if there is none.
    pub fn pass(&mut self, before: Value, tick: u64) -> Value
        ensures value { result ≡ value_in_the_end before (take (due_by tick self.old) self.old) }
        ensures left { self.new ≡ drop (due_by tick self.old) self.old }
    {
        match self.source {
            Source::Stimuli(changes) => {
                let (passed, left) = changes.split_at(due_changes(changes, tick));
                self.source = Source::Stimuli(left);
                last_value(before, passed)
            }
            Source::Pin(changes, wire) => {
                let (value, left) = pass_due(changes, wire, before, tick);
                self.source = Source::Pin(left, wire);
                value
            }
        }
    }
}
