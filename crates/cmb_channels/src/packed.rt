//! Messages and changes in four bytes each.
ghost use Rattle.std.specs.Prelude.{◌≡◌, ◌+◌, ◌<◌, nat_lt};
ghost use Rattle.logic3.specs.declared.change.Change.{Change};
ghost use Rattle.cmb_channels.specs.declared.message.Message.TheVariants.{Change as Changes, Null};
ghost use Rattle.cmb_channels.specs.Packed.{packed_ticks, change_said};
ghost use Rattle.cmb_channels.specs.Logs.{tick_said};

use crate::message::Message;
use logic3::{Change, Value};
use std::marker::Model;

/// The ticks that fit are below this number, 2^30. So are those of any run.
const TICKS: u64 = 1 << 30;

// The values of changes by their numbers. The last number is that of null messages, so no change has it.
static VALUES: [Value; 4] = [Value::Zero, Value::One, Value::Unknown, Value::Unknown];

/// A message in four bytes: four times its tick, and a number for the value of a change, or for a null
/// message.
#[derive(Clone, Copy, Debug, Default)]
pub struct Packed {
    code: u32,
}

impl Model for Packed {
    ghost use Rattle.cmb_channels.specs.declared.message.Message.{Message};
    ghost use Rattle.cmb_channels.specs.Packed.{message_of, code_of, code_back};

    ghost Value = { Message };

    ghost view = { λ p. message_of p.code };

    ghost inverse = { λ message. record { code = code_of message } };

    ghost inverse_ok = { λ p h. λ i. record { code = code_back p.code i } };
}

impl Packed {
    /// Returns whether a message fits.
    pub fn fits(message: Message) -> bool
        ensures { result ≡ nat_lt (tick_said message) packed_ticks }
    {
        let tick = match message {
            Message::Change(change) => change.tick,
            Message::Null(bound) => bound,
        };
        tick < TICKS
    }

    /// Packs a message that fits.
    pub fn of(message: Message) -> Packed
        requires { tick_said message < packed_ticks }
        ensures { result ≡ message }
    {
        match message {
            Message::Change(change) => Packed::changed(change),
            Message::Null(bound) => Packed::null(bound),
        }
    }

    /// Packs a change that fits.
    pub fn changed(change: Change) -> Packed
        requires { change.tick < packed_ticks }
        ensures { result ≡ Changes change }
    {
        Packed {
            code: change.tick as u32 * 4 + change.value as u32,
        }
    }

    /// Packs a null message that fits.
    pub fn null(bound: u64) -> Packed
        requires { bound < packed_ticks }
        ensures { result ≡ Null bound }
    {
        Packed {
            code: bound as u32 * 4 + 3,
        }
    }

    /// Returns the message.
    pub fn message(&self) -> Message
        ensures { result ≡ self.now }
    {
        let tick = u64::from(self.code / 4);
        let value = match self.code % 4 {
            0 => Value::Zero,
            1 => Value::One,
            2 => Value::Unknown,
            _ => return Message::Null(tick),
        };
        Message::Change(Change { tick, value })
    }

    /// Returns the tick of the change, or the number of ticks that the null message reports as known.
    pub fn tick(&self) -> u64
        ensures { result ≡ tick_said self.now }
    {
        u64::from(self.code) / 4
    }

    /// Returns the change, unless this is a null message.
    pub fn change(&self) -> Option<PackedChange>
        ensures { result ≡ change_said self.now }
    {
        if self.code % 4 == 3 {
            return None;
        }
        Some(PackedChange { code: self.code })
    }
}

/// A change in four bytes: four times its tick, and a number for its value.
#[derive(Debug, Default, Drop)]
pub struct PackedChange {
    code: u32,
}

impl Model for PackedChange {
    ghost use Rattle.logic3.specs.declared.change.Change.{Change};
    ghost use Rattle.cmb_channels.specs.Packed.{change_of};

    ghost Value = { Change };

    ghost view = { λ c. change_of c.code };
}

impl PackedChange {
    /// Packs a change that fits.
    pub fn of(change: Change) -> PackedChange
        requires { change.tick < packed_ticks }
        ensures { result ≡ change }
    {
        PackedChange {
            code: change.tick as u32 * 4 + change.value as u32,
        }
    }

    /// Returns the change.
    pub fn change(&self) -> Change
        ensures { result ≡ self.now }
    {
        Change {
            tick: self.tick(),
            value: self.value(),
        }
    }

    /// Returns the tick of the change.
    pub fn tick(&self) -> u64
        ensures { result ≡ self.now.tick }
    {
        u64::from(self.code / 4)
    }

    /// Returns the tick at which the change is seen, later by the delay of a wire.
    pub fn seen_tick(&self, wire: u32) -> u64
        ensures { result ≡ self.now.tick + wire }
    {
        u64::from(self.code / 4) + u64::from(wire)
    }

    /// Returns the value from the change's tick on.
    pub fn value(&self) -> Value
        ensures { result ≡ self.now.value }
    {
        VALUES[(self.code % 4) as usize]
    }
}
