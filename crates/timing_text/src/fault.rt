ghost use Rattle.std.specs.Prelude.{◌≡◌, Some};
ghost use Rattle.timing_text.specs.declared.fault.DelayFault.TheVariants as delay;
ghost use Rattle.timing_text.specs.declared.fault.StimulusFault.TheVariants as stimulus;
ghost use Rattle.timing_text.specs.Faults.{delay_line, delay_name, option_name, stimulus_line, stimulus_name};

use std::alloc::{AllocError, AllocFailed};
use std::fmt;
use thiserror::Error;

/// An option out of its range.
#[derive(Clone, Copy, Debug, PartialEq, Eq, Error)]
pub enum OptionFault {
    /// The default delay is 0 or above 1,000,000 ticks.
    BadDelay,
    /// The period is 0 or above 10,000,000 ticks.
    BadPeriod,
    /// The horizon is above tick 10,000,000.
    BadHorizon,
}

impl OptionFault {
    /// Returns the fault's name, which is its text.
    pub fn name(&self) -> &'static str
        ensures { result.now ≡ option_name self.now }
    {
        match self {
            OptionFault::BadDelay => "BadDelay",
            OptionFault::BadPeriod => "BadPeriod",
            OptionFault::BadHorizon => "BadHorizon",
        }
    }
}

impl fmt::Display for OptionFault {
    ghost output = { λ fault. Some (option_name fault) };

    fn fmt<W: fmt::Write>(&self, f: &mut fmt::Formatter<W>) -> Result<(), fmt::Error> {
        f.write_str(self.name())
    }
}

/// Why a text gives no timings. Lines count from 1.
///
/// The first faulty line decides, and [`TooLong`](Self::TooLong) comes before all others. Within a
/// line the order is `BadLine`, `UnknownNet`, `IsInput`, `NotAFlop`, `BadPin`, `BadTicks`,
/// `BadPeriod`, `BadPhase`, `BadValue`, `Twice`.
#[derive(Clone, Copy, Debug, PartialEq, Eq, Error)]
pub enum DelayFault {
    /// The text has more than 16,777,216 bytes.
    TooLong,
    /// The line has none of the forms of its version.
    BadLine { line: u64 },
    /// No net has this name.
    UnknownNet { line: u64 },
    /// The net of a delay is an input.
    IsInput { line: u64 },
    /// The delay is 0 or above 1,000,000 ticks, or a wire delay is above 1,000,000 ticks.
    BadTicks { line: u64 },
    /// An earlier line of the same kind names this net, or this pin of the net.
    Twice { line: u64 },
    /// An allocation failed.
    Memory,
    /// The net of a clock or an initial value isn't a flip-flop.
    NotAFlop { line: u64 },
    /// The period is 0 or above 10,000,000 ticks.
    BadPeriod { line: u64 },
    /// The phase isn't below the period.
    BadPhase { line: u64 },
    /// The initial value isn't `0`, `1`, `x` or `X`.
    BadValue { line: u64 },
    /// The net has no pin at this place.
    BadPin { line: u64 },
}

impl DelayFault {
    /// Returns the line of the fault, from 1, or 0 for a fault without a line.
    pub fn line(&self) -> u64
        ensures { result ≡ delay_line self.now }
    {
        match *self {
            DelayFault::BadLine { line }
            | DelayFault::UnknownNet { line }
            | DelayFault::IsInput { line }
            | DelayFault::BadTicks { line }
            | DelayFault::Twice { line }
            | DelayFault::NotAFlop { line }
            | DelayFault::BadPeriod { line }
            | DelayFault::BadPhase { line }
            | DelayFault::BadValue { line }
            | DelayFault::BadPin { line } => line,
            DelayFault::TooLong | DelayFault::Memory => 0,
        }
    }

    /// Returns the fault's name, which is its text.
    pub fn name(&self) -> &'static str
        ensures { result.now ≡ delay_name self.now }
    {
        match self {
            DelayFault::TooLong => "TooLong",
            DelayFault::BadLine { .. } => "BadLine",
            DelayFault::UnknownNet { .. } => "UnknownNet",
            DelayFault::IsInput { .. } => "IsInput",
            DelayFault::BadTicks { .. } => "BadTicks",
            DelayFault::Twice { .. } => "Twice",
            DelayFault::Memory => "Memory",
            DelayFault::NotAFlop { .. } => "NotAFlop",
            DelayFault::BadPeriod { .. } => "BadPeriod",
            DelayFault::BadPhase { .. } => "BadPhase",
            DelayFault::BadValue { .. } => "BadValue",
            DelayFault::BadPin { .. } => "BadPin",
        }
    }
}

impl fmt::Display for DelayFault {
    ghost output = { λ fault. Some (delay_name fault) };

    fn fmt<W: fmt::Write>(&self, f: &mut fmt::Formatter<W>) -> Result<(), fmt::Error> {
        f.write_str(self.name())
    }
}

impl From<AllocError> for DelayFault {
    ghost from_gives = { λ _ e. e ≡ delay.Memory };

    fn from(_error: AllocError) -> DelayFault {
        DelayFault::Memory
    }
}

impl<T: Drop> From<AllocFailed<T>> for DelayFault {
    ghost from_gives = { λ _ e. e ≡ delay.Memory };

    fn from(_failed: AllocFailed<T>) -> DelayFault {
        DelayFault::Memory
    }
}

/// Why a text gives no stimuli. Lines count from 1.
///
/// The first faulty line decides, and within a line the order of these variants;
/// [`TooLong`](Self::TooLong) comes before all others.
#[derive(Clone, Copy, Debug, PartialEq, Eq, Error)]
pub enum StimulusFault {
    /// The text has more than 16,777,216 bytes.
    TooLong,
    /// The line is not a number, a name and a value.
    BadLine { line: u64 },
    /// No net has this name.
    UnknownNet { line: u64 },
    /// The net is not an input.
    NotAnInput { line: u64 },
    /// The tick is above 10,000,000.
    TickTooLarge { line: u64 },
    /// The value isn't `0`, `1`, `x` or `X`.
    BadValue { line: u64 },
    /// The tick is not above the last one of this net.
    NotRising { line: u64 },
    /// An allocation failed.
    Memory,
}

impl StimulusFault {
    /// Returns the line of the fault, from 1, or 0 for a fault without a line.
    pub fn line(&self) -> u64
        ensures { result ≡ stimulus_line self.now }
    {
        match *self {
            StimulusFault::BadLine { line }
            | StimulusFault::UnknownNet { line }
            | StimulusFault::NotAnInput { line }
            | StimulusFault::TickTooLarge { line }
            | StimulusFault::BadValue { line }
            | StimulusFault::NotRising { line } => line,
            StimulusFault::TooLong | StimulusFault::Memory => 0,
        }
    }

    /// Returns the fault's name, which is its text.
    pub fn name(&self) -> &'static str
        ensures { result.now ≡ stimulus_name self.now }
    {
        match self {
            StimulusFault::TooLong => "TooLong",
            StimulusFault::BadLine { .. } => "BadLine",
            StimulusFault::UnknownNet { .. } => "UnknownNet",
            StimulusFault::NotAnInput { .. } => "NotAnInput",
            StimulusFault::TickTooLarge { .. } => "TickTooLarge",
            StimulusFault::BadValue { .. } => "BadValue",
            StimulusFault::NotRising { .. } => "NotRising",
            StimulusFault::Memory => "Memory",
        }
    }
}

impl fmt::Display for StimulusFault {
    ghost output = { λ fault. Some (stimulus_name fault) };

    fn fmt<W: fmt::Write>(&self, f: &mut fmt::Formatter<W>) -> Result<(), fmt::Error> {
        f.write_str(self.name())
    }
}

impl From<AllocError> for StimulusFault {
    ghost from_gives = { λ _ e. e ≡ stimulus.Memory };

    fn from(_error: AllocError) -> StimulusFault {
        StimulusFault::Memory
    }
}

impl<T: Drop> From<AllocFailed<T>> for StimulusFault {
    ghost from_gives = { λ _ e. e ≡ stimulus.Memory };

    fn from(_failed: AllocFailed<T>) -> StimulusFault {
        StimulusFault::Memory
    }
}
