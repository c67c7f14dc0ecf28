//! What a line of a delay text says about a net.
ghost use Rattle.std.specs.Prelude.{◌≡◌, ◌^◌, ◌-◌, option_map, IfOk};
ghost use Rattle.texts.specs.Text.{words_of};
ghost use Rattle.netlist.specs.declared.part.Part.{Part};
ghost use Rattle.timing_text.specs.declared.line.Spelled.TheVariants as said;
ghost use Rattle.timing_text.specs.TimingLines.{HasPin, cut_line, line_in, line_of_first, line_of_second, property_of_part};
ghost use Rattle.timing_text.specs.Timings.{no_properties, with_property};

use crate::fault::DelayFault;
use crate::limits::{MOST_DELAY, MOST_TICKS};
use crate::words::value_of;
use logic3::Value;
use netlist::Part;
use texts::{is_plain, number, words_of};

/// The version of a delay text. Version 2 begins with the line `timing version 2`.
#[derive(Clone, Copy, PartialEq, Eq)]
pub(crate) enum Version {
    First,
    Second,
}

/// When a flip-flop samples, in ticks.
#[derive(Clone, Copy)]
pub(crate) struct Clock {
    pub(crate) period: u64,
    pub(crate) phase: u64,
}

impl Clock {
    /// The clock of a net that isn't a flip-flop.
    pub(crate) const NONE: Clock = Clock {
        period: 0,
        phase: 0,
    };
}

/// The wire delay of the pin at a place of a net, in ticks. Places count from 0.
#[derive(Clone, Copy)]
pub(crate) struct Wire {
    pub(crate) place: u64,
    pub(crate) ticks: u64,
}

/// What a line says about its net, whether or not that is allowed for the net.
#[derive(Clone, Copy)]
pub(crate) enum Spelled {
    Delay(u64),
    Clock(Clock),
    /// `None` if the word isn't a value.
    Initial(Option<Value>),
    Wire(Wire),
}

/// What a line gives its net.
#[derive(Clone, Copy)]
pub(crate) enum Property {
    /// Ticks, 1 to 1,000,000.
    Delay(u64),
    Clock(Clock),
    Initial(Value),
    /// A pin of the net, and 0 to 1,000,000 ticks.
    Wire(Wire),
}

/// What the lines read so far give a net, without the wire delays of its pins.
#[derive(Clone, Copy)]
pub(crate) struct Properties {
    pub(crate) delay: Option<u64>,
    pub(crate) clock: Option<Clock>,
    pub(crate) initial: Option<Value>,
}

impl Properties {
    /// Returns properties in which nothing is given.
    pub(crate) fn none() -> Properties
        ensures { result ≡ no_properties }
    {
        Properties {
            delay: None,
            clock: None,
            initial: None,
        }
    }

    /// Returns these properties with this one in place of one of its kind; a wire changes nothing.
    pub(crate) fn with(self, property: Property) -> Properties
        ensures { result ≡ with_property self property }
    {
        match property {
            Property::Delay(ticks) => Properties {
                delay: Some(ticks),
                ..self
            },
            Property::Clock(clock) => Properties {
                clock: Some(clock),
                ..self
            },
            Property::Initial(value) => Properties {
                initial: Some(value),
                ..self
            },
            Property::Wire(_) => self,
        }
    }
}

/// Returns the property on the line with this number, or its fault if a net with this part and number
/// of pins can't have it.
pub(crate) fn property_of_part(
    line: u64,
    spelled: Spelled,
    part: Part,
    pins: usize,
) -> Result<Property, DelayFault>
    ensures property { result ≡ property_of_part line spelled part pins }
    ensures pin { IfOk result (λ property. HasPin pins property) }
{
    match spelled {
        Spelled::Delay(ticks) => {
            if part.is_input() {
                return Err(DelayFault::IsInput { line });
            }
            if ticks < 1 || ticks > MOST_DELAY {
                return Err(DelayFault::BadTicks { line });
            }
            Ok(Property::Delay(ticks))
        }
        Spelled::Clock(clock) => {
            if !part.is_flop() {
                return Err(DelayFault::NotAFlop { line });
            }
            if clock.period < 1 || clock.period > MOST_TICKS {
                return Err(DelayFault::BadPeriod { line });
            }
            if clock.phase >= clock.period {
                return Err(DelayFault::BadPhase { line });
            }
            Ok(Property::Clock(clock))
        }
        Spelled::Initial(value) => {
            if !part.is_flop() {
                return Err(DelayFault::NotAFlop { line });
            }
            let Some(value) = value else {
                return Err(DelayFault::BadValue { line });
            };
            Ok(Property::Initial(value))
        }
        Spelled::Wire(wire) => wire_of_pins(line, wire, pins),
    }
}

/// Does the same for a wire: every part that has the pin may have it.
fn wire_of_pins(line: u64, wire: Wire, pins: usize) -> Result<Property, DelayFault>
    ensures property { (part : Part) → result ≡ property_of_part line (said.Wire wire) part pins }
    ensures pin { IfOk result (λ property. HasPin pins property) }
{
    if wire.place >= pins as u64 {
        return Err(DelayFault::BadPin { line });
    }
    if wire.ticks > MOST_DELAY {
        return Err(DelayFault::BadTicks { line });
    }
    Ok(Property::Wire(wire))
}

/// Returns the name on a line and what the line says about its net, if the line has a form of this
/// version.
pub(crate) fn spelled_line(version: Version, code: &[u8]) -> Option<(&[u8], Spelled)>
    ensures { option_map (λ found. record { name = found.0.now; spelled = found.1 }) result
        ≡ option_map (cut_line (2 ^ 64 - 1)) (line_in version code.now) }
{
    if !is_plain(code) {
        return None;
    }
    match version {
        Version::First => line_of_first(code),
        Version::Second => line_of_second(code),
    }
}

/// Does the same for a line `NAME TICKS`, with any bytes.
fn line_of_first(code: &[u8]) -> Option<(&[u8], Spelled)>
    ensures { option_map (λ found. record { name = found.0.now; spelled = found.1 }) result
        ≡ option_map (cut_line (2 ^ 64 - 1)) (line_of_first (words_of code.now)) }
{
    let mut words = words_of(code);
    let (Some(name), Some(ticks), None) = (words.next(), words.next(), words.next()) else {
        return None;
    };
    Some((name, Spelled::Delay(number(ticks)?)))
}

/// Does the same for a line `delay NAME TICKS`, `init NAME VALUE`, `clock NAME PERIOD PHASE` or
/// `wire NAME PLACE TICKS`.
fn line_of_second(code: &[u8]) -> Option<(&[u8], Spelled)>
    ensures { option_map (λ found. record { name = found.0.now; spelled = found.1 }) result
        ≡ option_map (cut_line (2 ^ 64 - 1)) (line_of_second (words_of code.now)) }
{
    let mut words = words_of(code);
    let (first, name, third) = (words.next()?, words.next()?, words.next()?);
    let spelled = match (words.next(), words.next()) {
        (None, _) if first == b"delay".as_slice() => Spelled::Delay(number(third)?),
        (None, _) if first == b"init".as_slice() => Spelled::Initial(value_of(third)),
        (Some(fourth), None) if first == b"clock".as_slice() => Spelled::Clock(Clock {
            period: number(third)?,
            phase: number(fourth)?,
        }),
        (Some(fourth), None) if first == b"wire".as_slice() => Spelled::Wire(Wire {
            place: number(third)?,
            ticks: number(fourth)?,
        }),
        _ => return None,
    };
    Some((name, spelled))
}
