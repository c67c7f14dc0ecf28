//! The options for what drives inputs, and their values.
use crate::described::{Absent, Described, Takes};
use crate::help::mistake;
use crate::numbers::number_of;
use clap::error::ErrorKind;
use clap::{ArgMatches, Error};
use drawn_stimuli::{Drive, Driven};
use logic3::Value;
use std::alloc::{AllocError, Global};

const CLOCK: &str = "An input that is 0 at tick 0 and then changes every HALF ticks, at\n\
     least 1, such as clk=5. With a tick FIRST, as in clk=5,2, it is 0\n\
     before that and changes there, and then every HALF ticks. With a\n\
     START of 1, as in clk=5,2,1, it is 1 before FIRST. May be given for\n\
     several inputs";

const HOLD: &str = "An input that has one value throughout: 0, 1 or x, such as en=1. NAME\n\
     may be a range, as in data[7:0]=0xA5: its inputs hold the bits of\n\
     the number, data[7] the most significant. VALUE is x or a number of\n\
     at most 64 bits, decimal, 0x hexadecimal or 0b binary; the last two\n\
     may have x digits. May be given for several inputs";

const PULSE: &str = "An input that is 1 from tick FROM up to but not including a later\n\
     tick TO, and 0 otherwise, such as reset=0..12; may be given for\n\
     several inputs, and for one input again: it is 1 in each pulse";

const NO_DRIVE: &str =
    "what drives an input must have the form '--clock <NAME=HALF>', '--clock <NAME=HALF,FIRST>',\n\
     '--clock <NAME=HALF,FIRST,START>', '--hold <NAME=VALUE>' or '--pulse <NAME=FROM..TO>', such as\n\
     --clock clk=5 --clock slow=10,3,1 --hold en=1 --hold data[7:0]=0xA5 --pulse reset=0..12";

pub(super) static DRIVES: [Described; 3] = [
    Described(
        "clock",
        Takes::Drives("NAME=HALF[,FIRST[,START]]"),
        Absent::Nothing,
        CLOCK,
    ),
    Described("hold", Takes::Drives("NAME=VALUE"), Absent::Nothing, HOLD),
    Described(
        "pulse",
        Takes::Drives("NAME=FROM..TO"),
        Absent::Nothing,
        PULSE,
    ),
];

/// Returns what drives inputs by name: clocks first, then held values, then pulses.
pub(super) fn drives_given<'a>(
    alloc: Global,
    options: &ArgMatches<'a>,
) -> Result<Vec<Driven<'a>>, Error> {
    match all_given(alloc, options)? {
        Some(drives) => Ok(drives),
        None => Err(mistake(alloc, ErrorKind::ValueValidation, NO_DRIVE)?),
    }
}

/// Returns the drives of all options, or `None` if one doesn't have the form of a drive.
fn all_given<'a>(
    alloc: Global,
    options: &ArgMatches<'a>,
) -> Result<Option<Vec<Driven<'a>>>, AllocError> {
    let mut drives = Vec::new(alloc);
    for option in ["clock", "hold", "pulse"] {
        for given in options.get_strs(option).unwrap_or(&[]) {
            match driven_by(option, given) {
                Some(driven) => drives.push(driven)?,
                None => return Ok(None),
            }
        }
    }
    Ok(Some(drives))
}

fn driven_by<'a>(option: &str, given: &'a str) -> Option<Driven<'a>> {
    let (name, rest) = given.split_once('=')?;
    let drive = match option {
        "clock" => clock_of(rest)?,
        "hold" => held_of(rest)?,
        _ => pulse_of(rest)?,
    };
    Some(Driven {
        name: name.as_bytes(),
        drive,
    })
}

fn clock_of(word: &str) -> Option<Drive> {
    match word.split_once(',') {
        Some((half, rest)) => clock_from(half, rest),
        None => Some(Drive::Clock {
            half: number_of(word)?,
        }),
    }
}

/// Returns the clock of `HALF` and `FIRST` or `FIRST,START`.
fn clock_from(half: &str, rest: &str) -> Option<Drive> {
    let (first, begins_high) = match rest.split_once(',') {
        Some((first, "0")) => (first, false),
        Some((first, "1")) => (first, true),
        Some(_) => return None,
        None => (rest, false),
    };
    Some(Drive::ClockFrom {
        half: number_of(half)?,
        first: number_of(first)?,
        begins_high,
    })
}

/// Returns what `x` or a number holds: the number decimal, or after `0x` hexadecimal, or after `0b` binary.
fn held_of(word: &str) -> Option<Drive> {
    if word == "x" || word == "X" {
        return Some(Drive::Hold(Value::Unknown));
    }
    if let Some(digits) = word.strip_prefix("0x") {
        return bits_of(digits, 16);
    }
    if let Some(digits) = word.strip_prefix("0b") {
        return bits_of(digits, 2);
    }
    Some(Drive::HoldBits {
        ones: number_of(word)?,
        unknown: 0,
    })
}

/// Returns the bits of digits with this radix, one at least. Those of a digit `x` are unknown.
fn bits_of(digits: &str, radix: u64) -> Option<Drive> {
    if digits.is_empty() {
        return None;
    }
    let mut ones: u64 = 0;
    let mut unknown: u64 = 0;
    for digit in digits.bytes() {
        let (one, other) = digit_of(digit, radix)?;
        ones = ones.checked_mul(radix)?.checked_add(one)?;
        unknown = unknown.checked_mul(radix)?.checked_add(other)?;
    }
    Some(Drive::HoldBits { ones, unknown })
}

/// Returns the bits of a digit with this radix that are 1, and those that are unknown.
fn digit_of(digit: u8, radix: u64) -> Option<(u64, u64)> {
    let one = match digit {
        b'0'..=b'9' => u64::from(digit - b'0'),
        b'a'..=b'f' => u64::from(digit - b'a') + 10,
        b'A'..=b'F' => u64::from(digit - b'A') + 10,
        b'x' | b'X' => return Some((0, radix.saturating_sub(1))),
        _ => return None,
    };
    if one < radix { Some((one, 0)) } else { None }
}

fn pulse_of(word: &str) -> Option<Drive> {
    let (from, to) = word.split_once("..")?;
    Some(Drive::Pulse {
        from: number_of(from)?,
        to: number_of(to)?,
    })
}
