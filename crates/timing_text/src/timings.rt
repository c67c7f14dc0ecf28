//! The timing of each net, from a delay text.
ghost use Rattle.std.specs.Prelude.{◌≡◌, ◌≢◌, ◌<◌, length, map, IfOk};
ghost use Rattle.std.specs.Result.{result_map_both};
ghost use Rattle.texts.specs.Text.{code_lines, longest_text, words_of};
ghost use Rattle.netlist.specs.Netlist.{net_at};
ghost use Rattle.timing_text.specs.TimingLines.{HasPin, property_or_fault};
ghost use Rattle.timing_text.specs.GivenSoFar.{given_by_text, seen_given};
ghost use Rattle.timing_text.specs.Timings.{are_header, net_lines, seen_timings, timing_of_part, timings_of, version_of};

use crate::fault::DelayFault;
use crate::given::{NetGiven, nothing_given};
use crate::line::{Clock, Properties, Property, Version, property_of_part, spelled_line};
use crate::timing::{NetTimings, Timing};
use flat_lists::FlatLists;
use logic3::Value;
use netlist::{Netlist, Part};
use std::alloc::Global;
use texts::{CodeLines, LONGEST_TEXT, code_lines, words_of};

/// The property that a line gives a net.
#[derive(Clone, Copy)]
struct GivenProperty {
    net: u32,
    property: Property,
}

/// Returns the timing of each net, by net number: what its lines give, else the default delay, and
/// for a flip-flop this period, phase 0 and the initial value X. A pin without a line has wire delay
/// 0.
///
/// # Errors
/// The first fault of the text, in the order of [`DelayFault`], or [`DelayFault::Memory`] if an
/// allocation fails. A text that is too long is refused before anything is allocated.
pub fn read_timings(
    alloc: Global,
    netlist: &Netlist,
    text: &[u8],
    default_delay: u64,
    period: u64,
) -> Result<NetTimings, DelayFault>
    ensures timings { result ≢ Err DelayFault.Memory →
        result_map_both seen_timings (λ fault. fault) result
        ≡ timings_of netlist.now default_delay period text.now }
    ensures at_once { longest_text < length text.now → result ≡ Err DelayFault.TooLong }
{
    let given = properties_given(alloc, netlist, text)?;
    let mut timings = Vec::with_capacity(alloc, netlist.nets() as usize)?;
    let mut wires = FlatLists::with_capacity(alloc, netlist.nets() as usize, 0)?;
    for net in 0..netlist.nets() {
        let given = &given[net as usize];
        let part = netlist.part(net);
        let timing = timing_of_part(default_delay, period, given.properties, part);
        timings.push(timing)?;
        let own_wires = given.wires(alloc)?;
        wires.push(own_wires.as_slice())?;
    }
    Ok(NetTimings { timings, wires })
}

/// Returns the timing of a net with this part and these properties.
fn timing_of_part(default_delay: u64, period: u64, given: Properties, part: Part) -> Timing
    ensures { result ≡ timing_of_part default_delay period given part }
{
    let delay = given.delay.unwrap_or(default_delay);
    let (delay, clock, initial) = match part {
        Part::Input => (0, Clock::NONE, Value::Unknown),
        Part::Gate(_) => (delay, Clock::NONE, Value::Unknown),
        Part::Flop => (
            delay,
            given.clock.unwrap_or(Clock { period, phase: 0 }),
            given.initial.unwrap_or(Value::Unknown),
        ),
    };
    Timing {
        delay,
        period: clock.period,
        phase: clock.phase,
        initial,
    }
}

/// Returns what the lines of a text give each net, by net number.
fn properties_given(
    alloc: Global,
    netlist: &Netlist,
    text: &[u8],
) -> Result<Vec<NetGiven>, DelayFault>
    ensures given { result ≢ Err DelayFault.Memory →
        result_map_both (λ given. map seen_given given.items) (λ fault. fault) result
        ≡ given_by_text netlist.now text.now }
    ensures at_once { longest_text < length text.now → result ≡ Err DelayFault.TooLong }
{
    if text.len() > LONGEST_TEXT {
        return Err(DelayFault::TooLong);
    }
    let mut given = nothing_given(alloc, netlist)?;
    let (version, lines) = version_and_lines(text);
    for (line, code) in lines {
        let next = given_property(version, netlist, line, code)?;
        let net = &mut given[next.net as usize];
        if net.has(next.property) {
            return Err(DelayFault::Twice { line });
        }
        net.add(next.property);
    }
    Ok(given)
}

/// Returns the version of a text, and its lines without a header.
fn version_and_lines(text: &[u8]) -> (Version, CodeLines<'_>)
    ensures version { result.0 ≡ version_of (code_lines text.now) }
    ensures lines { result.1 ≡ net_lines (code_lines text.now) }
{
    let mut lines = code_lines(text);
    match lines.next() {
        Some((_, code)) if is_header(code) => (Version::Second, lines),
        _ => (Version::First, code_lines(text)),
    }
}

/// Returns whether a line consists of the words `timing version 2`.
fn is_header(code: &[u8]) -> bool
    ensures { result ≡ are_header (words_of code.now) }
{
    let mut words = words_of(code);
    let (Some(first), Some(second), Some(third), None) = (
        words.next(),
        words.next(),
        words.next(),
        words.next(),
    ) else {
        return false;
    };
    first == b"timing".as_slice() && second == b"version".as_slice() && third == b"2".as_slice()
}

/// Returns the property on the line with this number, or its first fault. `code` is the line without
/// its comment.
fn given_property(
    version: Version,
    netlist: &Netlist,
    line: u64,
    code: &[u8],
) -> Result<GivenProperty, DelayFault>
    ensures net { IfOk result (λ given. given.net < length netlist.now.nets) }
    ensures pin { IfOk result (λ given. HasPin (length (net_at netlist.now given.net).pins) given.property) }
    ensures property { result_map_both (λ given. record { name = (net_at netlist.now given.net).name; property = given.property })
        (λ fault. fault) result
        ≡ property_or_fault version netlist.now (line, code.now) }
{
    let Some((name, spelled)) = spelled_line(version, code) else {
        return Err(DelayFault::BadLine { line });
    };
    let Some(net) = netlist.find(name) else {
        return Err(DelayFault::UnknownNet { line });
    };
    let pins = netlist.pins_of(net).len();
    let property = property_of_part(line, spelled, netlist.part(net), pins)?;
    Ok(GivenProperty { net, property })
}
