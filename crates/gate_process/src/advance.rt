//! The steps of an advance.
ghost use Rattle.std.specs.Prelude.{◌≡◌, ◌≢◌, ◌⊎◌, ℕ, ◌+◌, ◌-◌, ◌<◌, ◌≤◌, nat_lt, true, false, max, if◌then◌else◌, [], ◌∷◌, ◌++◌, All, slice_get, Some, length, IfOk, OnOk, OnErr};
ghost use Rattle.logic3.specs.declared.value.Value.TheVariants.{Unknown};
ghost use Rattle.netlist.specs.declared.part.Part.TheVariants.{Input};
ghost use Rattle.timing_text.specs.Ranges.{most_ticks};
ghost use Rattle.cmb_channels.specs.declared.message.Message.TheVariants.{Null};
ghost use Rattle.gate_process.specs.Knowledge.{Knowledge, news_between, kept_since, keeping};
ghost use Rattle.gate_process.specs.Reading.{reads, shown};
ghost use Rattle.gate_process.specs.Step.{signal_over, continued, always, first_unknown, oldest_asked, reach_of_part};

use crate::cursor::Cursor;
use crate::own_net::OwnNet;
use crate::received::{Received, cursors_of};
use cmb_channels::Packed;
use logic3::{Change, Value};
use std::alloc::AllocError;

/// The ticks at which a net is computed: those from its frontier up to `sure`, where all its pins are known,
/// and for a gate also those after that, but none past the end.
#[derive(Clone, Copy, Debug)]
pub struct Span {
    pub from: u64,
    pub sure: u64,
    pub end: u64,
}

/// Computes a net by its equation as far as its pins allow, from the value that it showed last, adds the
/// messages to the list, and returns the new frontier.
///
/// It evaluates the net only at ticks at which a change of a pin or a stimulus may show, so the ticks between
/// cost nothing. If the frontier stays, it takes no memory.
pub fn extend(
    net: &OwnNet<'_>,
    received: &[Received],
    span: Span,
    last: Value,
    messages: &mut Vec<Packed>,
) -> Result<u64, AllocError>
    requires empty { messages.old.items ≡ [] }
    requires pins { length received.now ≡ length net.now.pins }
    requires sure { span.sure ≤ span.end }
    requires end { span.end ≤ most_ticks + 1 }
    requires inputs { net.now.part ≡ Input → span.sure ≡ span.end }
    requires ahead { span.from ≤ reach_of_part net.now.part
        (signal_over net.now received.now) span.end span.from span.sure }
    requires begins { span.from ≡ 0 → last ≡ Unknown }
    ensures to { IfOk result (λ to. to ≡ reach_of_part net.now.part
        (signal_over net.now received.now) span.end span.from span.sure) }
    ensures news { IfOk result (λ to. messages.new.items ≡
        news_between (continued (always last) span.from (signal_over net.now received.now)) span.from to) }
    ensures memory { OnErr result (span.from < reach_of_part net.now.part
        (signal_over net.now received.now) span.end span.from span.sure) }
{
    let most = net.most(span.end, span.sure);
    if stays(net, received, span, most) {
        return Ok(span.from);
    }
    reckon(net, received, span, most, last, messages)
}

/// Returns whether [`extend`] would raise the net's frontier. Takes no memory.
pub fn goes_on(net: &OwnNet<'_>, received: &[Received], span: Span) -> bool
    requires pins { length received.now ≡ length net.now.pins }
    requires sure { span.sure ≤ span.end }
    requires inputs { net.now.part ≡ Input → span.sure ≡ span.end }
    requires ahead { span.from ≤ reach_of_part net.now.part
        (signal_over net.now received.now) span.end span.from span.sure }
    ensures { result ≡ nat_lt span.from (reach_of_part net.now.part
        (signal_over net.now received.now) span.end span.from span.sure) }
{
    let most = net.most(span.end, span.sure);
    !stays(net, received, span, most)
}

/// Computes a net by its equation, adds the messages to the list, and returns the new frontier: the first
/// tick at which not all pins are known and the net would show X, or `most`.
fn reckon(
    net: &OwnNet<'_>,
    received: &[Received],
    span: Span,
    most: u64,
    last: Value,
    messages: &mut Vec<Packed>,
) -> Result<u64, AllocError>
    requires empty { messages.old.items ≡ [] }
    requires pins { length received.now ≡ length net.now.pins }
    requires ahead { span.from ≤ most }
    requires sure { span.sure ≤ most }
    requires end { most ≤ most_ticks + 1 }
    requires begins { span.from ≡ 0 → last ≡ Unknown }
    ensures to { IfOk result (λ to. to ≡ first_unknown (signal_over net.now received.now)
        (max span.from span.sure) (most - max span.from span.sure)) }
    ensures news { IfOk result (λ to. messages.new.items ≡
        news_between (continued (always last) span.from (signal_over net.now received.now)) span.from to) }
{
    let wires = net.wires();
    // Most gates have one to three pins, which need no list of cursors. Only an input has none.
    match received {
        [] => walk(net, &mut [net.stimuli()], span, most, last, messages),
        [pin] => walk(net, &mut [pin.cursor(wires[0])], span, most, last, messages),
        [first, second] => {
            let mut cursors = [first.cursor(wires[0]), second.cursor(wires[1])];
            walk(net, &mut cursors, span, most, last, messages)
        }
        [first, second, third] => {
            let mut cursors = [
                first.cursor(wires[0]),
                second.cursor(wires[1]),
                third.cursor(wires[2]),
            ];
            walk(net, &mut cursors, span, most, last, messages)
        }
        _ => reckon_many(net, received, span, most, last, messages),
    }
}

/// Reckons a net of any number of pins as [`reckon`] does. It is a function of its own since its list is large,
/// and would be cleared for a net of few pins too.
#[inline(never)]
fn reckon_many(
    net: &OwnNet<'_>,
    received: &[Received],
    span: Span,
    most: u64,
    last: Value,
    messages: &mut Vec<Packed>,
) -> Result<u64, AllocError>
    requires empty { messages.old.items ≡ [] }
    requires some { 0 < length received.now }
    requires pins { length received.now ≡ length net.now.pins }
    requires ahead { span.from ≤ most }
    requires sure { span.sure ≤ most }
    requires end { most ≤ most_ticks + 1 }
    requires begins { span.from ≡ 0 → last ≡ Unknown }
    ensures to { IfOk result (λ to. to ≡ first_unknown (signal_over net.now received.now)
        (max span.from span.sure) (most - max span.from span.sure)) }
    ensures news { IfOk result (λ to. messages.new.items ≡
        news_between (continued (always last) span.from (signal_over net.now received.now)) span.from to) }
{
    let mut cursors = cursors_of(*messages.allocator(), received, net.wires())?;
    walk(net, cursors.as_mut_slice(), span, most, last, messages)
}

/// Returns whether a net can't be computed past its frontier.
fn stays(net: &OwnNet<'_>, received: &[Received], span: Span, most: u64) -> bool
    requires pins { length received.now ≡ length net.now.pins }
    requires inputs { net.now.part ≡ Input → most ≤ span.sure }
    ensures yes { result ≡ true → (most ≤ span.from) ⊎ ((span.sure ≤ span.from) ×
        (signal_over net.now received.now span.from ≡ Unknown)) }
    ensures no { result ≡ false → (span.from < most) × ((span.from < span.sure) ⊎
        (signal_over net.now received.now span.from ≢ Unknown)) }
{
    if span.from >= most {
        return true;
    }
    span.sure <= span.from && net.shows(received, span.from) == Value::Unknown
}

/// Computes what the net shows over what it reads, adds the messages to the list, and returns the new
/// frontier: the first tick at which not all pins are known and the net would show X, or `most`.
// A walk of its own for each number of pins: that of few pins keeps them in registers.
#[inline(always)]
fn walk(
    net: &OwnNet<'_>,
    read: &mut [Cursor<'_>],
    span: Span,
    most: u64,
    last: Value,
    messages: &mut Vec<Packed>,
) -> Result<u64, AllocError>
    requires empty { messages.old.items ≡ [] }
    requires read { length read.old ≡ reads net.now }
    requires ahead { span.from ≤ most }
    requires sure { span.sure ≤ most }
    requires end { most ≤ most_ticks + 1 }
    requires begins { span.from ≡ 0 → last ≡ Unknown }
    ensures to { IfOk result (λ to. to ≡
        first_unknown (shown net.now read.old) (max span.from span.sure) (most - max span.from span.sure)) }
    ensures news { IfOk result (λ to. messages.new.items ≡
        news_between (continued (always last) span.from (shown net.now read.old)) span.from to) }
{
    // The messages so far report the net up to here.
    let mut told = span.from;
    let mut latest = last;
    let mut tick = span.from;
    while tick < most {
        let look = net.look(read, tick, limit_at(tick, span.sure, most));
        if waits(span.sure, tick, look.value) {
            return tell_up_to(tick, told, messages);
        }
        if look.value != latest {
            let change = Change {
                tick,
                value: look.value,
            };
            messages.push(Packed::changed(change))?;
            told = tick + 1;
            latest = look.value;
        }
        tick = look.until;
    }
    tell_up_to(tick, told, messages)
}

/// Returns the tick up to which a net is evaluated from a tick on: first to where not all of its pins are
/// known, and then to `most`.
fn limit_at(tick: u64, sure: u64, most: u64) -> u64
    requires before { tick < most }
    requires sure { sure ≤ most }
    ensures above { tick < result }
    ensures within { result ≤ most }
    ensures sure { tick < sure → result ≡ sure }
{
    if tick < sure { sure } else { most }
}

/// Returns whether a net waits at a tick at which it would show this value: not all of its pins are known,
/// and those that are don't settle what it shows.
fn waits(sure: u64, tick: u64, value: Value) -> bool
    ensures yes { result ≡ true → (sure ≤ tick) × (value ≡ Unknown) }
    ensures no { result ≡ false → (tick < sure) ⊎ (value ≢ Unknown) }
{
    sure <= tick && value == Value::Unknown
}

/// Adds a null message that the net is known up to a tick, unless the messages so far say so, and returns the
/// tick.
fn tell_up_to(tick: u64, told: u64, messages: &mut Vec<Packed>) -> Result<u64, AllocError>
    requires { tick ≤ most_ticks + 1 }
    ensures to { IfOk result (λ to. to ≡ tick) }
    ensures messages { OnOk result (messages.new.items ≡
        messages.old.items ++ (if nat_lt told tick then Null tick ∷ [] else [])) }
{
    if told < tick {
        messages.push(Packed::null(tick))?;
    }
    Ok(tick)
}

/// Forgets at each pin the ticks before the oldest tick of its source that the net asks for from a frontier
/// on.
pub fn keep_all(net: &OwnNet<'_>, received: &mut [Received], frontier: u64)
    requires pins { length received.old ≡ length net.now.pins }
    requires begin { (place : ℕ) (known : Knowledge) → slice_get received.old place ≡ Some known →
        kept_since (oldest_asked net.now place frontier) known.frontier ≡ 0 → known.wave.before ≡ Unknown }
    ensures pins { length received.new ≡ length received.old }
    ensures each { (place : ℕ) (known : Knowledge) → slice_get received.old place ≡ Some known →
        slice_get received.new place ≡ Some (keeping (oldest_asked net.now place frontier) known) }
{
    let wires = net.wires();
    for (place, pin) in received.iter_mut().enumerate() {
        pin.keep(net.oldest_asked(wires[place], frontier));
    }
}
