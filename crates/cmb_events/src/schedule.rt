//! Schedules: lists of events, from a text or from a seed.
ghost use Rattle.std.specs.Prelude.{◌≡◌, ◌≢◌, ◌<◌, ◌≤◌, [], length, All, IfOk};
ghost use Rattle.texts.specs.Text.{longest_text};
ghost use Rattle.cmb_events.specs.Schedule.{delivery_at, event_of_words, event_or_fault, events_of, most_events, net_in, pick_of, picks_of, Exists};

use crate::event::{Event, MOST_EVENTS};
use crate::schedule_fault::ScheduleFault;
use design::Design;
use rand_core::SeedableRng;
use rand_core::utils::NextWord;
use rand_pcg::Lcg64Xsh32;
use std::alloc::Global;
use std::marker::Model;
use texts::{LONGEST_TEXT, Words, code_lines, is_plain, number, words_of};

/// A list of at most 10,000,000 events, each of a pin or a net of the design.
#[derive(Debug, Drop)]
pub struct Schedule {
    events: Vec<Event>,
}

impl Model for Schedule {
    ghost use Rattle.std.specs.Prelude.{List};
    ghost use Rattle.cmb_events.specs.declared.event.Event.{Event as TheEvent};

    ghost Value = { List TheEvent };

    ghost view = { λ schedule. schedule.events.items };
}

impl Schedule {
    /// Makes an empty schedule. Allocates nothing.
    pub fn empty(alloc: Global) -> Schedule
        ensures { result ≡ [] }
    {
        Schedule {
            events: Vec::new(alloc),
        }
    }

    /// Returns the events of a text, one per line: `advance NAME`, or `deliver NAME PLACE` for the
    /// net's pin at a place, counted from 0. Comments and lines without words are skipped. A text
    /// that is too long is refused before anything is allocated.
    ///
    /// # Errors
    /// The first fault, in the order of [`ScheduleFault`], or [`ScheduleFault::Memory`] if an
    /// allocation fails.
    pub fn read(alloc: Global, text: &[u8], design: &Design) -> Result<Schedule, ScheduleFault>
        ensures exact { result ≢ Err ScheduleFault.Memory → result ≡ events_of design.now.circuit text.now }
        ensures at_once { longest_text < length text.now → result ≡ Err ScheduleFault.TooLong }
        ensures exist { IfOk result (λ schedule. All (Exists design.now.circuit) schedule) }
        ensures few { IfOk result (λ schedule. length schedule ≤ most_events) }
    {
        if text.len() > LONGEST_TEXT {
            return Err(ScheduleFault::TooLong);
        }
        let mut events = Vec::new(alloc);
        for (line, code) in code_lines(text) {
            let event = event_of(design, line, code)?;
            events.push(event)?;
        }
        Ok(Schedule { events })
    }

    /// Returns `picks` events, picked by the words of the generator `Lcg64Xsh32` of this seed. Each
    /// word, modulo the number of pins and nets together, is a place in the list of the deliveries to
    /// all pins and then the advances of all nets. Too many picks are refused before anything is
    /// allocated.
    ///
    /// # Errors
    /// [`ScheduleFault::TooManyEvents`] if there are more than 10,000,000 picks, or
    /// [`ScheduleFault::Memory`] if an allocation fails.
    pub fn seeded(
        alloc: Global,
        seed: u64,
        picks: u64,
        design: &Design,
    ) -> Result<Schedule, ScheduleFault>
        ensures exact { result ≢ Err ScheduleFault.Memory → result ≡ picks_of design.now.circuit seed picks }
        ensures at_once { most_events < picks → result ≡ Err ScheduleFault.TooManyEvents }
        ensures exist { IfOk result (λ schedule. All (Exists design.now.circuit) schedule) }
        ensures few { IfOk result (λ schedule. length schedule ≤ most_events) }
    {
        if picks > MOST_EVENTS {
            return Err(ScheduleFault::TooManyEvents);
        }
        let mut words = Lcg64Xsh32::seed_from_u64(seed);
        let mut events = Vec::new(alloc);
        for _pick in 0..picks {
            let event = pick_of(design, words.next_word());
            events.push(event)?;
        }
        Ok(Schedule { events })
    }

    /// Returns the events, in order. Allocates nothing.
    pub fn events(&self) -> &[Event]
        ensures { result.now ≡ self.now }
    {
        self.events.as_slice()
    }
}

/// Returns the event that a word picks.
fn pick_of(design: &Design, word: u32) -> Event
    ensures pick { result ≡ pick_of design.now.circuit word }
    ensures exists { Exists design.now.circuit result }
{
    let pins = design.pins();
    let place = word % (design.nets() + pins);
    if place < pins {
        Event::Deliver(place)
    } else {
        Event::Advance(place - pins)
    }
}

/// Returns the event of the line with this number, or its first fault. `code` is the line without its
/// comment.
fn event_of(design: &Design, line: u64, code: &[u8]) -> Result<Event, ScheduleFault>
    ensures event { result ≡ event_or_fault design.now.circuit (line, code.now) }
    ensures exists { IfOk result (Exists design.now.circuit) }
{
    if !is_plain(code) {
        return Err(ScheduleFault::BadLine { line });
    }
    event_of_words(design, line, words_of(code))
}

/// Returns the event that the words of a line give.
fn event_of_words(design: &Design, line: u64, mut words: Words<'_>) -> Result<Event, ScheduleFault>
    ensures event { result ≡ event_of_words design.now.circuit line words.entry }
    ensures exists { IfOk result (Exists design.now.circuit) }
{
    match (words.next(), words.next(), words.next(), words.next()) {
        (Some(verb), Some(name), None, None) if verb == b"advance".as_slice() => {
            let net = net_in(design, line, name)?;
            Ok(Event::Advance(net))
        }
        (Some(verb), Some(name), Some(word), None) if verb == b"deliver".as_slice() => {
            let place = number(word).ok_or(ScheduleFault::BadLine { line })?;
            let net = net_in(design, line, name)?;
            delivery_at(design, line, net, place)
        }
        _ => Err(ScheduleFault::BadLine { line }),
    }
}

/// Returns the number of the net with this name.
fn net_in(design: &Design, line: u64, name: &[u8]) -> Result<u32, ScheduleFault>
    ensures net { result ≡ net_in design.now.circuit line name.now }
    ensures within { IfOk result (λ net. net < length design.now.circuit) }
{
    design.find(name).ok_or(ScheduleFault::UnknownNet { line })
}

/// Returns the delivery to the pin of a net at a place, counted from 0.
fn delivery_at(design: &Design, line: u64, net: u32, place: u64) -> Result<Event, ScheduleFault>
    requires { net < length design.now.circuit }
    ensures event { result ≡ delivery_at design.now.circuit line net place }
    ensures exists { IfOk result (Exists design.now.circuit) }
{
    prove!(net < design.nets());
    if place < design.pins_of(net).len() as u64 {
        let place = place as u32;
        Ok(Event::Deliver(design.pin(net, place)))
    } else {
        Err(ScheduleFault::BadPin { line })
    }
}
