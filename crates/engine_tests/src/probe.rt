//! A process at work, step by step.
ghost use Rattle.std.specs.Prelude.{◌≡◌, false, length, option_map, slice_get, Some};
ghost use Rattle.logic3.specs.Wave.{last_value};
ghost use Rattle.gate_process.specs.Knowledge.{Knowledge};

use Message::Null;
use Step::{Drains, Hears, HearsFar, HearsNulls, Keeps, Knows, PinKnows, Shows, Tells, TellsFar};
use Value::{One, Zero};
use cmb_channels::Message;
use design::Design;
use gate_process::Process;
use logic3::{Change, Value};
use std::alloc::Global;
use std::process::Abort;
use std::test::Fail;
use timing_text::Horizon;

// A process at work, the number of pins of its net, and the first tick past its horizon.
#[derive(Drop)]
pub(crate) struct Probe<'d> {
    process: Process<'d>,
    pins: usize,
    end: u64,
    ghost has_pins: { process.failed ≡ false → length process.state.received ≡ pins },
    ghost ends: { process.failed ≡ false → process.state.end ≡ end },
}

// A pin receives messages, a thousand changes, or this number of null messages, after each of which an
// advance sends nothing; an advance sends exactly these messages, or a thousand changes of which the first is
// to this value; how many ticks all pins know, and how many it knows itself; how many ticks a pin knows, and
// its last value; what it shows at a tick; its changes before a tick, which are taken out; or the tick from
// which on it is kept, and its value before and its changes from there on.
#[derive(Clone, Copy)]
pub(crate) enum Step {
    Hears(u32, &'static [Message]),
    HearsFar,
    HearsNulls(u32, u64),
    Tells(&'static [Message]),
    TellsFar(Value),
    Knows(u64, u64),
    PinKnows(u32, u64, Value),
    Shows(u64, Value),
    Drains(u64, &'static [Change]),
    Keeps(u64, Value, &'static [Change]),
}

impl<'d> Probe<'d> {
    // The process of the net of this name, up to this horizon.
    pub(crate) fn of(
        rt: &impl Abort,
        alloc: Global,
        design: &'d Design,
        name: &[u8],
        horizon: u64,
    ) -> Result<Probe<'d>, Fail> {
        let net = design.find(name).expect(rt, "a net of this name");
        let nets = design.nets();
        assert!(rt; net < nets);
        let horizon = Horizon::new(horizon)?;
        Ok(Probe {
            process: Process::new(alloc, design, net, horizon)?,
            pins: design.pins_of(net).len(),
            end: horizon.ticks() + 1,
        })
    }

    // The process, which hasn't failed so far.
    fn process(&self, rt: &impl Abort) -> &Process<'d>
        ensures same { result.now ≡ self.now.process }
        ensures running { result.now.failed ≡ false }
    {
        assert!(rt; !self.process.is_failed());
        &self.process
    }

    fn received(&self, rt: &impl Abort, place: u32) -> u64
        ensures { option_map (λ (known : Knowledge). known.frontier)
            (slice_get self.now.process.state.received place) ≡ Some result }
    {
        assert!(rt; (place as usize) < self.pins);
        self.process(rt).received(place)
    }

    fn last(&self, rt: &impl Abort, place: u32) -> Value
        ensures { option_map (λ (known : Knowledge). last_value known.wave)
            (slice_get self.now.process.state.received place) ≡ Some result }
    {
        assert!(rt; (place as usize) < self.pins);
        self.process(rt).last(place)
    }

    // The pin at this place receives these messages.
    fn hear(&mut self, rt: &impl Abort, place: u32, messages: &[Message]) -> Result<(), Fail> {
        for message in messages {
            match *message {
                Message::Change(change) => self.hear_change(rt, place, change)?,
                Null(bound) => self.hear_null(rt, place, bound)?,
            }
        }
        Ok(())
    }

    fn hear_change(&mut self, rt: &impl Abort, place: u32, change: Change) -> Result<(), Fail> {
        let known = self.received(rt, place);
        let last = self.last(rt, place);
        assert!(rt; !self.process.is_failed());
        let tick = change.tick;
        assert!(rt; known <= tick);
        assert!(rt; tick < self.end);
        assert!(rt; change.value != last);
        self.process.receive(place, Message::Change(change))?;
        Ok(())
    }

    fn hear_null(&mut self, rt: &impl Abort, place: u32, bound: u64) -> Result<(), Fail> {
        let known = self.received(rt, place);
        assert!(rt; !self.process.is_failed());
        assert!(rt; known < bound);
        assert!(rt; bound <= self.end);
        self.process.receive(place, Null(bound))?;
        Ok(())
    }

    fn advance(&mut self, rt: &impl Abort) -> Result<Vec<Message>, Fail> {
        assert!(rt; !self.process.is_failed());
        Ok(self.process.advance()?)
    }

    fn drain_below(&mut self, rt: &impl Abort, bound: u64) -> Result<Vec<Change>, Fail> {
        assert!(rt; bound <= self.process(rt).frontier());
        Ok(self.process.drain_below(bound)?)
    }

    // It sends exactly these messages.
    fn tells(&mut self, rt: &impl Abort, wanted: &[Message]) -> Result<(), Fail> {
        let messages = self.advance(rt)?;
        assert!(rt; messages.as_slice() == wanted);
        Ok(())
    }

    // What it shows before the tick is taken out, and nothing is left to take there.
    fn drains(&mut self, rt: &impl Abort, bound: u64, wanted: &[Change]) -> Result<(), Fail> {
        let changes = self.drain_below(rt, bound)?;
        assert!(rt; changes.as_slice() == wanted);
        assert!(rt; self.drain_below(rt, bound)?.is_empty());
        Ok(())
    }

    // The first pin receives a thousand changes over ten million ticks.
    fn hear_far(&mut self, rt: &impl Abort) -> Result<(), Fail> {
        for step in 0..500 {
            self.hear(rt, 0, &[change(10 + step * 20_000, Zero)])?;
            self.hear(rt, 0, &[change(10_010 + step * 20_000, One)])?;
        }
        self.hear(rt, 0, &[Null(10_000_001)])
    }

    // The pin at this place receives null messages for this number of ticks, one after the other, and nothing
    // is sent.
    fn hear_nulls(&mut self, rt: &impl Abort, place: u32, ticks: u64) -> Result<(), Fail> {
        for tick in 0..ticks {
            self.hear_null(rt, place, tick.saturating_add(1))?;
            self.tells(rt, &[])?;
        }
        Ok(())
    }

    // It sends a thousand changes, too.
    fn tells_far(&mut self, rt: &impl Abort, first: Value) -> Result<(), Fail> {
        let messages = self.advance(rt)?;
        are_between(rt, &messages, 1_001, change(11, first), Null(10_000_001));
        Ok(())
    }

    fn knows(&self, rt: &impl Abort, safe: u64, frontier: u64) {
        assert!(rt; self.process(rt).safe() == safe);
        assert!(rt; self.process(rt).frontier() == frontier);
    }

    fn keeps(&self, rt: &impl Abort, floor: u64, before: Value, changes: &[Change]) {
        let process = self.process(rt);
        assert!(rt; process.floor() == floor);
        assert!(rt; process.waveform().before() == before);
        assert!(rt; process.waveform().changes() == changes);
    }

    pub(crate) fn follow(&mut self, rt: &impl Abort, steps: &[Step]) -> Result<(), Fail> {
        for step in steps {
            self.step(rt, *step)?;
        }
        Ok(())
    }

    fn step(&mut self, rt: &impl Abort, step: Step) -> Result<(), Fail> {
        match step {
            Hears(place, messages) => self.hear(rt, place, messages),
            HearsFar => self.hear_far(rt),
            HearsNulls(place, ticks) => self.hear_nulls(rt, place, ticks),
            Tells(messages) => self.tells(rt, messages),
            TellsFar(first) => self.tells_far(rt, first),
            Drains(bound, changes) => self.drains(rt, bound, changes),
            _ => {
                self.looks(rt, step);
                Ok(())
            }
        }
    }

    // A step that changes nothing.
    fn looks(&self, rt: &impl Abort, step: Step) {
        match step {
            Knows(safe, frontier) => self.knows(rt, safe, frontier),
            PinKnows(place, received, last) => {
                assert!(rt; self.received(rt, place) == received);
                assert!(rt; self.last(rt, place) == last);
            }
            Shows(tick, value) => {
                assert!(rt; self.process(rt).waveform().value_at(tick) == value);
            }
            Keeps(floor, before, changes) => self.keeps(rt, floor, before, changes),
            _ => {}
        }
    }
}

fn change(tick: u64, value: Value) -> Message {
    Message::Change(Change { tick, value })
}

// This number of messages, of which these are the first and the last.
fn are_between(rt: &impl Abort, messages: &[Message], count: usize, first: Message, last: Message) {
    assert!(rt; messages.len() == count);
    assert!(rt; messages.first() == Some(&first));
    assert!(rt; messages.last() == Some(&last));
}
