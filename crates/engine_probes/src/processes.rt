//! Processes: one that runs out of memory when it receives or hands out something is unchanged, and one that
//! does when it advances has failed.
ghost use Rattle.std.specs.Prelude.{◌≡◌, ◌<◌, false, length, slice_get};
ghost use Rattle.std.specs.Option.{ForSome};
ghost use Rattle.gate_process.specs.Step.{ProcessView};

use crate::circuit_texts::inverter;
use crate::telling::Teller;
use Value::{One, Zero};
use cmb_channels::{Message, Packed};
use design::Design;
use gate_process::{PackedWave, Process, Processes};
use logic3::{Change, Value};
use std::alloc::{AllocError, Global};
use std::io::Write;
use timing_text::Horizon;

/// A process of a net with this number of pins, up to this tick.
#[derive(Drop)]
struct Listener<'d> {
    process: Process<'d>,
    pins: usize,
    end: u64,
    ghost has_pins: { process.failed ≡ false → length process.state.received ≡ pins },
    ghost ends: { process.failed ≡ false → process.state.end ≡ end },
}

impl<'d> Listener<'d> {
    /// Lets the process receive a change at its first pin, and returns the result, or None if it can't
    /// receive it.
    fn hear(&mut self, change: Change) -> Option<Result<(), AllocError>> {
        if self.process.is_failed() || self.pins == 0 {
            return None;
        }
        let known = self.process.received(0);
        let last = self.process.last(0);
        let tick = change.tick;
        if tick < known || self.end <= tick || change.value == last {
            return None;
        }
        Some(self.process.receive(0, Message::Change(change)))
    }

    /// How many ticks it knows of its first pin, and the last value there.
    fn heard(&self) -> Option<(u64, Value)> {
        if self.process.is_failed() || self.pins == 0 {
            return None;
        }
        Some((self.process.received(0), self.process.last(0)))
    }

    /// Advances the process, and returns the result, or None if it has failed.
    fn advance(&mut self) -> Option<Result<Vec<Message>, AllocError>> {
        if self.process.is_failed() {
            return None;
        }
        Some(self.process.advance())
    }

    /// Advances the process with its messages put in a list, and returns the result, or None if it has
    /// failed.
    fn advance_into(&mut self, news: &mut Vec<Packed>) -> Option<Result<(), AllocError>> {
        if self.process.is_failed() {
            return None;
        }
        Some(self.process.advance_into(news))
    }

    /// Takes out the process's changes before a tick, and returns the result, or None if it can't.
    fn drain(&mut self, bound: u64) -> Option<Result<Vec<Change>, AllocError>> {
        if self.process.is_failed() || self.process.frontier() < bound {
            return None;
        }
        Some(self.process.drain_below(bound))
    }

    /// Takes out the process's changes before a tick onto a list, and returns the result, or None if it
    /// can't.
    fn drain_into(
        &mut self,
        bound: u64,
        changes: &mut Vec<Change>,
    ) -> Option<Result<(), AllocError>> {
        if self.process.is_failed() || self.process.frontier() < bound {
            return None;
        }
        Some(self.process.drain_below_into(bound, changes))
    }

    /// The tick before which its changes were taken out.
    fn floor(&self) -> Option<u64> {
        if self.process.is_failed() {
            return None;
        }
        Some(self.process.floor())
    }
}

/// Processes, of which that of one net has a pin, up to this tick.
#[derive(Drop)]
struct Hearers<'d> {
    processes: Processes<'d, PackedWave>,
    net: u32,
    end: u64,
    ghost is_net: { net < length processes },
    ghost has_pin: { ForSome (slice_get processes net) (λ (process : ProcessView). 0 < length process.state.received) },
    ghost ends: { ForSome (slice_get processes net) (λ (process : ProcessView). process.state.end ≡ end) },
}

impl<'d> Hearers<'d> {
    /// Returns the processes of a design, of which that of this net must have a pin.
    fn new(
        alloc: Global,
        design: &'d Design,
        net: u32,
        horizon: Horizon,
    ) -> Result<Hearers<'d>, AllocError>
        requires net { net < length design.now.circuit }
    {
        if design.pins_of(net).is_empty() {
            return Err(AllocError);
        }
        Ok(Hearers {
            processes: Processes::new(alloc, design, horizon)?,
            net,
            end: horizon.ticks() + 1,
        })
    }

    /// Lets the process of the net receive a change at its first pin, and returns the result, or None if it
    /// can't receive it.
    fn hear(&mut self, change: Change) -> Option<Result<(), AllocError>> {
        let process = self.processes.of_net(self.net);
        if process.is_failed() {
            return None;
        }
        let known = process.received(0);
        let last = process.last(0);
        let tick = change.tick;
        if tick < known || self.end <= tick || change.value == last {
            return None;
        }
        Some(self.processes.receive(self.net, 0, Message::Change(change)))
    }

    /// How many ticks the process of the net knows of its first pin, and the last value there.
    fn heard(&self) -> Option<(u64, Value)> {
        let process = self.processes.of_net(self.net);
        if process.is_failed() {
            return None;
        }
        Some((process.received(0), process.last(0)))
    }
}

/// The ticks at which the pin changes, from 0 to 1 and back.
const TICKS: [u64; 10] = [0, 3, 4, 7, 9, 12, 15, 20, 28, 36];

/// Probes the process of an inverter, and the processes of a design.
pub(crate) fn probe<W: Write>(alloc: Global, teller: &mut Teller<W>) -> Option<()> {
    let design = inverter(alloc, teller)?;
    let horizon = Horizon::new(40).ok()?;
    answers(alloc, teller, &design, horizon)?;
    fills(alloc, teller, &design, horizon)?;
    all_hear(alloc, teller, &design, horizon)?;
    all(alloc, teller, &design, horizon)
}

/// A process that returns lists.
fn answers<W: Write>(
    alloc: Global,
    teller: &mut Teller<W>,
    design: &Design,
    horizon: Horizon,
) -> Option<()> {
    let mut listener = new_listener(alloc, teller, design, horizon)?;
    hears(teller, &mut listener)?;
    advances(teller, &mut listener)?;
    drains(teller, &mut listener)
}

/// A process that fills the lists that it is given.
fn fills<W: Write>(
    alloc: Global,
    teller: &mut Teller<W>,
    design: &Design,
    horizon: Horizon,
) -> Option<()> {
    let mut listener = new_listener(alloc, teller, design, horizon)?;
    hears(teller, &mut listener)?;
    advances_into(alloc, teller, &mut listener)?;
    drains_into(alloc, teller, &mut listener)
}

/// The process of the inverter's output.
fn new_listener<'d, W: Write>(
    alloc: Global,
    teller: &mut Teller<W>,
    design: &'d Design,
    horizon: Horizon,
) -> Option<Listener<'d>> {
    let net = design.find(b"y")?;
    if net >= design.nets() {
        return None;
    }
    let process = Process::new(alloc, design, net, horizon);
    Some(Listener {
        process: teller.told("Process::new", process)?,
        pins: design.pins_of(net).len(),
        end: horizon.ticks() + 1,
    })
}

/// Receives enough changes for what is known of the pin to grow twice.
fn hears<W: Write>(teller: &mut Teller<W>, listener: &mut Listener<'_>) -> Option<()> {
    let mut value = Zero;
    for tick in TICKS {
        let change = Change { tick, value };
        let before = listener.heard()?;
        if listener.hear(change)?.is_err() {
            let same = listener.heard() == Some(before);
            let again = matches!(listener.hear(change), Some(Ok(())));
            teller.refused("Process::receive", same && again);
            return None;
        }
        value = if value == Zero { One } else { Zero };
    }
    let (known, last) = listener.heard()?;
    teller.fine("Process::receive", (known, last) == (37, One))
}

fn advances<W: Write>(teller: &mut Teller<W>, listener: &mut Listener<'_>) -> Option<()> {
    let Ok(news) = listener.advance()? else {
        teller.refused("Process::advance", listener.process.is_failed());
        return None;
    };
    teller.fine(
        "Process::advance",
        !listener.process.is_failed() && news.len() == 10,
    )
}

fn advances_into<W: Write>(
    alloc: Global,
    teller: &mut Teller<W>,
    listener: &mut Listener<'_>,
) -> Option<()> {
    let mut news = Vec::new(alloc);
    if listener.advance_into(&mut news)?.is_err() {
        teller.refused("Process::advance_into", listener.process.is_failed());
        return None;
    }
    teller.fine(
        "Process::advance_into",
        !listener.process.is_failed() && news.len() == 10,
    )
}

/// Takes out some changes, and then the others.
fn drains<W: Write>(teller: &mut Teller<W>, listener: &mut Listener<'_>) -> Option<()> {
    for (bound, count) in [(6, 3), (38, 7)] {
        let floor = listener.floor()?;
        let Ok(changes) = listener.drain(bound)? else {
            let same = listener.floor()? == floor;
            let again = listener.drain(bound)?;
            let whole = again.is_ok_and(|changes| changes.len() == count);
            teller.refused("Process::drain_below", same && whole);
            return None;
        };
        teller.fine("Process::drain_below", changes.len() == count)?;
    }
    Some(())
}

/// Takes out some changes, and then the others, onto a list that must grow for each.
fn drains_into<W: Write>(
    alloc: Global,
    teller: &mut Teller<W>,
    listener: &mut Listener<'_>,
) -> Option<()> {
    let mut changes = Vec::new(alloc);
    for (bound, taken) in [(6, 3), (38, 10)] {
        let before = (changes.len(), listener.floor()?);
        if listener.drain_into(bound, &mut changes)?.is_err() {
            let same = (changes.len(), listener.floor()?) == before;
            let again = matches!(listener.drain_into(bound, &mut changes), Some(Ok(())));
            teller.refused(
                "Process::drain_below_into",
                same && again && changes.len() == taken,
            );
            return None;
        }
        teller.fine("Process::drain_below_into", changes.len() == taken)?;
    }
    Some(())
}

/// Lets one of all processes receive enough changes for what is known of the pin to grow twice.
fn all_hear<W: Write>(
    alloc: Global,
    teller: &mut Teller<W>,
    design: &Design,
    horizon: Horizon,
) -> Option<()> {
    let net = design.find(b"y")?;
    if net >= design.nets() {
        return None;
    }
    let hearers = Hearers::new(alloc, design, net, horizon);
    let mut hearers = teller.told("Processes::new", hearers)?;
    let mut value = Zero;
    for tick in TICKS {
        let change = Change { tick, value };
        let before = hearers.heard()?;
        if hearers.hear(change)?.is_err() {
            let same = hearers.heard() == Some(before);
            let again = matches!(hearers.hear(change), Some(Ok(())));
            teller.refused("Processes::receive", same && again);
            return None;
        }
        value = if value == Zero { One } else { Zero };
    }
    let (known, last) = hearers.heard()?;
    teller.fine("Processes::receive", (known, last) == (37, One))
}

/// The processes of all nets, of which the first is that of an input.
fn all<W: Write>(
    alloc: Global,
    teller: &mut Teller<W>,
    design: &Design,
    horizon: Horizon,
) -> Option<()> {
    if design.nets() == 0 {
        return None;
    }
    let processes = Processes::new(alloc, design, horizon);
    let mut processes = teller.told("Processes::new", processes)?;
    hand_out(alloc, teller, &mut processes)
}

/// What the first process sends, and then hands out.
fn hand_out<W: Write>(
    alloc: Global,
    teller: &mut Teller<W>,
    processes: &mut Processes<'_, PackedWave>,
) -> Option<()>
    requires { 0 < length processes.old }
{
    if processes.of_net(0).is_failed() {
        return None;
    }
    let mut news = Vec::new(alloc);
    let Ok(()) = processes.advance_into(0, &mut news) else {
        teller.refused("Processes::advance_into", processes.of_net(0).is_failed());
        return None;
    };
    teller.fine("Processes::advance_into", news.len() == 3)?;
    let mut changes = Vec::new(alloc);
    let bound = processes.of_net(0).frontier();
    match processes.drain_below_into(0, bound, &mut changes) {
        Ok(()) => teller.fine("Processes::drain_below_into", changes.len() == 2),
        Err(_) => {
            let same = changes.is_empty() && processes.of_net(0).floor() == 0;
            let again = processes.drain_below_into(0, bound, &mut changes).is_ok();
            teller.refused(
                "Processes::drain_below_into",
                same && again && changes.len() == 2,
            );
            None
        }
    }
}
