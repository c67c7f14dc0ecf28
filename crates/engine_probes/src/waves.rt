//! Waveforms and queues of changes.
use crate::telling::Teller;
use Value::{One, Zero};
use logic3::{Change, ChangeQueue, Value, Waveform};
use std::alloc::Global;
use std::io::Write;

/// What one net shows: enough changes for a list of them to grow at least twice.
const CHANGES: [Change; 5] = [
    Change {
        tick: 0,
        value: Zero,
    },
    Change {
        tick: 3,
        value: One,
    },
    Change {
        tick: 4,
        value: Zero,
    },
    Change {
        tick: 7,
        value: One,
    },
    Change {
        tick: 9,
        value: Zero,
    },
];

/// Probes the calls of a queue and of a waveform.
pub(crate) fn probe<W: Write>(alloc: Global, teller: &mut Teller<W>) -> Option<()> {
    let queue = queue(alloc, teller)?;
    teller.told("ChangeQueue::copy", queue.copy())?;
    let mut wave = wave(alloc, teller)?;
    let mut copy = teller.told("Waveform::copy", wave.copy())?;
    split(teller, &mut copy)?;
    split_into(alloc, teller, &mut wave)
}

fn queue<W: Write>(alloc: Global, teller: &mut Teller<W>) -> Option<ChangeQueue> {
    let mut queue = ChangeQueue::new(alloc);
    for change in &CHANGES {
        let before = queue.as_slice().len();
        if queue.push(*change).is_err() {
            let same = queue.as_slice().len() == before && CHANGES.starts_with(queue.as_slice());
            let goes_on = queue.push(*change).is_ok() && CHANGES.starts_with(queue.as_slice());
            teller.refused("ChangeQueue::push", same && goes_on);
            return None;
        }
    }
    teller.fine("ChangeQueue::push", queue.as_slice() == CHANGES.as_slice())?;
    Some(queue)
}

/// A waveform of the changes; the first and the last of them make it grow.
fn wave<W: Write>(alloc: Global, teller: &mut Teller<W>) -> Option<Waveform> {
    let [first, second, third, fourth, fifth] = CHANGES;
    let mut wave = Waveform::new(alloc);
    if wave.push(first).is_err() {
        let same = wave.changes().is_empty();
        teller.refused("Waveform::push", same && wave.push(first).is_ok());
        return None;
    }
    teller.told("Waveform::push", wave.push(second))?;
    teller.told("Waveform::push", wave.push(third))?;
    teller.told("Waveform::push", wave.push(fourth))?;
    if wave.push(fifth).is_err() {
        let same = wave.changes() == &CHANGES[..4];
        let goes_on = wave.push(fifth).is_ok() && wave.changes() == CHANGES.as_slice();
        teller.refused("Waveform::push", same && goes_on);
        return None;
    }
    teller.fine("Waveform::push", wave.changes() == CHANGES.as_slice())?;
    Some(wave)
}

/// Splits off one change, and then the others.
fn split<W: Write>(teller: &mut Teller<W>, wave: &mut Waveform) -> Option<()> {
    for (tick, first, end) in [(2, 0, 1), (10, 1, 5)] {
        let Ok(below) = wave.split_below(tick) else {
            let same = wave.changes() == &CHANGES[first..];
            let again = wave.split_below(tick);
            let whole = again.is_ok_and(|below| below.as_slice() == &CHANGES[first..end]);
            teller.refused("Waveform::split_below", same && whole);
            return None;
        };
        let is_split = below.as_slice() == &CHANGES[first..end]
            && wave.changes() == &CHANGES[end..];
        teller.fine("Waveform::split_below", is_split)?;
    }
    Some(())
}

/// Splits off one change, and then the others, onto a list that must grow for each.
fn split_into<W: Write>(alloc: Global, teller: &mut Teller<W>, wave: &mut Waveform) -> Option<()> {
    let mut below = Vec::new(alloc);
    for (tick, split) in [(2, 1), (10, 5)] {
        let before = below.len();
        if wave.split_below_into(tick, &mut below).is_err() {
            let same = are_split(&below, wave, before);
            let again = wave.split_below_into(tick, &mut below).is_ok();
            teller.refused(
                "Waveform::split_below_into",
                same && again && are_split(&below, wave, split),
            );
            return None;
        }
        teller.fine("Waveform::split_below_into", are_split(&below, wave, split))?;
    }
    Some(())
}

/// Whether the first `count` changes are on the list, and the others left in the waveform.
fn are_split(below: &[Change], wave: &Waveform, count: usize) -> bool {
    below.len() == count
        && CHANGES.starts_with(below)
        && CHANGES.ends_with(wave.changes())
        && below.len() + wave.changes().len() == CHANGES.len()
}
