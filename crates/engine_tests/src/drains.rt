//! Nets drained between the rounds of a run, over both fabrics: each change is taken out once.
ghost use Rattle.std.specs.Prelude.{◌≡◌, ◌<◌, false, length};

use crate::circuits::{
    Circuit, GATED_OSCILLATOR, INVERTER, LATE_PIN, RING_COUNTER, SAMPLER, SELF_INVERTER,
    SLOW_INVERTER,
};
use Step::{Drains, Goes, Keeps};
use Value::{One, Unknown, Zero};
use cmb_channels::{Fabric, Logs, Queues};
use cmb_kernel::Kernel;
use design::{Design, plain_waves};
use logic3::{Change, Value, Waveform};
use std::alloc::{AllocError, Global};
use std::process::Abort;
use std::test::Fail;
use timing_text::Horizon;

// A kernel, and how many nets its circuit has.
#[derive(Drop)]
struct Run<'d, F: Fabric> {
    kernel: Kernel<'d, F>,
    nets: u32,
    ghost has_nets: { kernel.failed ≡ false → length kernel.circuit ≡ nets },
}

// A round, after which this is the least frontier; or a net's changes before a tick, which are taken
// out; or the tick from which on a net is kept, and its value before and its changes from there on.
#[derive(Clone, Copy)]
enum Step {
    Goes(u64),
    Drains(u32, u64, &'static [Change]),
    Keeps(u32, u64, Value, &'static [Change]),
}

impl<'d, F: Fabric> Run<'d, F> {
    fn new(alloc: Global, design: &'d Design, horizon: Horizon) -> Result<Run<'d, F>, Fail> {
        Ok(Run {
            kernel: Kernel::new(alloc, design, horizon)?,
            nets: design.nets(),
        })
    }

    // The kernel, which hasn't failed so far, and which has this net.
    fn kernel(&self, rt: &impl Abort, net: u32) -> &Kernel<'d, F>
        ensures same { result.now ≡ self.now.kernel }
        ensures running { result.now.failed ≡ false }
        ensures net { net < length result.now.circuit }
    {
        assert!(rt; !self.kernel.is_failed());
        assert!(rt; net < self.nets);
        &self.kernel
    }

    fn round(&mut self) -> Result<(), Fail> {
        self.kernel.round()?;
        Ok(())
    }

    fn complete(&mut self) -> Result<(), Fail> {
        self.kernel.complete()?;
        Ok(())
    }

    // Takes out the net's changes before the tick.
    fn drain(&mut self, rt: &impl Abort, net: u32, bound: u64) -> Result<Vec<Change>, Fail> {
        assert!(rt; self.kernel(rt, net).floor(net) <= bound);
        assert!(rt; bound <= self.kernel(rt, net).least_frontier());
        Ok(self.kernel.drain_below(net, bound)?)
    }

    // Adds the net's changes before the tick to the end of the list.
    fn drain_into(
        &mut self,
        rt: &impl Abort,
        net: u32,
        bound: u64,
        changes: &mut Vec<Change>,
    ) -> Result<(), Fail> {
        assert!(rt; self.kernel(rt, net).floor(net) <= bound);
        assert!(rt; bound <= self.kernel(rt, net).least_frontier());
        self.kernel.drain_below_into(net, bound, changes)?;
        Ok(())
    }

    fn keeps(&self, rt: &impl Abort, net: u32, floor: u64, before: Value, changes: &[Change]) {
        let kernel = self.kernel(rt, net);
        assert!(rt; kernel.floor(net) == floor);
        assert!(rt; kernel.waveform(net).before() == before);
        assert!(rt; kernel.waveform(net).changes() == changes);
    }

    fn step(&mut self, rt: &impl Abort, step: Step) -> Result<(), Fail> {
        match step {
            Goes(least) => {
                self.round()?;
                assert!(rt; self.kernel(rt, 0).least_frontier() == least);
            }
            Drains(net, bound, changes) => {
                let taken = self.drain(rt, net, bound)?;
                assert!(rt; taken.as_slice() == changes);
                assert!(rt; self.kernel(rt, net).floor(net) == bound);
            }
            Keeps(net, floor, before, changes) => self.keeps(rt, net, floor, before, changes),
        }
        Ok(())
    }

    fn follow(&mut self, rt: &impl Abort, steps: &[Step]) -> Result<(), Fail> {
        for step in steps {
            self.step(rt, *step)?;
        }
        Ok(())
    }
}

const LOW: Change = Change {
    tick: 0,
    value: Zero,
};

const HIGH: Change = Change {
    tick: 3,
    value: One,
};

const RISE: Change = Change {
    tick: 1,
    value: One,
};

const FALL: Change = Change {
    tick: 4,
    value: Zero,
};

// The input of the inverter goes low and high, and its output rises and falls.
const IN_INVERTER: [Step; 16] = [
    Keeps(0, 0, Unknown, &[]),
    Goes(1),
    Keeps(0, 0, Unknown, &[LOW, HIGH]),
    Drains(0, 1, &[LOW]),
    Drains(1, 1, &[]),
    Drains(0, 1, &[]),
    Keeps(0, 1, Zero, &[HIGH]),
    Keeps(1, 1, Unknown, &[]),
    Goes(6),
    Drains(0, 6, &[HIGH]),
    Keeps(0, 6, One, &[]),
    Keeps(1, 1, Unknown, &[RISE, FALL]),
    Drains(1, 6, &[RISE, FALL]),
    Drains(0, 6, &[]),
    Keeps(0, 6, One, &[]),
    Keeps(1, 6, Zero, &[]),
];

const IN_RING_COUNTER: [Step; 9] = [
    Goes(1),
    Goes(4),
    Drains(0, 4, &[]),
    Goes(5),
    Goes(7),
    Drains(1, 6, &[]),
    Goes(8),
    Goes(10),
    Goes(11),
];

// A run of the design takes these steps.
fn follows<F: Fabric>(
    rt: &impl Abort,
    alloc: Global,
    design: &Design,
    horizon: u64,
    steps: &[Step],
) -> Result<(), Fail> {
    let mut run: Run<F> = Run::new(alloc, design, Horizon::new(horizon)?)?;
    run.follow(rt, steps)
}

fn follow_both(
    rt: &impl Abort,
    alloc: Global,
    circuit: Circuit,
    horizon: u64,
    steps: &[Step],
) -> Result<(), Fail> {
    let design = circuit.build(alloc)?;
    follows::<Queues>(rt, alloc, &design, horizon, steps)?;
    follows::<Logs>(rt, alloc, &design, horizon, steps)
}

#[test]
fn drained_step_by_step(rt: HostRuntime) -> Result<(), Fail> {
    follow_both(&rt, rt.alloc(), INVERTER, 5, &IN_INVERTER)?;
    follow_both(&rt, rt.alloc(), RING_COUNTER, 10, &IN_RING_COUNTER)
}

// What is taken out of the net in this number of rounds.
fn taken<F: Fabric>(
    rt: &impl Abort,
    alloc: Global,
    run: &mut Run<F>,
    net: u32,
    rounds: u64,
) -> Result<Vec<Change>, Fail> {
    let mut taken = Vec::new(alloc);
    for _round in 0..rounds {
        run.round()?;
        let least = run.kernel(rt, net).least_frontier();
        run.drain_into(rt, net, least, &mut taken)?;
    }
    Ok(taken)
}

// Completes the run, and adds the changes that are left to those that were taken out; what is left
// begins where the last drain ended.
fn add_rest<F: Fabric>(
    rt: &impl Abort,
    run: &mut Run<F>,
    net: u32,
    changes: &mut Vec<Change>,
) -> Result<(), Fail> {
    let floor = run.kernel(rt, net).least_frontier();
    let before = changes.last().map_or(Unknown, |change| change.value);
    run.complete()?;
    let left = run.kernel(rt, net).waveform(net).changes();
    run.keeps(rt, net, floor, before, left);
    changes.extend_from_slice(left)?;
    Ok(())
}

// The changes taken out in this number of rounds, and those left when the run is complete, are the whole
// waveform of the net.
fn adds_up<F: Fabric>(
    rt: &impl Abort,
    alloc: Global,
    run: &mut Run<F>,
    net: u32,
    rounds: u64,
    whole: &Waveform,
) -> Result<(), Fail> {
    let mut changes = taken(rt, alloc, run, net, rounds)?;
    add_rest(rt, run, net, &mut changes)?;
    assert!(rt; changes.as_slice() == whole.changes());
    Ok(())
}

// This holds for each net of the design.
fn each_adds_up<F: Fabric>(
    rt: &impl Abort,
    alloc: Global,
    design: &Design,
    horizon: Horizon,
    rounds: u64,
) -> Result<(), Fail> {
    let waves = plain_waves(alloc, design, horizon)?;
    for net in 0..design.nets() {
        let whole = waves.get(net as usize).expect(rt, "a waveform of this net");
        let mut run: Run<F> = Run::new(alloc, design, horizon)?;
        adds_up(rt, alloc, &mut run, net, rounds, whole)?;
    }
    Ok(())
}

fn all_add_up(
    rt: &impl Abort,
    alloc: Global,
    circuit: Circuit,
    horizon: u64,
    rounds: u64,
) -> Result<(), Fail> {
    let horizon = Horizon::new(horizon)?;
    let design = circuit.build(alloc)?;
    each_adds_up::<Queues>(rt, alloc, &design, horizon, rounds)?;
    each_adds_up::<Logs>(rt, alloc, &design, horizon, rounds)
}

#[test]
fn nothing_is_lost(rt: HostRuntime) -> Result<(), Fail> {
    for (circuit, horizon, rounds) in [
        (INVERTER, 5, 1),
        (LATE_PIN, 8, 2),
        (SELF_INVERTER, 3, 2),
        (GATED_OSCILLATOR, 12, 3),
        (GATED_OSCILLATOR, 12, 9),
        (SAMPLER, 9, 1),
        (SLOW_INVERTER, 5, 0),
    ] {
        all_add_up(&rt, rt.alloc(), circuit, horizon, rounds)?;
    }
    Ok(())
}

// The input's whole waveform, built directly.
fn low_and_high(alloc: Global) -> Result<Waveform, Fail> {
    let mut wave = Waveform::new(alloc);
    wave.push(LOW)?;
    wave.push(HIGH)?;
    Ok(wave)
}

// These are split off below the tick, and these are left.
fn splits(
    rt: &impl Abort,
    wave: &mut Waveform,
    tick: u64,
    split: &[Change],
    left: &[Change],
) -> Result<(), AllocError> {
    assert!(rt; wave.split_below(tick)?.as_slice() == split);
    assert!(rt; wave.changes() == left);
    Ok(())
}

// What is split off below the tick is added to the list, and then these were split off, and these
// are left.
fn splits_into(
    rt: &impl Abort,
    wave: &mut Waveform,
    below: &mut Vec<Change>,
    tick: u64,
    split: &[Change],
    left: &[Change],
) -> Result<(), AllocError> {
    wave.split_below_into(tick, below)?;
    assert!(rt; (below.as_slice(), wave.changes()) == (split, left));
    Ok(())
}

fn splits_in_three(
    rt: &impl Abort,
    wave: &mut Waveform,
    below: &mut Vec<Change>,
) -> Result<(), AllocError> {
    splits_into(rt, wave, below, 3, &[LOW], &[HIGH])?;
    assert!(rt; wave.before() == Zero);
    splits_into(rt, wave, below, 3, &[LOW], &[HIGH])?;
    splits_into(rt, wave, below, 4, &[LOW, HIGH], &[])
}

#[test]
fn split_of_a_waveform(rt: HostRuntime) -> Result<(), Fail> {
    let mut wave = low_and_high(rt.alloc())?;
    let mut other = wave.copy()?;
    assert!(rt; other == wave);
    let mut below = Vec::new(rt.alloc());
    splits_in_three(&rt, &mut wave, &mut below)?;
    splits(&rt, &mut other, 3, &[LOW], &[HIGH])?;
    splits(&rt, &mut other, 3, &[], &[HIGH])?;
    assert!(rt; other.before() == Zero);
    splits(&rt, &mut other, 4, &[HIGH], &[])?;
    Ok(())
}
