//! One run over both fabrics: after each event of a schedule, after each round and at the end both kernels are in
//! the same state, down to what waits at each pin and what the pin has received.
use crate::circuits::{INVERTER, LATE_PIN};
use Event::{Advance, Deliver};
use cmb_channels::{Fabric, Logs, Queues};
use cmb_events::Event;
use cmb_kernel::{Counts, Kernel};
use design::Design;
use logic3::Waveform;
use std::alloc::Global;
use std::process::Abort;
use std::test::Fail;
use timing_text::Horizon;

// How far a net is known, the tick from which on it is kept, and what it shows.
fn net_of<'k, F: Fabric>(
    rt: &impl Abort,
    kernel: &'k Kernel<F>,
    net: u32,
) -> (u64, u64, &'k Waveform) {
    assert!(rt; !kernel.is_failed());
    assert!(rt; net < kernel.nets());
    (
        kernel.frontier(net),
        kernel.floor(net),
        kernel.waveform(net),
    )
}

// How many messages wait at a pin, and how many ticks of its source it has received.
fn pin_of<F: Fabric>(rt: &impl Abort, kernel: &Kernel<F>, pin: u32) -> (u64, u64) {
    assert!(rt; !kernel.is_failed());
    assert!(rt; pin < kernel.pins());
    (kernel.waiting(pin), kernel.received(pin))
}

// What a kernel has counted, and whether it is complete.
fn counts_of<F: Fabric>(rt: &impl Abort, kernel: &Kernel<F>) -> (Counts, bool) {
    assert!(rt; !kernel.is_failed());
    (kernel.counts(), kernel.is_complete())
}

fn alike<F: Fabric, G: Fabric>(rt: &impl Abort, first: &Kernel<F>, second: &Kernel<G>) {
    assert!(rt; first.nets() == second.nets());
    assert!(rt; first.pins() == second.pins());
    for net in 0..first.nets() {
        assert!(rt; net_of(rt, first, net) == net_of(rt, second, net));
    }
    for pin in 0..first.pins() {
        assert!(rt; pin_of(rt, first, pin) == pin_of(rt, second, pin));
    }
    assert!(rt; counts_of(rt, first) == counts_of(rt, second));
}

// The frontier of each net; the messages that wait at each pin, and the ticks of its source that it has received.
type Known = (&'static [u64], &'static [(u64, u64)]);

fn knows<F: Fabric>(rt: &impl Abort, kernel: &Kernel<F>, known: Known) {
    assert!(rt; kernel.nets() as usize == known.0.len());
    assert!(rt; kernel.pins() as usize == known.1.len());
    for net in 0..kernel.nets() {
        assert!(rt; Some(&net_of(rt, kernel, net).0) == known.0.get(net as usize));
    }
    for pin in 0..kernel.pins() {
        assert!(rt; Some(&pin_of(rt, kernel, pin)) == known.1.get(pin as usize));
    }
}

fn counts_are<F: Fabric>(
    rt: &impl Abort,
    kernel: &Kernel<F>,
    [events, changes, nulls, rounds]: [u64; 4],
) {
    let counts = Counts {
        events,
        changes,
        nulls,
        rounds,
    };
    assert!(rt; counts_of(rt, kernel).0 == counts);
}

// Kernels of one design, over each of the fabrics.
#[derive(Drop)]
struct Pair<'d> {
    queues: Kernel<'d, Queues>,
    logs: Kernel<'d, Logs>,
}

impl<'d> Pair<'d> {
    fn new(alloc: Global, design: &'d Design, horizon: u64) -> Result<Pair<'d>, Fail> {
        let horizon = Horizon::new(horizon)?;
        Ok(Pair {
            queues: Kernel::new(alloc, design, horizon)?,
            logs: Kernel::new(alloc, design, horizon)?,
        })
    }

    fn apply(&mut self, rt: &impl Abort, event: Event) -> Result<(), Fail> {
        let useful = self.queues.apply(event)?;
        assert!(rt; self.logs.apply(event)? == useful);
        alike(rt, &self.queues, &self.logs);
        Ok(())
    }

    // A million times this event, which isn't useful, is counted, and changes nothing else.
    fn idle(
        &mut self,
        rt: &impl Abort,
        alloc: Global,
        event: Event,
        counts: [u64; 4],
    ) -> Result<(), Fail> {
        let events = vec![in alloc; event; 1_000_000]?;
        self.queues.apply_all(&events)?;
        self.logs.apply_all(&events)?;
        alike(rt, &self.queues, &self.logs);
        self.knows(rt, (&[0, 1], &[(0, 0)]), counts);
        Ok(())
    }

    fn round(&mut self, rt: &impl Abort) -> Result<(), Fail> {
        self.queues.round()?;
        self.logs.round()?;
        alike(rt, &self.queues, &self.logs);
        Ok(())
    }

    fn knows(&self, rt: &impl Abort, known: Known, counts: [u64; 4]) {
        knows(rt, &self.queues, known);
        counts_are(rt, &self.queues, counts);
        knows(rt, &self.logs, known);
        counts_are(rt, &self.logs, counts);
    }
}

// A schedule, what is known and counted after it, the rounds to the end, and what is counted there.
type Run = (&'static [Event], Known, [u64; 4], u64, [u64; 4]);

const NOTHING: Known = (&[0, 0, 0], &[(0, 0), (0, 0), (0, 0)]);

// The nets `a`, `b` and `y` of `LATE_PIN` to tick 8, under four schedules.
static RUNS: [Run; 4] = [
    (&[], NOTHING, [0, 0, 0, 0], 3, [19, 7, 6, 3]),
    (
        &[Advance(2); 50],
        (&[0, 0, 1], &[(0, 0), (0, 0), (0, 0)]),
        [50, 0, 1, 0],
        3,
        [69, 7, 6, 3],
    ),
    (
        &[Deliver(0), Deliver(1), Deliver(2)],
        NOTHING,
        [3, 0, 0, 0],
        3,
        [22, 7, 6, 3],
    ),
    // `a` sends two changes and a null message, of which `b` takes the first; `b` sends its change at tick 1.
    (
        &[Advance(0), Deliver(0), Advance(1)],
        (&[9, 2, 0], &[(2, 1), (3, 0), (1, 0)]),
        [3, 3, 1, 0],
        2,
        [17, 7, 3, 2],
    ),
];

impl Pair<'_> {
    fn run(&mut self, rt: &impl Abort, run: Run) -> Result<(), Fail> {
        let (events, after, counted, rounds, total) = run;
        for event in events {
            self.apply(rt, *event)?;
        }
        self.knows(rt, after, counted);
        for _round in 0..rounds {
            self.round(rt)?;
        }
        self.knows(rt, (&[9, 9, 9], &[(0, 9), (0, 9), (0, 9)]), total);
        Ok(())
    }
}

fn run(rt: &impl Abort, alloc: Global, design: &Design, run: Run) -> Result<(), Fail> {
    let mut pair = Pair::new(alloc, design, 8)?;
    pair.run(rt, run)
}

#[test]
fn four_schedules(rt: HostRuntime) -> Result<(), Fail> {
    let design = LATE_PIN.build(rt.alloc())?;
    for row in &RUNS {
        run(&rt, rt.alloc(), &design, *row)?;
    }
    Ok(())
}

fn is_idle(rt: &impl Abort, alloc: Global, design: &Design) -> Result<(), Fail> {
    let mut pair = Pair::new(alloc, design, 5)?;
    pair.apply(rt, Advance(1))?;
    pair.idle(rt, alloc, Advance(1), [1_000_001, 0, 1, 0])?;
    pair.idle(rt, alloc, Deliver(0), [2_000_001, 0, 1, 0])
}

#[test]
fn a_million_idle_events(rt: HostRuntime) -> Result<(), Fail> {
    let design = INVERTER.build(rt.alloc())?;
    is_idle(&rt, rt.alloc(), &design)
}
