//! A circuit cut in two halves, which run in turns.
//!
//! Each half is a circuit of its own, in which the nets of the other half that it reads are inputs. A turn
//! runs a half as far as what it has received allows, and passes on the changes of the nets that the other
//! half reads.
ghost use Rattle.std.specs.Prelude.{◌≡◌, ◌+◌, ◌≤◌, [], min, IfOk};

use bench_text::{BenchFault, read};
use cmb_channels::Logs;
use cmb_kernel::{Kernel, KernelFault};
use design::{BuildFault, Design};
use logic3::Change;
use netlist::{Netlist, Part};
use std::alloc::{AllocError, Global};
use texts::push_number;
use thiserror::Error;
use timing_text::{Horizon, OptionFault};

/// A half of a circuit: its texts, in which each net of the other half that it reads is an input.
#[derive(Clone, Copy)]
pub struct Half<'t> {
    /// The netlist.
    pub bench: &'t [u8],
    /// The delays of its gates and flip-flops.
    pub delays: &'t [u8],
    /// The stimuli of the inputs that the other half doesn't drive.
    pub stimuli: &'t [u8],
    /// The period of its flip-flops.
    pub period: u64,
}

/// What a half has received: how many ticks it knows of the nets that it reads, and their changes there, as
/// lines of a stimulus text.
#[derive(Debug, Drop)]
pub struct Told {
    pub ticks: u64,
    pub stimuli: Vec<u8>,
}

/// Why two halves can't run.
#[derive(Clone, Copy, Debug, PartialEq, Eq, Error)]
pub enum TurnFault {
    /// A netlist is refused.
    #[error("Bench")]
    Bench(BenchFault),
    /// A delay text, a stimulus text or a period is refused.
    #[error("Build")]
    Build(BuildFault),
    /// An allocation failed.
    #[error("Memory")]
    Memory,
}

/// Runs two halves in turns up to a horizon, and returns what each of them has received from the other by
/// then. Driven by this and by its own stimuli, a half shows what it shows in the whole circuit.
///
/// A turn advances a half by its least delay past what it has received. The run ends when these delays, of
/// the two halves alternately, cover the horizon and one more tick.
pub fn run_in_turns(
    alloc: Global,
    first: &Half<'_>,
    second: &Half<'_>,
    horizon: Horizon,
) -> Result<(Told, Told), TurnFault>
    ensures { IfOk result (λ told. (told.0.ticks ≡ horizon + 1) × (told.1.ticks ≡ horizon + 1)) }
{
    let end = horizon.ticks() + 1;
    let (one, other) = (read(alloc, first.bench)?, read(alloc, second.bench)?);
    let mut to_first = Told::nothing(alloc);
    while to_first.ticks < end {
        let to_second = first.turn(alloc, &to_first, &other, end)?;
        to_first = second.turn(alloc, &to_second, &one, end)?;
    }
    let to_second = first.turn(alloc, &to_first, &other, end)?;
    Ok((to_first, to_second))
}

impl Told {
    fn nothing(alloc: Global) -> Told
        ensures ticks { result.ticks ≡ 0 }
        ensures stimuli { result.stimuli.items ≡ [] }
    {
        Told {
            ticks: 0,
            stimuli: Vec::new(alloc),
        }
    }
}

impl Half<'_> {
    /// Runs the half as far as what it has received allows, and passes the changes on to the other half.
    fn turn(
        &self,
        alloc: Global,
        told: &Told,
        others: &Netlist,
        end: u64,
    ) -> Result<Told, TurnFault>
        requires { 1 ≤ end }
        ensures farther { IfOk result (λ next. min end (told.now.ticks + 1) ≤ next.ticks) }
        ensures within { IfOk result (λ next. next.ticks ≤ end) }
    {
        let design = self.design(alloc, told)?;
        let ticks = told
            .ticks
            .saturating_add(least_delay(&design, end))
            .min(end);
        let stimuli = run_to(alloc, &design, others, ticks)?;
        Ok(Told { ticks, stimuli })
    }

    /// Returns the design of the half, driven by its own stimuli and by what it has received.
    fn design(&self, alloc: Global, told: &Told) -> Result<Design, TurnFault> {
        let netlist = read(alloc, self.bench)?;
        let mut stimuli = Vec::from_slice(alloc, self.stimuli)?;
        stimuli.extend_from_slice(b"\n")?;
        stimuli.extend_from_slice(told.stimuli.as_slice())?;
        let design = Design::build(
            alloc,
            netlist,
            self.delays,
            stimuli.as_slice(),
            1,
            self.period,
        )?;
        Ok(design)
    }
}

/// Returns the least delay of a gate or flip-flop, or the end if there is none: a half advances by that past
/// what is known of its inputs.
fn least_delay(design: &Design, end: u64) -> u64
    ensures { 1 ≤ result }
{
    let mut least = end;
    for net in 0..design.nets() {
        if design.part(net) != Part::Input {
            least = least.min(design.delay(net));
        }
    }
    least.max(1)
}

/// Runs a half for this number of ticks, and returns the changes of the nets that the other half reads: those
/// that are inputs there and not here.
fn run_to(
    alloc: Global,
    design: &Design,
    others: &Netlist,
    ticks: u64,
) -> Result<Vec<u8>, TurnFault>
    requires { 1 ≤ ticks }
{
    let horizon = Horizon::new(ticks - 1)?;
    let mut kernel: Kernel<'_, Logs> = Kernel::new(alloc, design, horizon)?;
    kernel.complete()?;
    let mut text = Vec::new(alloc);
    for net in 0..design.nets() {
        if design.part(net) != Part::Input && is_input(others, design.name(net)) {
            push_changes(&mut text, design.name(net), kernel.waveform(net).changes())?;
        }
    }
    Ok(text)
}

fn is_input(netlist: &Netlist, name: &[u8]) -> bool {
    netlist
        .find(name)
        .is_some_and(|net| netlist.part(net) == Part::Input)
}

/// Adds a line for each change of a net.
fn push_changes(text: &mut Vec<u8>, name: &[u8], changes: &[Change]) -> Result<(), AllocError> {
    for change in changes {
        push_number(text, change.tick)?;
        text.extend_from_slice(b" ")?;
        text.extend_from_slice(name)?;
        text.extend_from_slice(b" ")?;
        text.extend_from_slice(change.value.text().as_bytes())?;
        text.extend_from_slice(b"\n")?;
    }
    Ok(())
}

impl From<BenchFault> for TurnFault {
    fn from(fault: BenchFault) -> TurnFault {
        match fault {
            BenchFault::Memory => TurnFault::Memory,
            fault => TurnFault::Bench(fault),
        }
    }
}

impl From<BuildFault> for TurnFault {
    fn from(fault: BuildFault) -> TurnFault {
        match fault {
            BuildFault::Memory => TurnFault::Memory,
            fault => TurnFault::Build(fault),
        }
    }
}

impl From<OptionFault> for TurnFault {
    fn from(fault: OptionFault) -> TurnFault {
        TurnFault::Build(BuildFault::Setting(fault))
    }
}

// A new kernel that does rounds can only run out of memory.
impl From<KernelFault> for TurnFault {
    fn from(_fault: KernelFault) -> TurnFault {
        TurnFault::Memory
    }
}

impl From<AllocError> for TurnFault {
    fn from(_error: AllocError) -> TurnFault {
        TurnFault::Memory
    }
}
