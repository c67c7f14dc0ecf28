ghost use Rattle.std.specs.Prelude.{◌≡◌, Some};
ghost use Rattle.prepared_runs.specs.declared.fault.SimFault.TheVariants as sim;
ghost use Rattle.prepared_runs.specs.Faults.{line_of, name_of, sim_of_bench, sim_of_build, sim_of_cone, sim_of_dump, sim_of_schedule};

use bench_text::BenchFault;
use cmb_events::ScheduleFault;
use design::BuildFault;
use fanin_cone::ConeFault;
use std::alloc::{AllocError, AllocFailed};
use std::fmt;
use thiserror::Error;
use timing_text::{DelayFault, OptionFault, StimulusFault};
use vcd_dump::DumpFault;

/// Why a run ended early.
///
/// The first fault is reported, in this order: the settings (default delay, period, horizon), the netlist,
/// the delays, the stimuli, the schedule, the names of nets. If an allocation of any layer fails, the fault
/// is [`Memory`](Self::Memory).
#[derive(Clone, Copy, Debug, PartialEq, Eq, Error)]
pub enum SimFault {
    Setting(OptionFault),
    Bench(BenchFault),
    Timing(DelayFault),
    Stimulus(StimulusFault),
    Schedule(ScheduleFault),
    /// No net has one of the names asked for.
    UnknownNet,
    /// Writing the dump failed.
    Dump(DumpFault),
    /// An allocation failed.
    Memory,
}

impl SimFault {
    /// Returns the line that the fault names, from 1, or 0 if it names none.
    pub fn line(&self) -> u64
        ensures { result ≡ line_of self.now }
    {
        match self {
            SimFault::Bench(fault) => fault.line(),
            SimFault::Timing(fault) => fault.line(),
            SimFault::Stimulus(fault) => fault.line(),
            SimFault::Schedule(fault) => fault.line(),
            SimFault::Setting(_) | SimFault::UnknownNet | SimFault::Dump(_) | SimFault::Memory => 0,
        }
    }

    /// Returns the fault's name, which is its text.
    pub fn name(&self) -> &'static str
        ensures { result.now ≡ name_of self.now }
    {
        match self {
            SimFault::Setting(fault) => fault.name(),
            SimFault::Bench(fault) => fault.name(),
            SimFault::Timing(fault) => fault.name(),
            SimFault::Stimulus(fault) => fault.name(),
            SimFault::Schedule(fault) => fault.name(),
            SimFault::UnknownNet => "UnknownNet",
            SimFault::Dump(fault) => fault.name(),
            SimFault::Memory => "Memory",
        }
    }
}

impl fmt::Display for SimFault {
    ghost output = { λ fault. Some (name_of fault) };

    fn fmt<W: fmt::Write>(&self, f: &mut fmt::Formatter<W>) -> Result<(), fmt::Error> {
        f.write_str(self.name())
    }
}

impl From<AllocError> for SimFault {
    ghost from_gives = { λ _ e. e ≡ sim.Memory };

    fn from(_error: AllocError) -> SimFault {
        SimFault::Memory
    }
}

impl<T: Drop> From<AllocFailed<T>> for SimFault {
    ghost from_gives = { λ _ e. e ≡ sim.Memory };

    fn from(_failed: AllocFailed<T>) -> SimFault {
        SimFault::Memory
    }
}

impl From<OptionFault> for SimFault {
    ghost from_gives = { λ fault e. e ≡ sim.Setting fault };

    fn from(fault: OptionFault) -> SimFault {
        SimFault::Setting(fault)
    }
}

impl From<BenchFault> for SimFault {
    ghost from_gives = { λ fault e. e ≡ sim_of_bench fault };

    fn from(fault: BenchFault) -> SimFault {
        match fault {
            BenchFault::Memory => SimFault::Memory,
            other => SimFault::Bench(other),
        }
    }
}

impl From<BuildFault> for SimFault {
    ghost from_gives = { λ fault e. e ≡ sim_of_build fault };

    fn from(fault: BuildFault) -> SimFault {
        match fault {
            BuildFault::Setting(fault) => SimFault::Setting(fault),
            BuildFault::Timing(DelayFault::Memory) => SimFault::Memory,
            BuildFault::Timing(fault) => SimFault::Timing(fault),
            BuildFault::Stimulus(StimulusFault::Memory) => SimFault::Memory,
            BuildFault::Stimulus(fault) => SimFault::Stimulus(fault),
            BuildFault::Memory => SimFault::Memory,
        }
    }
}

impl From<ScheduleFault> for SimFault {
    ghost from_gives = { λ fault e. e ≡ sim_of_schedule fault };

    fn from(fault: ScheduleFault) -> SimFault {
        match fault {
            ScheduleFault::Memory => SimFault::Memory,
            other => SimFault::Schedule(other),
        }
    }
}

impl From<ConeFault> for SimFault {
    ghost from_gives = { λ fault e. e ≡ sim_of_cone fault };

    fn from(fault: ConeFault) -> SimFault {
        match fault {
            ConeFault::UnknownNet { .. } => SimFault::UnknownNet,
            ConeFault::Memory => SimFault::Memory,
        }
    }
}

impl From<DumpFault> for SimFault {
    ghost from_gives = { λ fault e. e ≡ sim_of_dump fault };

    fn from(fault: DumpFault) -> SimFault {
        match fault {
            DumpFault::Memory => SimFault::Memory,
            other => SimFault::Dump(other),
        }
    }
}
