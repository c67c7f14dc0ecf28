//! Which fault of each layer reports a failed allocation.
use crate::telling::Fault;
use bench_text::BenchFault;
use cmb_events::ScheduleFault;
use cmb_kernel::KernelFault;
use design::BuildFault;
use fanin_cone::ConeFault;
use timing_text::{DelayFault, StimulusFault};
use vcd_dump::DumpFault;

impl Fault for BenchFault {
    fn is_memory(&self) -> bool {
        matches!(self, BenchFault::Memory)
    }
}

impl Fault for DelayFault {
    fn is_memory(&self) -> bool {
        matches!(self, DelayFault::Memory)
    }
}

impl Fault for StimulusFault {
    fn is_memory(&self) -> bool {
        matches!(self, StimulusFault::Memory)
    }
}

impl Fault for BuildFault {
    fn is_memory(&self) -> bool {
        matches!(self, BuildFault::Memory)
    }
}

impl Fault for ScheduleFault {
    fn is_memory(&self) -> bool {
        matches!(self, ScheduleFault::Memory)
    }
}

impl Fault for KernelFault {
    fn is_memory(&self) -> bool {
        matches!(self, KernelFault::Memory)
    }
}

impl Fault for ConeFault {
    fn is_memory(&self) -> bool {
        matches!(self, ConeFault::Memory)
    }
}

impl Fault for DumpFault {
    fn is_memory(&self) -> bool {
        matches!(self, DumpFault::Memory)
    }
}
