//! The three ways to run a source.
use kernel_runs::{simulate, simulate_with_progress, sweep, sweep_with_progress};
use plain_runs::{plain, plain_with_progress};
use prepared_runs::{DumpView, Silent, SimFault, Source, View};
use std::alloc::Global;
use std::io::Write;

#[derive(Clone, Copy)]
pub(crate) enum Engine {
    Rounds,
    Sweeps,
    Plain,
}

pub(crate) static ENGINES: [Engine; 3] = [Engine::Rounds, Engine::Sweeps, Engine::Plain];

/// Returns the result of a run by this engine.
pub(crate) fn dumps<W: Write>(
    alloc: Global,
    engine: Engine,
    source: &Source,
    view: &View,
    out: &mut W,
) -> Result<(), SimFault> {
    match engine {
        Engine::Rounds => {
            simulate(alloc, source, view, out)?;
            Ok(())
        }
        Engine::Sweeps => sweep(alloc, source, view, out),
        Engine::Plain => plain(alloc, source, view, out),
    }
}

/// Returns the result of a run by this engine that shows these nets, by the call that reports progress.
pub(crate) fn dumps_shown(
    alloc: Global,
    engine: Engine,
    source: &Source,
    view: &DumpView,
    out: &mut Vec<u8>,
) -> Result<(), SimFault> {
    match engine {
        Engine::Rounds => {
            simulate_with_progress(alloc, source, view, out, &mut Silent)?;
            Ok(())
        }
        Engine::Sweeps => sweep_with_progress(alloc, source, view, out, &mut Silent),
        Engine::Plain => plain_with_progress(alloc, source, view, out, &mut Silent),
    }
}
