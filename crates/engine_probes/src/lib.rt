//! Makes the calls that take memory, of the crates below whole runs, and prints for each a line with its
//! answer. The program `memory_probes` calls it, and continues with whole runs.
#![tactic(auto)]

mod channels;
mod circuit_texts;
mod circuits;
mod diagrams;
mod dumps;
mod faults;
mod following;
mod kernels;
mod processes;
mod telling;
mod waves;

pub use following::Follower;
use std::alloc::Global;
use std::io::Write;
pub use telling::Teller;

/// Makes all calls, each group to its end or up to a call that runs out of memory.
pub fn probe<W: Write>(alloc: Global, teller: &mut Teller<W>) {
    let _ = waves::probe(alloc, teller);
    let _ = circuit_texts::probe(alloc, teller);
    let _ = circuit_texts::probe_designs(alloc, teller);
    let _ = circuits::probe(alloc, teller);
    let _ = channels::probe(alloc, teller);
    let _ = processes::probe(alloc, teller);
    let _ = kernels::probe(alloc, teller);
    let _ = dumps::probe(alloc, teller);
    let _ = diagrams::probe(alloc, teller);
}
