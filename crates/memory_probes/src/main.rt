//! Calls every function that allocates memory, in every crate, and prints a line with the answer of each call
//! and the state after it. The caller refuses one of its requests for memory.
#![tactic(auto)]

mod commands;
mod explained;
mod faults;
mod whole_runs;

use engine_probes::Teller;

fn main(rt: HostRuntime) {
    let alloc = rt.alloc();
    let mut teller = Teller::new(rt.stdout());
    engine_probes::probe(alloc, &mut teller);
    let _ = whole_runs::probe(alloc, &mut teller);
    let _ = commands::probe(alloc, &mut teller);
    let _ = explained::probe(alloc, &mut teller);
}
