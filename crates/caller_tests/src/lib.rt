//! Each public item by its public path, and each call as callers write it, with all types written out, over
//! worked examples. What compiles here compiles for a caller, and the results are those of the examples.
#![tactic(auto)]

#[cfg(test)]
mod channels;
#[cfg(test)]
mod circuits;
#[cfg(test)]
mod commands;
#[cfg(test)]
mod cones;
#[cfg(test)]
mod deck_runs;
#[cfg(test)]
mod designs;
#[cfg(test)]
mod drains;
#[cfg(test)]
mod dumps;
#[cfg(test)]
mod events;
#[cfg(test)]
mod faults;
#[cfg(test)]
mod kernels;
#[cfg(test)]
mod laws;
#[cfg(test)]
mod long_chain;
#[cfg(test)]
mod netlists;
#[cfg(test)]
mod processes;
#[cfg(test)]
mod refusing;
#[cfg(test)]
mod schedules;
#[cfg(test)]
mod simulations;
#[cfg(test)]
mod streams;
#[cfg(test)]
mod twins;
#[cfg(test)]
mod values;
#[cfg(test)]
mod waveforms;
