//! Tests of whole runs: worked examples, refusals, far horizons, faulty writers. And of the program's library.
#![tactic(auto)]

#[cfg(test)]
mod cones;
#[cfg(test)]
mod engines;
#[cfg(test)]
mod far_runs;
#[cfg(test)]
mod noting;
#[cfg(test)]
mod numbers;
#[cfg(test)]
mod program;
#[cfg(test)]
mod showing;
#[cfg(test)]
mod simulations;
#[cfg(test)]
mod twins;
#[cfg(test)]
mod writers;
