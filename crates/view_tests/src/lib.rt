//! Tests of what users see besides dumps: descriptions of circuits, drawn stimuli, diagrams, traces, causes
//! and differences. Tests of what is built on the kernel: waveforms against the plain engine, messages
//! against traces that were worked out independently.
#![tactic(auto)]

#[cfg(test)]
mod circuits;
#[cfg(test)]
mod diagrams;
#[cfg(test)]
mod drivers;
#[cfg(test)]
mod halves;
#[cfg(test)]
mod info;
#[cfg(test)]
mod reasons;
#[cfg(test)]
mod records;
#[cfg(test)]
mod stimuli;
#[cfg(test)]
mod traces;
