//! Tests of why nets have their values, and of where waveforms differ.

mod chains;
mod circuits;
mod differences;
