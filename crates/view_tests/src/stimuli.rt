//! Drawn stimulus texts, byte for byte, their faults, and how they are read back.

mod circuits;
mod faults;
mod reading;
mod stimulus_texts;
