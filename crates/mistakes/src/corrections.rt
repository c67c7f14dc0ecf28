//! What a line without a form may be written as.
mod accepted;
mod applying;
mod bench;
mod correction;
mod delays;
mod first_words;
mod formulas;
mod gates;
mod lists;
mod markers;
mod names;
mod nested;
mod ports;
mod right;
mod schedule;
mod statements;
mod stimuli;
mod tables;
mod telling_correction;
mod ticks;
mod traces;
mod words;

pub use telling_correction::corrected;
