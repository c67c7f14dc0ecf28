//! Tests of texts, netlists and near names, and of the texts and settings that a design is built with.
#![tactic(auto)]

#[cfg(test)]
mod bench_mistakes;
#[cfg(test)]
mod flow;
#[cfg(test)]
mod lines;
#[cfg(test)]
mod mistaken_lines;
#[cfg(test)]
mod near_names;
#[cfg(test)]
mod other_texts;
#[cfg(test)]
mod reading;
#[cfg(test)]
mod timing;
#[cfg(test)]
mod timing_mistakes;
