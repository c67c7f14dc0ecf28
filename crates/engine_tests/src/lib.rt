//! Tests of the layers below a whole run, against worked examples, published values and limits at
//! full size: the plain engine, channels, processes, the kernel, schedules, cones and dumps.
#![tactic(auto)]

#[cfg(test)]
mod channels;
#[cfg(test)]
mod circuits;
#[cfg(test)]
mod cones;
#[cfg(test)]
mod drains;
#[cfg(test)]
mod dumps;
#[cfg(test)]
mod fabrics;
#[cfg(test)]
mod kernels;
#[cfg(test)]
mod parts;
#[cfg(test)]
mod plain_engine;
#[cfg(test)]
mod probe;
#[cfg(test)]
mod processes;
#[cfg(test)]
mod rationed;
#[cfg(test)]
mod schedules;
#[cfg(test)]
mod streams;
#[cfg(test)]
mod sweeps;
