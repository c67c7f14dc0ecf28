//! Numbers of a circuit: the nets that each part drives, the pins that nets have and feed, the levels of gates, whether
//! gates form a loop, and the longest paths; and the text that reports them.
#![tactic(auto)]

mod counts;
mod design_info;
mod known;
pub mod laws;
mod levels;
mod loops;
mod path_lines;
mod path_nets;
mod paths;
mod periods;
mod text;

pub use counts::{fan_ins, fan_outs, first_greatest, gate_count, part_count};
pub use design_info::info;
pub use levels::{Depths, greatest, levels_of};
pub use path_lines::path_text;
pub use paths::{longest_paths, ticks_to_pins};
pub use periods::late_flops;
pub use text::info_text;
