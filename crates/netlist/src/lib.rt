//! Netlists: the name of each net, what drives it, and the numbers of the nets at its pins; and the order in which values
//! flow through gates.
#![tactic(auto)]

mod names;
mod netlist;
mod order;
mod part;
mod pick;
mod repeats;
mod text;

pub use names::Names;
pub use netlist::{MOST_NETS, MOST_PINS, Net, Netlist};
pub use order::gate_order;
pub use part::Part;
pub use repeats::without_repeats;
pub use text::push_names;
