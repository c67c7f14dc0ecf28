//! Fan-in cones: the nets that a net's value can depend on, whether two designs agree on them, and
//! a netlist and a design of them alone.
#![tactic(auto)]

mod agreement;
mod all_cones;
mod alone;
mod bench_cones;
mod cones;
mod dependents;
mod extraction;
mod fault;
pub mod laws;

pub use agreement::agree;
pub use all_cones::agreeing_cones;
pub use alone::cones_alone;
pub use bench_cones::cone_text;
pub use cones::{cone, outside};
pub use extraction::{extract, net_numbers};
pub use fault::{ConeFault, ConeTextFault};
