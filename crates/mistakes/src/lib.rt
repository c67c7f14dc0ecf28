//! What is wrong with a line: the place at which it stops having a form of its text, what it may be written
//! as, and which names are near to a name.
#![tactic(auto)]

mod bench_lines;
mod corrections;
pub mod laws;
mod lines;
mod near;
mod places;
mod subject;

pub use bench_lines::{defined_by, is_assignment, long_net, nth_name, used_by};
pub use corrections::corrected;
pub use lines::{line_at, up_to};
pub use near::{has_by_case, is_one_edit, near_among, only_one};
pub use places::{begins_with_mark, misplaced};
pub use subject::Subject;
