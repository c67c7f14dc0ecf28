//! Lists of lists in two blocks of memory.
#![tactic(auto)]

mod lists;

pub use lists::{FlatLists, list_of};
