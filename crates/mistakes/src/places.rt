//! Where a line stops having a form of its text.
pub(crate) mod forms;
mod line;
pub(crate) mod slot;
mod telling_place;
pub(crate) mod tokens;

pub use slot::begins_with_mark;
pub use telling_place::misplaced;
