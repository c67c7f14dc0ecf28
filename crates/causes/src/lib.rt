//! Why a net has its value at a tick: a walk back over the pins that decide, and its text.
#![tactic(auto)]

mod cause;
mod deciding;
pub mod laws;
mod pins;
mod reasons;
mod swings;
mod text;
mod walk;

pub use cause::{Cause, Reason};
pub use text::why_text;
pub use walk::why;
