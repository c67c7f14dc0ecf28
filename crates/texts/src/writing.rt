//! Numbers in decimal, and texts that are written whole or in pieces.
mod bytes;
mod fault;
mod numbers;
mod pieces;

pub use bytes::write_all_bytes;
pub use fault::WriteFault;
pub use numbers::{push_number, push_numbered, write_numbered};
pub use pieces::{send, send_long};
