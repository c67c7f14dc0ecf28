//! Traces of small circuits, byte for byte, and writers that fail.

mod circuits;
mod frontiers;
mod lines;
mod shown;
mod writers;
