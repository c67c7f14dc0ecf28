//! Diagrams of worked circuits, byte for byte, and the limits of diagrams.

mod circuits;
mod drawings;
mod limits;
