//! Ways in which a line is wrong, and what it may be written as.
use crate::places::slot::Slot;

/// Any word; what it is called plays no part.
pub(crate) const WORD: Slot = Slot::Word(b"");

pub(crate) const COUNT: Slot = Slot::Number(b"");

pub(crate) const EQUALS: Slot = Slot::Fixed(b"=");

pub(crate) const OPEN: Slot = Slot::Fixed(b"(");

pub(crate) const COMMA: Slot = Slot::Fixed(b",");

pub(crate) const CLOSE: Slot = Slot::Fixed(b")");

pub(crate) const DEFINED: Piece = Piece::Own(b"=");

pub(crate) const OPENED: Piece = Piece::Own(b"(");

pub(crate) const LISTED: Piece = Piece::Own(b",");

pub(crate) const CLOSED: Piece = Piece::Own(b")");

/// A part of a corrected line.
#[derive(Clone, Copy)]
pub(crate) enum Piece {
    /// The word or mark at a place of the refused line, from 0.
    At(usize),
    /// Those from a place on.
    Since(usize),
    /// A word or mark that the correction adds.
    Own(&'static [u8]),
}

/// A way in which a line is wrong, and what it may be written as.
#[derive(Clone, Copy)]
pub(crate) struct Correction {
    /// The refused line, as a row of slots.
    pub(crate) wrong: &'static [Slot],
    /// The places of the words that have to be nets.
    pub(crate) nets: &'static [usize],
    /// Names that no net may have.
    pub(crate) unused: &'static [&'static [u8]],
    /// What is printed before the corrected lines.
    pub(crate) said: &'static [u8],
    pub(crate) lines: &'static [&'static [Piece]],
}
