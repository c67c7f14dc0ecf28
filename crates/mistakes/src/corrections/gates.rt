//! Ways in which a line of a gate is wrong, and what it may be written as.
ghost use Rattle.std.specs.Prelude.{◌≡◌};
ghost use Rattle.mistakes.specs.BenchCorrections.{gate_corrections};
ghost use Rattle.mistakes.specs.SeenCorrections.{seen_table};

use crate::corrections::correction::{
    CLOSED, COMMA, Correction, DEFINED, EQUALS, LISTED, OPEN, OPENED, Piece,
};
use crate::places::slot::Slot;

const WRITE: &[u8] = b"write ";

pub(crate) const GATE_FORM: &[u8] = b"a gate is written NAME = GATE(NAME, NAME): ";

static GATES: [Correction; 8] = [
    // AND(y, a, b)
    Correction {
        wrong: &[Slot::Gate, OPEN, Slot::Name, COMMA, Slot::Name, Slot::More],
        nets: &[],
        unused: &[],
        said: b"the output of a gate comes first: ",
        lines: &[&[Piece::At(2), DEFINED, Piece::At(0), OPENED, Piece::Since(4)]],
    },
    // y AND(a, b)
    Correction {
        wrong: &[Slot::Name, Slot::Gate, OPEN, Slot::Name, Slot::More],
        nets: &[],
        unused: &[],
        said: WRITE,
        lines: &[&[Piece::At(0), DEFINED, Piece::Since(1)]],
    },
    // y = NOT a
    Correction {
        wrong: &[Slot::Name, EQUALS, Slot::Gate, Slot::Name, Slot::End],
        nets: &[],
        unused: &[],
        said: WRITE,
        lines: &[&[
            Piece::At(0),
            DEFINED,
            Piece::At(2),
            OPENED,
            Piece::At(3),
            CLOSED,
        ]],
    },
    // y = AND a, b
    Correction {
        wrong: &[
            Slot::Name,
            EQUALS,
            Slot::Gate,
            Slot::Name,
            COMMA,
            Slot::Name,
            Slot::End,
        ],
        nets: &[],
        unused: &[],
        said: WRITE,
        lines: &[&[
            Piece::At(0),
            DEFINED,
            Piece::At(2),
            OPENED,
            Piece::At(3),
            LISTED,
            Piece::At(5),
            CLOSED,
        ]],
    },
    // y = AND a b
    Correction {
        wrong: &[
            Slot::Name,
            EQUALS,
            Slot::Gate,
            Slot::Name,
            Slot::Name,
            Slot::End,
        ],
        nets: &[],
        unused: &[],
        said: WRITE,
        lines: &[&[
            Piece::At(0),
            DEFINED,
            Piece::At(2),
            OPENED,
            Piece::At(3),
            LISTED,
            Piece::At(4),
            CLOSED,
        ]],
    },
    // y = a AND b
    Correction {
        wrong: &[
            Slot::Name,
            EQUALS,
            Slot::Name,
            Slot::Gate,
            Slot::Name,
            Slot::End,
        ],
        nets: &[2, 4],
        unused: &[],
        said: GATE_FORM,
        lines: &[&[
            Piece::At(0),
            DEFINED,
            Piece::At(3),
            OPENED,
            Piece::At(2),
            LISTED,
            Piece::At(4),
            CLOSED,
        ]],
    },
    // y = a
    Correction {
        wrong: &[Slot::Name, EQUALS, Slot::Name, Slot::End],
        nets: &[2],
        unused: &[],
        said: b"a BUF has the value of its pin: ",
        lines: &[&[
            Piece::At(0),
            DEFINED,
            Piece::Own(b"BUF"),
            OPENED,
            Piece::At(2),
            CLOSED,
        ]],
    },
    // NOT = y(a)
    Correction {
        wrong: &[Slot::Gate, EQUALS, Slot::Name, OPEN, Slot::Name, Slot::More],
        nets: &[],
        unused: &[],
        said: b"the net comes first: ",
        lines: &[&[Piece::At(2), DEFINED, Piece::At(0), Piece::Since(3)]],
    },
];

/// Returns the ways in which a line of one gate may be wrong, by its gate word.
#[tactic(auto, unfolding(crate::specs::BenchCorrections::gate_corrections))]
pub(crate) fn gate_corrections() -> &'static [Correction]
    ensures { seen_table result.now ≡ gate_corrections }
{
    &GATES
}
