//! Ways in which a line with a gate in a gate is wrong, and what it may be written as.
ghost use Rattle.std.specs.Prelude.{◌≡◌};
ghost use Rattle.mistakes.specs.BenchCorrections.{nested_corrections};
ghost use Rattle.mistakes.specs.SeenCorrections.{seen_table};

use crate::corrections::correction::{
    CLOSE, CLOSED, COMMA, Correction, DEFINED, EQUALS, LISTED, OPEN, OPENED, Piece,
};
use crate::places::slot::Slot;

/// A net between two gates, of which one is a pin of the other.
const NEW: Piece = Piece::Own(b"n");

const ONE_GATE: &[u8] = b"one gate a line, n being a new name: ";

static NESTED: [Correction; 3] = [
    // y = AND(NOT(a), b)
    Correction {
        wrong: &[
            Slot::Name,
            EQUALS,
            Slot::Gate,
            OPEN,
            Slot::Gate,
            OPEN,
            Slot::Name,
            CLOSE,
            COMMA,
            Slot::Name,
            Slot::More,
        ],
        nets: &[],
        unused: &[b"n"],
        said: ONE_GATE,
        lines: &[
            &[NEW, DEFINED, Piece::At(4), OPENED, Piece::At(6), CLOSED],
            &[
                Piece::At(0),
                DEFINED,
                Piece::At(2),
                OPENED,
                NEW,
                LISTED,
                Piece::Since(9),
            ],
        ],
    },
    // y = AND(a, NOT(b))
    Correction {
        wrong: &[
            Slot::Name,
            EQUALS,
            Slot::Gate,
            OPEN,
            Slot::Name,
            COMMA,
            Slot::Gate,
            OPEN,
            Slot::Name,
            CLOSE,
            CLOSE,
            Slot::End,
        ],
        nets: &[],
        unused: &[b"n"],
        said: ONE_GATE,
        lines: &[
            &[NEW, DEFINED, Piece::At(6), OPENED, Piece::At(8), CLOSED],
            &[
                Piece::At(0),
                DEFINED,
                Piece::At(2),
                OPENED,
                Piece::At(4),
                LISTED,
                NEW,
                CLOSED,
            ],
        ],
    },
    // y = NOT(AND(a, b))
    Correction {
        wrong: &[
            Slot::Name,
            EQUALS,
            Slot::Gate,
            OPEN,
            Slot::Gate,
            OPEN,
            Slot::Name,
            COMMA,
            Slot::Name,
            CLOSE,
            CLOSE,
            Slot::End,
        ],
        nets: &[],
        unused: &[b"n"],
        said: ONE_GATE,
        lines: &[
            &[
                NEW,
                DEFINED,
                Piece::At(4),
                OPENED,
                Piece::At(6),
                LISTED,
                Piece::At(8),
                CLOSED,
            ],
            &[Piece::At(0), DEFINED, Piece::At(2), OPENED, NEW, CLOSED],
        ],
    },
];

/// Returns the ways in which a line with a gate in a gate may be wrong.
#[tactic(auto, unfolding(crate::specs::BenchCorrections::nested_corrections))]
pub(crate) fn nested_corrections() -> &'static [Correction]
    ensures { seen_table result.now ≡ nested_corrections }
{
    &NESTED
}
