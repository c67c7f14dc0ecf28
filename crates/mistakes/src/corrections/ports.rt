//! Ways in which a line of inputs or outputs is wrong, and what it may be written as.
ghost use Rattle.std.specs.Prelude.{◌≡◌};
ghost use Rattle.mistakes.specs.BenchCorrections.{port_corrections};
ghost use Rattle.mistakes.specs.SeenCorrections.{seen_table};

use crate::corrections::correction::{
    CLOSE, CLOSED, COMMA, Correction, EQUALS, OPEN, OPENED, Piece,
};
use crate::places::slot::Slot;

const ONE_NAME: &[u8] = b"one name a line: ";

static PORTS: [Correction; 4] = [
    // INPUT a
    Correction {
        wrong: &[Slot::Gate, Slot::Name, Slot::End],
        nets: &[],
        unused: &[],
        said: b"write ",
        lines: &[&[Piece::At(0), OPENED, Piece::At(1), CLOSED]],
    },
    // INPUT(a, b)
    Correction {
        wrong: &[
            Slot::Gate,
            OPEN,
            Slot::Name,
            COMMA,
            Slot::Name,
            CLOSE,
            Slot::End,
        ],
        nets: &[],
        unused: &[],
        said: ONE_NAME,
        lines: &[
            &[Piece::At(0), OPENED, Piece::At(2), CLOSED],
            &[Piece::At(0), OPENED, Piece::At(4), CLOSED],
        ],
    },
    // INPUT(a, b, c)
    Correction {
        wrong: &[
            Slot::Gate,
            OPEN,
            Slot::Name,
            COMMA,
            Slot::Name,
            COMMA,
            Slot::Name,
            CLOSE,
            Slot::End,
        ],
        nets: &[],
        unused: &[],
        said: ONE_NAME,
        lines: &[
            &[Piece::At(0), OPENED, Piece::At(2), CLOSED],
            &[Piece::At(0), OPENED, Piece::At(4), CLOSED],
            &[Piece::At(0), OPENED, Piece::At(6), CLOSED],
        ],
    },
    // OUTPUT y = AND(a, b)
    Correction {
        wrong: &[
            Slot::Keyword(b"OUTPUT"),
            Slot::Name,
            EQUALS,
            Slot::Gate,
            OPEN,
            Slot::Name,
            Slot::More,
        ],
        nets: &[],
        unused: &[],
        said: b"one statement a line: ",
        lines: &[
            &[Piece::At(0), OPENED, Piece::At(1), CLOSED],
            &[Piece::Since(1)],
        ],
    },
];

/// Returns the ways in which a line of inputs or outputs may be wrong.
#[tactic(auto, unfolding(crate::specs::BenchCorrections::port_corrections))]
pub(crate) fn port_corrections() -> &'static [Correction]
    ensures { seen_table result.now ≡ port_corrections }
{
    &PORTS
}
