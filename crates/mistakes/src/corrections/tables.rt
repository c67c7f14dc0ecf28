//! Look-up tables of two pins, and the gates that have them.
ghost use Rattle.std.specs.Prelude.{◌≡◌};
ghost use Rattle.mistakes.specs.BenchCorrections.{table_corrections};
ghost use Rattle.mistakes.specs.SeenCorrections.{seen_table};

use crate::corrections::correction::{
    CLOSE, CLOSED, COMMA, Correction, DEFINED, EQUALS, LISTED, OPEN, OPENED, Piece,
};
use crate::places::slot::Slot;

static TABLES: [Correction; 6] = [
    // y = LUT 0x8 (a, b)
    Correction {
        wrong: &[
            Slot::Name,
            EQUALS,
            Slot::Keyword(b"LUT"),
            Slot::Keyword(b"0x8"),
            OPEN,
            Slot::Name,
            COMMA,
            Slot::Name,
            CLOSE,
            Slot::End,
        ],
        nets: &[],
        unused: &[],
        said: b"0x8 of two pins is AND: ",
        lines: &[&[
            Piece::At(0),
            DEFINED,
            Piece::Own(b"AND"),
            OPENED,
            Piece::At(5),
            LISTED,
            Piece::At(7),
            CLOSED,
        ]],
    },
    // y = LUT 0x7 (a, b)
    Correction {
        wrong: &[
            Slot::Name,
            EQUALS,
            Slot::Keyword(b"LUT"),
            Slot::Keyword(b"0x7"),
            OPEN,
            Slot::Name,
            COMMA,
            Slot::Name,
            CLOSE,
            Slot::End,
        ],
        nets: &[],
        unused: &[],
        said: b"0x7 of two pins is NAND: ",
        lines: &[&[
            Piece::At(0),
            DEFINED,
            Piece::Own(b"NAND"),
            OPENED,
            Piece::At(5),
            LISTED,
            Piece::At(7),
            CLOSED,
        ]],
    },
    // y = LUT 0xE (a, b)
    Correction {
        wrong: &[
            Slot::Name,
            EQUALS,
            Slot::Keyword(b"LUT"),
            Slot::Keyword(b"0xE"),
            OPEN,
            Slot::Name,
            COMMA,
            Slot::Name,
            CLOSE,
            Slot::End,
        ],
        nets: &[],
        unused: &[],
        said: b"0xE of two pins is OR: ",
        lines: &[&[
            Piece::At(0),
            DEFINED,
            Piece::Own(b"OR"),
            OPENED,
            Piece::At(5),
            LISTED,
            Piece::At(7),
            CLOSED,
        ]],
    },
    // y = LUT 0x1 (a, b)
    Correction {
        wrong: &[
            Slot::Name,
            EQUALS,
            Slot::Keyword(b"LUT"),
            Slot::Keyword(b"0x1"),
            OPEN,
            Slot::Name,
            COMMA,
            Slot::Name,
            CLOSE,
            Slot::End,
        ],
        nets: &[],
        unused: &[],
        said: b"0x1 of two pins is NOR: ",
        lines: &[&[
            Piece::At(0),
            DEFINED,
            Piece::Own(b"NOR"),
            OPENED,
            Piece::At(5),
            LISTED,
            Piece::At(7),
            CLOSED,
        ]],
    },
    // y = LUT 0x6 (a, b)
    Correction {
        wrong: &[
            Slot::Name,
            EQUALS,
            Slot::Keyword(b"LUT"),
            Slot::Keyword(b"0x6"),
            OPEN,
            Slot::Name,
            COMMA,
            Slot::Name,
            CLOSE,
            Slot::End,
        ],
        nets: &[],
        unused: &[],
        said: b"0x6 of two pins is XOR: ",
        lines: &[&[
            Piece::At(0),
            DEFINED,
            Piece::Own(b"XOR"),
            OPENED,
            Piece::At(5),
            LISTED,
            Piece::At(7),
            CLOSED,
        ]],
    },
    // y = LUT 0x9 (a, b)
    Correction {
        wrong: &[
            Slot::Name,
            EQUALS,
            Slot::Keyword(b"LUT"),
            Slot::Keyword(b"0x9"),
            OPEN,
            Slot::Name,
            COMMA,
            Slot::Name,
            CLOSE,
            Slot::End,
        ],
        nets: &[],
        unused: &[],
        said: b"0x9 of two pins is XNOR: ",
        lines: &[&[
            Piece::At(0),
            DEFINED,
            Piece::Own(b"XNOR"),
            OPENED,
            Piece::At(5),
            LISTED,
            Piece::At(7),
            CLOSED,
        ]],
    },
];

/// Returns the look-up tables of two pins that a gate has.
#[tactic(auto, unfolding(crate::specs::BenchCorrections::table_corrections))]
pub(crate) fn table_corrections() -> &'static [Correction]
    ensures { seen_table result.now ≡ table_corrections }
{
    &TABLES
}
