//! Ways in which lines of delay texts are wrong, and what they may be written as.
ghost use Rattle.std.specs.Prelude.{◌≡◌};
ghost use Rattle.mistakes.specs.SeenCorrections.{seen_table};
ghost use Rattle.mistakes.specs.TimingCorrections.{delay_corrections};

use crate::corrections::correction::{COUNT, Correction, EQUALS, Piece, WORD};
use crate::places::slot::Slot;

const DELAY: Piece = Piece::Own(b"delay");

const VERSION: &[Piece] = &[
    Piece::Own(b"timing"),
    Piece::Own(b"version"),
    Piece::Own(b"2"),
];

static DELAYS: [Correction; 10] = [
    // y = 3
    Correction {
        wrong: &[WORD, EQUALS, COUNT, Slot::End],
        nets: &[0],
        unused: &[],
        said: b"write ",
        lines: &[&[Piece::At(0), Piece::At(2)]],
    },
    // y = 3, in version 2
    Correction {
        wrong: &[WORD, EQUALS, COUNT, Slot::End],
        nets: &[0],
        unused: &[],
        said: b"write ",
        lines: &[&[DELAY, Piece::At(0), Piece::At(2)]],
    },
    // delay y = 3
    Correction {
        wrong: &[Slot::Keyword(b"delay"), WORD, EQUALS, COUNT, Slot::End],
        nets: &[1],
        unused: &[],
        said: b"write ",
        lines: &[&[DELAY, Piece::At(1), Piece::At(3)]],
    },
    // y 3, in version 2
    Correction {
        wrong: &[WORD, COUNT, Slot::End],
        nets: &[0],
        unused: &[],
        said: b"write ",
        lines: &[&[DELAY, Piece::At(0), Piece::At(1)]],
    },
    // a line of version 2, in a text of version 1
    Correction {
        wrong: &[Slot::Keyword(b"delay"), WORD, COUNT, Slot::End],
        nets: &[],
        unused: &[],
        said: b"add the first line ",
        lines: &[VERSION],
    },
    // a line of version 2, in a text of version 1
    Correction {
        wrong: &[Slot::Keyword(b"clock"), WORD, COUNT, COUNT, Slot::End],
        nets: &[],
        unused: &[],
        said: b"add the first line ",
        lines: &[VERSION],
    },
    // a line of version 2, in a text of version 1
    Correction {
        wrong: &[Slot::Keyword(b"init"), WORD, WORD, Slot::End],
        nets: &[],
        unused: &[],
        said: b"add the first line ",
        lines: &[VERSION],
    },
    // a line of version 2, in a text of version 1
    Correction {
        wrong: &[Slot::Keyword(b"wire"), WORD, COUNT, COUNT, Slot::End],
        nets: &[],
        unused: &[],
        said: b"add the first line ",
        lines: &[VERSION],
    },
    // timing version 3
    Correction {
        wrong: &[
            Slot::Fixed(b"timing"),
            Slot::Fixed(b"version"),
            COUNT,
            Slot::End,
        ],
        nets: &[],
        unused: &[],
        said: b"a text of version 1 has no such line; one of version 2 begins with ",
        lines: &[VERSION],
    },
    // Timing Version 2
    Correction {
        wrong: &[
            Slot::Keyword(b"timing"),
            Slot::Keyword(b"version"),
            Slot::Fixed(b"2"),
            Slot::End,
        ],
        nets: &[],
        unused: &[],
        said: b"write ",
        lines: &[VERSION],
    },
];

/// Returns the ways in which a line of a delay text may be wrong.
pub(crate) fn delay_corrections() -> &'static [Correction]
    ensures { seen_table result.now ≡ delay_corrections }
{
    &DELAYS
}
