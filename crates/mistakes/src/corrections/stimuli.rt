//! Ways in which lines of stimulus texts are wrong, and what they may be written as.
ghost use Rattle.std.specs.Prelude.{◌≡◌};
ghost use Rattle.mistakes.specs.SeenCorrections.{seen_table};
ghost use Rattle.mistakes.specs.TimingCorrections.{stimulus_corrections};

use crate::corrections::correction::{COUNT, Correction, EQUALS, Piece, WORD};
use crate::places::slot::Slot;

const FROM_START: &[u8] = b"for a value from tick 0 on, write ";

static STIMULI: [Correction; 6] = [
    // a 10 1
    Correction {
        wrong: &[WORD, COUNT, WORD, Slot::End],
        nets: &[0],
        unused: &[],
        said: b"write ",
        lines: &[&[Piece::At(1), Piece::At(0), Piece::At(2)]],
    },
    // a 1 10
    Correction {
        wrong: &[WORD, WORD, COUNT, Slot::End],
        nets: &[0],
        unused: &[],
        said: b"write ",
        lines: &[&[Piece::At(2), Piece::At(0), Piece::At(1)]],
    },
    // 0 a = 1
    Correction {
        wrong: &[COUNT, WORD, EQUALS, WORD, Slot::End],
        nets: &[1],
        unused: &[],
        said: b"write ",
        lines: &[&[Piece::At(0), Piece::At(1), Piece::At(3)]],
    },
    // a = 1
    Correction {
        wrong: &[WORD, EQUALS, WORD, Slot::End],
        nets: &[0],
        unused: &[],
        said: FROM_START,
        lines: &[&[Piece::Own(b"0"), Piece::At(0), Piece::At(2)]],
    },
    // a 1
    Correction {
        wrong: &[WORD, WORD, Slot::End],
        nets: &[0],
        unused: &[],
        said: FROM_START,
        lines: &[&[Piece::Own(b"0"), Piece::At(0), Piece::At(1)]],
    },
    // 5 a 1 b 0
    Correction {
        wrong: &[COUNT, WORD, WORD, WORD, WORD, Slot::End],
        nets: &[1, 3],
        unused: &[],
        said: b"one change a line: ",
        lines: &[
            &[Piece::At(0), Piece::At(1), Piece::At(2)],
            &[Piece::At(0), Piece::At(3), Piece::At(4)],
        ],
    },
];

/// Returns the ways in which a line of a stimulus text may be wrong.
pub(crate) fn stimulus_corrections() -> &'static [Correction]
    ensures { seen_table result.now ≡ stimulus_corrections }
{
    &STIMULI
}
