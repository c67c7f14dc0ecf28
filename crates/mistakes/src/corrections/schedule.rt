//! Ways in which lines of schedule texts are wrong, and what they may be written as.
ghost use Rattle.std.specs.Prelude.{◌≡◌};
ghost use Rattle.mistakes.specs.SeenCorrections.{seen_table};
ghost use Rattle.mistakes.specs.TimingCorrections.{schedule_corrections};

use crate::corrections::correction::{Correction, Piece, WORD};
use crate::places::slot::Slot;

static SCHEDULE: [Correction; 1] = [
    // advance a b
    Correction {
        wrong: &[Slot::Fixed(b"advance"), WORD, WORD, Slot::End],
        nets: &[1, 2],
        unused: &[],
        said: b"one step a line: ",
        lines: &[&[Piece::At(0), Piece::At(1)], &[Piece::At(0), Piece::At(2)]],
    },
];

/// Returns the ways in which a line of a schedule text may be wrong.
pub(crate) fn schedule_corrections() -> &'static [Correction]
    ensures { seen_table result.now ≡ schedule_corrections }
{
    &SCHEDULE
}
