//! Lines of delay, stimulus and schedule texts that their reader takes, with a net that the text may name.
ghost use Rattle.std.specs.Prelude.{◌≡◌, ◌++◌, OnOk};
ghost use Rattle.mistakes.specs.SeenCorrections.{seen_refused, seen_words};
ghost use Rattle.mistakes.specs.TimingLines.{is_right, net_place, right_told};

use crate::corrections::accepted::{Refused, word_of};
use crate::corrections::applying::push_said_line;
use crate::subject::Subject;
use std::alloc::AllocError;

/// Adds a text and the words as a line, if the reader takes them and the text may name their net.
#[tactic(auto, unfolding(crate::specs::TimingLines::right_told))]
pub(crate) fn push_right_told(
    told: &mut Vec<u8>,
    refused: Refused<'_>,
    said: &[u8],
    words: &[&[u8]],
) -> Result<(), AllocError>
    ensures { OnOk result (told.new.items ≡ told.old.items ++ right_told (seen_refused refused.entry) said.now (seen_words words.now)) }
{
    if is_right(refused, words) {
        push_said_line(told, said, words)
    } else {
        Ok(())
    }
}

fn is_right(refused: Refused<'_>, words: &[&[u8]]) -> bool
    ensures { result ≡ is_right (seen_refused refused.entry) (seen_words words.now) }
{
    refused.is_accepted(words) && refused.has_net(word_of(words, net_place(refused.subject, words)))
}

/// Returns the place of the net: `NAME TICKS`, or else the second word.
fn net_place(subject: Subject, words: &[&[u8]]) -> usize
    ensures { result ≡ net_place subject (seen_words words.now) }
{
    match subject {
        Subject::Delays => if words.len() > 2 { 1 } else { 0 },
        _ => 1,
    }
}
