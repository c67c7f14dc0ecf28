//! The program with any arguments.
ghost use Rattle.std.specs.Prelude.{◌≡◌, [], false, IsTrue};
ghost use Rattle.program_io.specs.Report.{WithStatus};
ghost use Rattle.program_io.specs.Tell.{TellEnds};
ghost use Rattle.nullsim.specs.Asked.{CommandEnds};
ghost use Rattle.nullsim.specs.Ends.{EndsBy};
ghost use Rattle.nullsim.specs.Program.{VerboseDeckEnds, ask_for_command, asks_for_verbose_deck, has_verbose_word};

use crate::commander::command;
use crate::verbose_deck::tell_verbosely;
use explanations::tables;
use program_io::{Texts, tell};
use std::alloc::Global;
use std::io::{Read, Write};

/// Does what the arguments, without the program's own name, ask for, and returns the exit status.
///
/// Without arguments, the deck in `input` is answered, as by [`tell`]. If the only argument is `--verbose` or
/// `-v`, it is answered as by [`tell_verbosely`], with the tables of all faults. No text of `texts` is requested
/// then. All other arguments are answered as by [`command`], and nothing of `input` is read.
pub fn answer_arguments<R: Read, T: Texts, W: Write, E: Write>(
    alloc: Global,
    words: &[String],
    input: &mut R,
    texts: &mut T,
    out: &mut W,
    err: &mut E,
) -> u8
    ensures deck { words.now ≡ [] → WithStatus result (λ exit. TellEnds (W.contents out.old) (W.contents out.new)
        (E.contents err.old) (E.contents err.new) exit (R.remaining input.old)) }
    ensures verbose_deck { IsTrue (asks_for_verbose_deck words.now) → WithStatus result (VerboseDeckEnds
        (W.contents out.old) (W.contents out.new) (E.contents err.old) (E.contents err.new) (R.remaining input.old)) }
    ensures no_text { ask_for_command words.now ≡ false → texts.new ≡ texts.old }
    ensures command { IsTrue (ask_for_command words.now) → WithStatus result
        (EndsBy T.known T.said T.readings W.contents E.contents (CommandEnds words.now)
        texts.old texts.new out.old out.new err.old err.new) }
    ensures no_input { IsTrue (ask_for_command words.now) → input.new ≡ input.old }
{
    if words.is_empty() {
        tell(alloc, input, out, err)
    } else if asks_for_verbose_deck(words) {
        tell_verbosely(alloc, &tables(), input, out, err)
    } else {
        command(alloc, words, texts, out, err)
    }
}

/// Returns whether the only argument is `--verbose` or `-v`.
fn asks_for_verbose_deck(words: &[String]) -> bool
    ensures { result ≡ asks_for_verbose_deck words.now }
{
    words.len() == 1 && has_verbose_word(words)
}

fn has_verbose_word(words: &[String]) -> bool
    ensures { result ≡ has_verbose_word words.now }
{
    words
        .iter()
        .any(|word| matches!(word.as_str(), "--verbose" | "-v"))
}
