//! The version, for arguments that ask for it.
ghost use Rattle.std.specs.Prelude.{◌≡◌};
ghost use Rattle.nullsim.specs.Command.{TextGiven};
ghost use Rattle.nullsim.specs.Version.{asks_for_version, has_version_word, version_line};

use crate::commander::give_text;
use program_io::Exit;
use std::io::Write;

/// The line with the version that each dump has in its `$version`.
const VERSION: &str = "nullsim 1\n";

/// Returns whether the only argument is `--version` or `-V`.
pub(crate) fn asks_for_version(words: &[String]) -> bool
    ensures { result ≡ asks_for_version words.now }
{
    words.len() == 1 && has_version_word(words)
}

fn has_version_word(words: &[String]) -> bool
    ensures { result ≡ has_version_word words.now }
{
    words
        .iter()
        .any(|word| matches!(word.as_str(), "--version" | "-V"))
}

/// Writes the version; returns the exit.
pub(crate) fn give_version<W: Write, E: Write>(out: &mut W, err: &mut E) -> Exit
    ensures { TextGiven version_line (W.contents out.old) (W.contents out.new)
        (E.contents err.old) (E.contents err.new) result }
{
    give_text(VERSION, out, err)
}
