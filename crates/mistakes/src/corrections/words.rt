//! The words and marks of lines that are corrected.
ghost use Rattle.std.specs.Prelude.{◌≡◌, IfOk};
ghost use Rattle.mistakes.specs.Corrections.{is_shown_whole};
ghost use Rattle.mistakes.specs.SeenCorrections.{seen_words};
ghost use Rattle.mistakes.specs.Tokens.{bytes_of, tokens_of};
ghost use Rattle.mistakes.specs.declared.subject.Subject.TheVariants.{Bench};

use crate::lines::LONGEST_CORRECTED;
use crate::places::tokens::tokens_of;
use crate::subject::Subject;
use std::alloc::{AllocError, Global};
use texts::is_plain;

/// Returns whether a line without its comment is shown whole, and has no byte that a reader refuses.
pub(crate) fn is_shown_whole(code: &[u8]) -> bool
    ensures { result ≡ is_shown_whole code.now }
{
    is_plain(code) && code.len() <= LONGEST_CORRECTED
}

/// Returns the words and marks of a line. A mark is in no name, so the lines of all texts are cut at marks.
pub(crate) fn marked_words(alloc: Global, code: &[u8]) -> Result<Vec<&[u8]>, AllocError>
    ensures { IfOk result (λ words. seen_words words.items ≡ bytes_of (tokens_of Bench code.now)) }
{
    let mut words = Vec::new(alloc);
    for token in tokens_of(Subject::Bench, code) {
        words.push(token.bytes)?;
    }
    Ok(words)
}
