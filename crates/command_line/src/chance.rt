//! Tips of `clap` for words that are similar to others by chance.
use explanations::is_one_edit;
use std::alloc::{AllocError, Global};

/// The least number of bytes in each of two names that may differ by an edit.
const SHORTEST_EDITED: usize = 3;

/// The first tip in the text of a usage error.
#[derive(Clone, Copy)]
struct FirstTip<'t> {
    /// What comes before the tip. It has the wrong word in quotes.
    before: &'t str,
    /// The tip, which has each suggested word in quotes.
    tip: &'t str,
    /// What comes after the tip's line.
    after: &'t str,
}

/// Returns the text of a usage error of `clap`. Of the words that it suggests as similar, only one that is near
/// to the wrong word is left, if it is the only one.
///
/// # Errors
/// An allocation failed.
pub(super) fn without_chance(alloc: Global, text: String) -> Result<String, AllocError> {
    match first_tip(text.as_str()) {
        Some(tip) if suggests(tip.tip) => with_near(alloc, tip),
        _ => Ok(text),
    }
}

fn first_tip(text: &str) -> Option<FirstTip<'_>> {
    let (before, rest) = text.split_once("\n  tip: ")?;
    let (tip, after) = rest.split_once("\n")?;
    Some(FirstTip { before, tip, after })
}

/// Returns whether a tip suggests similar words: for an option of this command, a command or a value, or an
/// option of another command.
fn suggests(tip: &str) -> bool {
    tip.starts_with("a similar ") || tip.starts_with("some similar ") || tip.starts_with("'")
}

/// Returns the text with the tip for the near word alone, if there is one.
fn with_near(alloc: Global, first: FirstTip<'_>) -> Result<String, AllocError> {
    let FirstTip { before, tip, after } = first;
    let mut text = String::from_str(alloc, before)?;
    match near_word(tip, wrong_word(before)) {
        Some(_) if !tip.starts_with("some ") => write!(text, "\n  tip: {tip}\n{after}")?,
        Some(name) => write!(
            text,
            "\n  tip: a similar subcommand exists: '{name}'\n{after}"
        )?,
        None => text.push_str(after)?,
    }
    Ok(text)
}

/// Returns the first word in quotes, which is the wrong one.
fn wrong_word(before: &str) -> &str {
    before.split('\'').nth(1).unwrap_or("")
}

/// Returns the suggested word that is near to the wrong one, if it is the only one.
fn near_word<'t>(tip: &'t str, wrong: &str) -> Option<&'t str> {
    let mut near = None;
    for word in tip.split('\'') {
        if is_near(word, wrong) {
            if near.is_some() {
                return None;
            }
            near = Some(word);
        }
    }
    near
}

/// Returns whether two words differ by the case of letters at most, or by one edit that changes no digit.
fn is_near(one: &str, other: &str) -> bool {
    let (one, other) = (bare_name(one).as_bytes(), bare_name(other).as_bytes());
    one.eq_ignore_ascii_case(other)
        || (one.len() >= SHORTEST_EDITED
            && other.len() >= SHORTEST_EDITED
            && is_one_edit(one, other))
}

/// Returns a word without dashes in front, and without the command before it.
fn bare_name(word: &str) -> &str {
    let name = match word.rsplit_once(' ') {
        Some((_, name)) => name,
        None => word,
    };
    name.trim_start_matches('-')
}
