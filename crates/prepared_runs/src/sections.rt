//! The sections of a deck, which is a whole run in one text.
ghost use Rattle.std.specs.Prelude.{◌≡◌, ◌∷◌, ◌+◌, ◌-◌, ◌<◌, ◌≤◌, ◌^◌, ◌==◌, [], length, drop, false, min, option_map, MatchBool, MatchOption, IfSome, IsSome};
ghost use Rattle.std.specs.List.{before_first, concat, position_or_len};
ghost use Rattle.texts.specs.Text.{longest_text};
ghost use Rattle.prepared_runs.specs.Deck.{ended_lines, has_words, horizon_in, is_marker, line_words, sections_behind, sections_of};
ghost use Rattle.prepared_runs.specs.Seen.{IsRefused, FillsOwnPlace, PassesLine, SplitsLine, held, is_marker_word, on_sections, seen_sections, stops, word_of};

use crate::deck_fault::DeckFault;
use crate::run_texts::RunTexts;
use texts::{LONGEST_TEXT, first_place, has_words, split_word};

/// The horizon and the texts of a deck.
#[derive(Debug, Drop)]
pub struct Sections<'a> {
    /// The number on the first line, or the largest `u64` if it is larger than that.
    pub horizon: u64,
    /// The texts of the sections. That of an absent section is empty.
    pub texts: RunTexts<&'a [u8]>,
}

/// Returns the sections of a deck, or its first fault.
///
/// The first line consists of the word `%nullsim` and a number, the horizon. A line that consists of
/// one word, `%bench`, `%delays`, `%stimuli` or `%schedule`, is a marker. A section is the bytes after
/// its marker's line, up to the next marker or the end; an absent section is empty. Lines before the
/// first marker have no words, and no marker occurs twice. Comments are not removed here.
///
/// Reads the lines once, allocates nothing and copies nothing.
pub fn read_sections(text: &[u8]) -> Result<Sections<'_>, DeckFault>
    ensures { on_sections seen_sections result ≡ on_sections held (sections_of text.now) }
{
    if text.len() > LONGEST_TEXT {
        return Err(DeckFault::TooLong);
    }
    let (first, rest) = split_line(text).ok_or(DeckFault::BadDeck { line: 1 })?;
    let horizon = horizon_in(first).ok_or(DeckFault::BadDeck { line: 1 })?;
    sections_behind(horizon, rest)
}

/// Returns the sections of the text after the first line.
fn sections_behind(horizon: u64, text: &[u8]) -> Result<Sections<'_>, DeckFault>
    requires { length text.now ≤ longest_text }
    ensures { on_sections seen_sections result ≡ sections_behind horizon (ended_lines text.now) }
{
    let mut found: Found<'_> = RunTexts {
        bench: None,
        delays: None,
        stimuli: None,
        schedule: None,
    };
    let head = split_front(text, false);
    // The number of lines so far: those of a deck count from 1, and its first line isn't among these.
    let mut lines = head.lines;
    let mut rest = head.rest;
    while let Some((line, after)) = split_line(rest) {
        let own = split_front(after, true);
        if !keep(&mut found, marker_in(line), own.text) {
            return Err(DeckFault::BadDeck { line: lines + 2 });
        }
        lines += own.lines + 1;
        rest = own.rest;
    }
    let texts = RunTexts {
        bench: found.bench.unwrap_or(&[]),
        delays: found.delays.unwrap_or(&[]),
        stimuli: found.stimuli.unwrap_or(&[]),
        schedule: found.schedule.unwrap_or(&[]),
    };
    Ok(Sections { horizon, texts })
}

/// The texts of the sections so far.
type Found<'a> = RunTexts<Option<&'a [u8]>>;

/// Stores the text of a marker's section, and returns whether it did: not if the line has no marker, or
/// one whose section has been stored.
fn keep<'a>(found: &mut Found<'a>, marker: Option<Marker>, text: &'a [u8]) -> bool
    ensures { MatchBool result
        (MatchOption marker ⊥ (λ marker. FillsOwnPlace marker text.entry found.old found.new))
        (IfSome marker (λ marker. IsRefused found.old marker)) }
{
    match marker {
        Some(Marker::Bench) => fill(&mut found.bench, text),
        Some(Marker::Delays) => fill(&mut found.delays, text),
        Some(Marker::Stimuli) => fill(&mut found.stimuli, text),
        Some(Marker::Schedule) => fill(&mut found.schedule, text),
        None => false,
    }
}

/// Stores a text in an empty place, and returns whether it was empty.
fn fill<'a>(place: &mut Option<&'a [u8]>, text: &'a [u8]) -> bool
    ensures { MatchBool result ((place.old ≡ None) × (place.new ≡ Some text.entry)) (IsSome place.old) }
{
    if place.is_some() {
        return false;
    }
    *place = Some(text);
    true
}

/// Lines at the front of a text: their number, their bytes, and what follows them.
#[derive(Clone, Copy)]
struct Front<'a> {
    lines: u64,
    text: &'a [u8],
    rest: &'a [u8],
}

/// Returns the lines of a section, up to a marker; or those before the first section, up to one with
/// words.
fn split_front(text: &[u8], in_section: bool) -> Front<'_>
    ensures lines { result.lines ≡ position_or_len (stops in_section) (ended_lines text.now) }
    ensures text { result.text.now ≡ concat (before_first (stops in_section) (ended_lines text.now)) }
    ensures rest { ended_lines result.rest.now
        ≡ drop (position_or_len (stops in_section) (ended_lines text.now)) (ended_lines text.now) }
    ensures within { result.lines + length result.rest.now ≤ length text.now }
{
    let mut lines = 0;
    let mut rest = text;
    while let Some(after) = past_line(rest, in_section) {
        lines += 1;
        rest = after;
    }
    Front {
        lines,
        text: &text[..text.len() - rest.len()],
        rest,
    }
}

/// Returns what follows the first line, unless it ends those before it.
fn past_line(text: &[u8], in_section: bool) -> Option<&[u8]>
    ensures { MatchOption result (position_or_len (stops in_section) (ended_lines text.now) ≡ 0)
        (λ after. PassesLine (stops in_section) text.now after.now) }
{
    let (line, after) = split_line(text)?;
    if stops(line, in_section) {
        None
    } else {
        Some(after)
    }
}

/// Returns whether a line ends those before it: a marker in a section, and words before the first one.
fn stops(line: &[u8], in_section: bool) -> bool
    ensures { result ≡ stops in_section line.now }
{
    if in_section {
        marker_in(line).is_some()
    } else {
        has_words(without_newline(line))
    }
}

/// Returns the first line with its newline, and what follows it.
fn split_line(text: &[u8]) -> Option<(&[u8], &[u8])>
    ensures { MatchOption result (text.now ≡ []) (λ split. SplitsLine text.now split.0.now split.1.now) }
{
    let end = first_place(text, b'\n');
    if end < text.len() {
        Some(text.split_at(end + 1))
    } else if text.is_empty() {
        None
    } else {
        Some((text, &[]))
    }
}

/// Returns a line without its newline.
fn without_newline(line: &[u8]) -> &[u8]
    ensures { result.now ≡ before_first (λ byte. byte == 10) line.now }
{
    &line[..first_place(line, b'\n')]
}

/// Returns the horizon in a line `%nullsim N`.
fn horizon_in(line: &[u8]) -> Option<u64>
    ensures { result ≡ option_map (min (2 ^ 64 - 1)) (horizon_in line.now) }
{
    let (mark, rest) = split_word(without_newline(line))?;
    let (number, rest) = split_word(rest)?;
    if mark == b"%nullsim".as_slice() && !has_words(rest) {
        texts::number(number)
    } else {
        None
    }
}

/// The section that a line of one word begins.
#[derive(Clone, Copy)]
enum Marker {
    Bench,
    Delays,
    Stimuli,
    Schedule,
}

/// Returns the marker of a line, if it is one.
fn marker_in(line: &[u8]) -> Option<Marker>
    ensures { MatchOption result (is_marker line.now ≡ false)
        (λ marker. line_words line.now ≡ word_of marker ∷ []) }
{
    let (word, rest) = split_word(without_newline(line))?;
    if has_words(rest) {
        None
    } else {
        marker_named(word)
    }
}

/// Returns the marker with this word, if any.
fn marker_named(word: &[u8]) -> Option<Marker>
    ensures { MatchOption result (is_marker_word word.now ≡ false) (λ marker. word.now ≡ word_of marker) }
{
    if word == b"%bench".as_slice() {
        Some(Marker::Bench)
    } else if word == b"%delays".as_slice() {
        Some(Marker::Delays)
    } else if word == b"%stimuli".as_slice() {
        Some(Marker::Stimuli)
    } else if word == b"%schedule".as_slice() {
        Some(Marker::Schedule)
    } else {
        None
    }
}
