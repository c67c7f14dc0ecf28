//! Lines that are like a marker of a deck.
ghost use Rattle.std.specs.Prelude.{◌≡◌, ◌++◌, option_map, IfOk, OnOk};
ghost use Rattle.mistakes.specs.SeenCorrections.{seen_refused, seen_words};
ghost use Rattle.mistakes.specs.BenchLines.{is_among};
ghost use Rattle.mistakes.specs.Near.{near_among};
ghost use Rattle.mistakes.specs.TimingLines.{begins_with_percent, deck_marker_told, is_like_marker, marker_hint, marker_rule, marker_told, markers, meant_marker, meant_told, no_marker};

use crate::corrections::accepted::{Refused, word_of};
use crate::near::near_among;
use crate::subject::Subject;
use std::alloc::{AllocError, Global};

static MARKERS: [&[u8]; 4] = [b"%bench", b"%delays", b"%stimuli", b"%schedule"];

fn markers() -> &'static [&'static [u8]]
    ensures { seen_words result.now ≡ markers }
{
    &MARKERS
}

/// Adds the marker that a line may mean, or else what a marker is, if the line is like one.
#[tactic(auto, unfolding(crate::specs::TimingLines::marker_told))]
pub(crate) fn push_marker_told(
    alloc: Global,
    told: &mut Vec<u8>,
    refused: Refused<'_>,
) -> Result<(), AllocError>
    ensures { OnOk result (told.new.items ≡ told.old.items ++ marker_told (seen_refused refused.entry)) }
{
    if !is_like_marker(refused) {
        return Ok(());
    }
    let word = word_of(refused.words, 0);
    push_marker_hint(told, word, meant_marker(alloc, word)?)
}

/// Adds the same for a line of a deck before its first section, unless it is a marker.
#[tactic(auto, unfolding(crate::specs::TimingLines::deck_marker_told))]
pub(crate) fn push_deck_marker_told(
    alloc: Global,
    told: &mut Vec<u8>,
    refused: Refused<'_>,
) -> Result<(), AllocError>
    ensures { OnOk result (told.new.items ≡ told.old.items ++ deck_marker_told (seen_refused refused.entry)) }
{
    if refused.line == 1 || is_marker(word_of(refused.words, 0)) {
        return Ok(());
    }
    push_marker_told(alloc, told, refused)
}

fn is_marker(word: &[u8]) -> bool
    ensures { result ≡ is_among markers word.now }
{
    word == b"%bench".as_slice()
        || word == b"%delays".as_slice()
        || word == b"%stimuli".as_slice()
        || word == b"%schedule".as_slice()
}

/// Returns whether a line begins with `%`, and not with a net. A .bench line also has no second word then, since any
/// net of its own may have such a name.
fn is_like_marker(refused: Refused<'_>) -> bool
    ensures { result ≡ is_like_marker (seen_refused refused.entry) }
{
    match (refused.subject, refused.words) {
        (Subject::Bench, [word]) => begins_with_percent(word),
        (Subject::Bench, _) => false,
        (_, words) => begins_with_percent(word_of(words, 0)) && !refused.has_net(word_of(words, 0)),
    }
}

fn begins_with_percent(word: &[u8]) -> bool
    ensures { result ≡ begins_with_percent word.now }
{
    word.first() == Some(&b'%')
}

/// Returns the marker that a word may mean: by its subject, or the only one near to it.
fn meant_marker(alloc: Global, word: &[u8]) -> Result<Option<&'static [u8]>, AllocError>
    ensures { IfOk result (λ marker. option_map (λ marker. marker.now) marker ≡ meant_marker word.now) }
{
    if word == b"%stimulus".as_slice() {
        Ok(Some(b"%stimuli"))
    } else if word == b"%timing".as_slice() {
        Ok(Some(b"%delays"))
    } else {
        near_marker(alloc, word)
    }
}

fn near_marker(alloc: Global, word: &[u8]) -> Result<Option<&'static [u8]>, AllocError>
    ensures { IfOk result (λ marker. option_map (λ marker. marker.now) marker ≡ near_among word.now markers) }
{
    Ok(near_among(word, Vec::from_slice(alloc, markers())?))
}

fn push_marker_hint(
    told: &mut Vec<u8>,
    word: &[u8],
    marker: Option<&[u8]>,
) -> Result<(), AllocError>
    ensures { OnOk result (told.new.items
        ≡ told.old.items ++ marker_hint word.now (option_map (λ marker. marker.now) marker.entry)) }
{
    match marker {
        Some(marker) => push_meant(told, word, marker),
        None => told.extend_from_slice(marker_rule()),
    }
}

fn push_meant(told: &mut Vec<u8>, word: &[u8], marker: &[u8]) -> Result<(), AllocError>
    ensures { OnOk result (told.new.items ≡ told.old.items ++ meant_told word.now marker.now) }
{
    push_no_marker(told, word)?;
    told.extend_from_slice(marker)?;
    told.extend_from_slice(b"?\n")
}

#[tactic(auto, unfolding(crate::specs::TimingLines::no_marker))]
fn push_no_marker(told: &mut Vec<u8>, word: &[u8]) -> Result<(), AllocError>
    ensures { OnOk result (told.new.items ≡ told.old.items ++ no_marker word.now) }
{
    told.extend_from_slice(b"'")?;
    told.extend_from_slice(word)?;
    told.extend_from_slice(b"' is no marker of a deck; did you mean ")
}

#[tactic(auto, unfolding(crate::specs::TimingLines::marker_rule))]
fn marker_rule() -> &'static [u8]
    ensures { result.now ≡ marker_rule }
{
    b"a marker of a deck is %bench, %delays, %stimuli or %schedule, alone in its line\n"
}
