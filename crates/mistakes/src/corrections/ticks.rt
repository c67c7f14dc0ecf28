//! Lines with ticks that have a unit, a point or a sign.
ghost use Rattle.std.specs.Prelude.{◌≡◌, ◌≤◌, ◌++◌, length, map, OnOk};
ghost use Rattle.std.specs.Char.{is_ascii_digit};
ghost use Rattle.std.specs.List.{prefix_len};
ghost use Rattle.mistakes.specs.BenchLines.{is_among};
ghost use Rattle.mistakes.specs.SeenCorrections.{seen_refused, seen_words};
ghost use Rattle.mistakes.specs.TimingLines.{after_point, digits_after, is_signed, point_told, scale_rule, scale_told, sign_rule, sign_told, ticks_word, unit_told, units, without_unit, zeros_line};

use crate::corrections::accepted::{Refused, word_of};
use crate::corrections::right::push_right_told;
use crate::subject::Subject;
use std::alloc::{AllocError, Global};
use texts::number;

/// Adds the line without its units, if the reader takes it.
#[tactic(auto, unfolding(crate::specs::TimingLines::unit_told))]
pub(crate) fn push_unit_told(
    alloc: Global,
    told: &mut Vec<u8>,
    refused: Refused<'_>,
) -> Result<(), AllocError>
    ensures { OnOk result (told.new.items ≡ told.old.items ++ unit_told (seen_refused refused.entry)) }
{
    let mut words = Vec::new(alloc);
    push_plain_ticks(&mut words, refused.words)?;
    push_right_told(
        told,
        refused,
        b"ticks have no unit: write ",
        words.as_slice(),
    )
}

/// Adds the words of a line, each number with a unit as the number.
fn push_plain_ticks<'a>(plain: &mut Vec<&'a [u8]>, words: &[&'a [u8]]) -> Result<(), AllocError>
    ensures { OnOk result (seen_words plain.new.items ≡ seen_words plain.old.items ++ map without_unit (seen_words words.now)) }
{
    match words.split_first() {
        Some((word, rest)) => {
            plain.push(without_unit(word))?;
            push_plain_ticks(plain, rest)
        }
        None => Ok(()),
    }
}

/// Returns the digits of a number with a unit, or else the word.
fn without_unit(word: &[u8]) -> &[u8]
    ensures { result.now ≡ without_unit word.now }
{
    let (digits, unit) = word.split_at(digits_len(word));
    if !digits.is_empty() && is_unit(unit) {
        digits
    } else {
        word
    }
}

fn digits_len(word: &[u8]) -> usize
    ensures value { result ≡ prefix_len is_ascii_digit word.now }
    ensures within { result ≤ length word.now }
{
    word.iter().take_while(|byte| byte.is_ascii_digit()).count()
}

fn is_unit(word: &[u8]) -> bool
    ensures { result ≡ is_among units word.now }
{
    word == b"fs".as_slice()
        || word == b"ps".as_slice()
        || word == b"ns".as_slice()
        || word == b"us".as_slice()
        || word == b"ms".as_slice()
        || word == b"s".as_slice()
}

/// Adds by which number to multiply all ticks, if those of the line have a point.
pub(crate) fn push_point_told(told: &mut Vec<u8>, refused: Refused<'_>) -> Result<(), AllocError>
    ensures { OnOk result (told.new.items ≡ told.old.items ++ point_told (seen_refused refused.entry)) }
{
    push_scale_told(
        told,
        after_point(ticks_word(refused.subject, refused.words)),
    )
}

/// Adds what is said of ticks with a sign, if those of the line have one.
#[tactic(auto, unfolding(crate::specs::TimingLines::sign_told))]
pub(crate) fn push_sign_told(told: &mut Vec<u8>, refused: Refused<'_>) -> Result<(), AllocError>
    ensures { OnOk result (told.new.items ≡ told.old.items ++ sign_told (seen_refused refused.entry)) }
{
    if is_signed(ticks_word(refused.subject, refused.words)) {
        told.extend_from_slice(sign_rule(refused.subject))
    } else {
        Ok(())
    }
}

/// Returns whether a word is a sign and digits.
fn is_signed(word: &[u8]) -> bool
    ensures { result ≡ is_signed word.now }
{
    match word.split_first() {
        Some((mark, digits)) => (*mark == b'-' || *mark == b'+') && number(digits).is_some(),
        None => false,
    }
}

fn sign_rule(subject: Subject) -> &'static [u8]
    ensures { result.now ≡ sign_rule subject }
{
    match subject {
        Subject::Stimuli => b"ticks begin at 0 and have no sign\n",
        _ => b"ticks have no sign\n",
    }
}

/// Returns the word of a line that is a number of ticks.
fn ticks_word<'a>(subject: Subject, words: &[&'a [u8]]) -> &'a [u8]
    ensures { result.now ≡ ticks_word subject (seen_words words.now) }
{
    match subject {
        Subject::Stimuli => word_of(words, 0),
        Subject::Delays => word_of(words, words.len().saturating_sub(1)),
        _ => b"",
    }
}

/// Returns the digits after a point that follows digits, or nothing.
fn after_point(word: &[u8]) -> &[u8]
    ensures { result.now ≡ after_point word.now }
{
    let (whole, rest) = word.split_at(digits_len(word));
    if whole.is_empty() {
        b""
    } else {
        digits_after(rest)
    }
}

/// Returns the digits after a point, or nothing.
fn digits_after(bytes: &[u8]) -> &[u8]
    ensures { result.now ≡ digits_after bytes.now }
{
    match bytes.split_first() {
        Some((mark, digits)) => if *mark == b'.' && number(digits).is_some() {
            digits
        } else {
            b""
        },
        None => b"",
    }
}

#[tactic(auto, unfolding(crate::specs::TimingLines::scale_told))]
fn push_scale_told(told: &mut Vec<u8>, digits: &[u8]) -> Result<(), AllocError>
    ensures { OnOk result (told.new.items ≡ told.old.items ++ scale_told digits.now) }
{
    if digits.is_empty() {
        return Ok(());
    }
    told.extend_from_slice(scale_rule())?;
    push_zeros_line(told, digits)
}

#[tactic(auto, unfolding(crate::specs::TimingLines::scale_rule))]
fn scale_rule() -> &'static [u8]
    ensures { result.now ≡ scale_rule }
{
    b"a tick is a whole number: multiply all ticks and delays by 1"
}

fn push_zeros_line(told: &mut Vec<u8>, digits: &[u8]) -> Result<(), AllocError>
    ensures { OnOk result (told.new.items ≡ told.old.items ++ zeros_line digits.now) }
{
    push_zeros(told, digits)?;
    told.extend_from_slice(b"\n")
}

/// Adds a zero for each digit.
fn push_zeros(told: &mut Vec<u8>, digits: &[u8]) -> Result<(), AllocError>
    ensures { OnOk result (told.new.items ≡ told.old.items ++ map (λ digit. 48) digits.now) }
{
    match digits.split_first() {
        Some((_, rest)) => {
            told.push(b'0')?;
            push_zeros(told, rest)
        }
        None => Ok(()),
    }
}
