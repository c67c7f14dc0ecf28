//! The topics of lines.
ghost use Rattle.std.specs.Prelude.{◌≡◌, ◌==◌, ◌≤◌, length, option_map};
ghost use Rattle.std.specs.List.{prefix_len};
ghost use Rattle.explanations.specs.AtFault.{delay_topic, is_same, of_net, pin_of, topic_of, without_zeros, word_at};
ghost use Rattle.explanations.specs.Seen.{seen_topic};
ghost use Rattle.texts.specs.Text.{words_of};

use mistakes::{Subject, defined_by};
use texts::words_of;

/// The topic of a line: its net; in a delay text of version 2 also its first word, and for wires the
/// place of the pin, without leading zeros. An absent part is empty.
#[derive(Clone, Copy)]
pub(crate) struct Topic<'a> {
    pub(crate) net: &'a [u8],
    pub(crate) form: &'a [u8],
    pub(crate) pin: &'a [u8],
}

impl<'a> Topic<'a> {
    fn of_net(net: Option<&'a [u8]>) -> Topic<'a>
        ensures { seen_topic result ≡ of_net (option_map (λ net. net.now) net.entry) }
    {
        Topic {
            net: net.unwrap_or(b""),
            form: b"",
            pin: b"",
        }
    }
}

/// Returns the topic of a line without its comment.
pub(crate) fn topic_of(subject: Subject, code: &[u8]) -> Topic<'_>
    ensures { seen_topic result ≡ topic_of subject code.now }
{
    match subject {
        Subject::Bench => Topic::of_net(defined_by(code)),
        Subject::Delays => delay_topic(code),
        Subject::Stimuli | Subject::Schedule => Topic::of_net(word_at(code, 1)),
        _ => Topic::of_net(None),
    }
}

fn delay_topic(code: &[u8]) -> Topic<'_>
    ensures { seen_topic result ≡ delay_topic (words_of code.now) }
{
    let mut words = words_of(code);
    match (words.next(), words.next(), words.next()) {
        (Some(net), Some(_), None) => Topic::of_net(Some(net)),
        (Some(form), Some(net), Some(third)) => Topic {
            net,
            form,
            pin: pin_of(form, third),
        },
        _ => Topic::of_net(None),
    }
}

/// Returns the place of a pin, if the form is that of a wire.
fn pin_of<'a>(form: &[u8], place: &'a [u8]) -> &'a [u8]
    ensures { result.now ≡ pin_of form.now place.now }
{
    if form == b"wire".as_slice() {
        without_zeros(place)
    } else {
        b""
    }
}

fn without_zeros(digits: &[u8]) -> &[u8]
    ensures { result.now ≡ without_zeros digits.now }
{
    &digits[zeros_before(digits)..]
}

fn zeros_before(digits: &[u8]) -> usize
    ensures value { result ≡ prefix_len (λ digit. digit == 48) digits.now }
    ensures within { result ≤ length digits.now }
{
    digits.iter().take_while(|digit| **digit == b'0').count()
}

/// Returns the word at a place of a line, from 0.
pub(crate) fn word_at(code: &[u8], place: usize) -> Option<&[u8]>
    ensures { option_map (λ word. word.now) result ≡ word_at place code.now }
{
    words_of(code).nth(place)
}

/// Returns whether two lines have the same topic.
pub(crate) fn is_same(one: &Topic<'_>, other: &Topic<'_>) -> bool
    ensures { result ≡ is_same (seen_topic one.now) (seen_topic other.now) }
{
    !one.net.is_empty() && one.net == other.net && one.form == other.form && one.pin == other.pin
}
