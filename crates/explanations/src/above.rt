//! The earlier line with the same topic as a line.
ghost use Rattle.std.specs.Prelude.{◌≡◌, option_map};
ghost use Rattle.explanations.specs.AtFault.{is_above, line_above, number_or_none};
ghost use Rattle.explanations.specs.Seen.{seen_topic};

use crate::topic::{Topic, is_same, topic_of};
use mistakes::Subject;
use texts::code_lines;

/// Returns the number of the last line before the one with this number that has the same topic, or 0
/// if there is none. Reads the text once.
pub(crate) fn line_above(subject: Subject, number: u64, topic: Topic<'_>, text: &[u8]) -> u64
    ensures { result ≡ line_above subject number (seen_topic topic.entry) text.now }
{
    number_or_none(
        code_lines(text)
            .filter(|line| is_above(subject, number, &topic, line.0, line.1))
            .last(),
    )
}

/// Returns the number of a line, or 0 for `None`.
pub(crate) fn number_or_none(line: Option<(u64, &[u8])>) -> u64
    ensures { result ≡ number_or_none (option_map (λ line. (line.0, line.1.now)) line.entry) }
{
    match line {
        Some((number, _)) => number,
        None => 0,
    }
}

/// Returns whether a line, without its comment, is before the one with this number and has the same
/// topic.
fn is_above(subject: Subject, number: u64, topic: &Topic<'_>, other: u64, code: &[u8]) -> bool
    ensures { result ≡ is_above subject number (seen_topic topic.now) (other, code.now) }
{
    other < number && is_same(topic, &topic_of(subject, code))
}
