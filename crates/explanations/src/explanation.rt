//! Explanations of faults.

/// The explanation of a fault of a text or of another subject.
#[derive(Clone, Copy, Debug)]
pub struct Explanation {
    /// The fault's name, which is at the end of the line that reports it.
    pub name: &'static str,
    /// What the fault means, in a sentence or two, without a line feed at the end.
    pub meaning: &'static str,
    /// What is needed instead, with an example.
    pub wanted: &'static str,
    /// A short text with the fault, if any.
    pub example: Option<Example>,
}

/// A text with a fault, and the corrected text. Both end with a line feed.
#[derive(Clone, Copy, Debug)]
pub struct Example {
    /// The line at which the text is refused, from 1, or 0 for a fault without a line.
    pub line: u64,
    pub faulty: &'static str,
    pub mended: &'static str,
}
