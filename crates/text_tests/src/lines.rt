//! Lines, words and numbers of texts.
use std::alloc::{AllocError, Global};
use texts::{code_lines, is_plain, number, words_of};

/// The most bytes that a text may have. The proofs of the tests don't look at the number.
fn most_bytes() -> usize {
    16_777_216
}

/// A text of the most bytes that begins like this and continues with the letter `x`.
pub(crate) fn longest(alloc: Global, start: &[u8]) -> Result<Vec<u8>, AllocError> {
    let mut text = Vec::from_slice(alloc, start)?;
    for _ in start.len()..most_bytes() {
        text.push(b'x')?;
    }
    Ok(text)
}

#[test]
fn numbers(rt: HostRuntime) {
    for (word, value) in [
        (b"00042".as_slice(), Some(42)),
        ([b'9'; 100].as_slice(), Some(u64::MAX)),
        (b"12a", None),
        (b"", None),
    ] {
        assert!(rt; number(word) == value);
    }
}

#[test]
fn lines_that_say_something(rt: HostRuntime) {
    let text = b"# all\r\nINPUT(a)\r\n\r\n \t\nb = NOT(a) # why\n#\nOUTPUT(b)";
    let mut lines = code_lines(text);
    for line in [
        Some((2, b"INPUT(a)\r".as_slice())),
        Some((5, b"b = NOT(a) ".as_slice())),
        Some((7, b"OUTPUT(b)".as_slice())),
        None,
        None,
    ] {
        assert!(rt; lines.next() == line);
    }
}

#[test]
fn words_between_white_space(rt: HostRuntime) {
    let mut words = words_of(b"\tb =  NOT(a) \r");
    for word in [
        Some(b"b".as_slice()),
        Some(b"=".as_slice()),
        Some(b"NOT(a)".as_slice()),
        None,
        None,
    ] {
        assert!(rt; words.next() == word);
    }
}

#[test]
fn plain_bytes(rt: HostRuntime) {
    for (bytes, plain) in [
        (b"b = NOT(a)~\t\r".as_slice(), true),
        (b"b\n".as_slice(), false),
        (b"\x7f".as_slice(), false),
    ] {
        assert!(rt; is_plain(bytes) == plain);
    }
}
