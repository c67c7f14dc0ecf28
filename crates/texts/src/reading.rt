//! The elements of every text format: lines, the part before a comment, words and numbers.
mod lines;
mod numbers;
mod words;

pub use lines::{CodeLines, code_lines, code_of, first_place};
pub use numbers::number;
pub use words::{Words, has_words, is_plain, is_white, split_word, white_len, words_of};
