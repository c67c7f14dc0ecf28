//! Reading and writing of texts: what is read are lines, the part before a comment, words and numbers;
//! what is written are numbers, and texts in pieces.
#![tactic(auto)]

mod reading;
mod writing;

pub use reading::{
    CodeLines, Words, code_lines, code_of, first_place, has_words, is_plain, is_white, number,
    split_word, white_len, words_of,
};
pub use writing::{
    WriteFault, push_number, push_numbered, send, send_long, write_all_bytes, write_numbered,
};

/// The largest number of bytes in a text.
pub const LONGEST_TEXT: usize = 16_777_216;
