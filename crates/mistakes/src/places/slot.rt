//! What a form has at one place of its line.
ghost use Rattle.std.specs.Prelude.{◌≡◌, option_map};
ghost use Rattle.mistakes.specs.Forms.{after_name, next, takes};
ghost use Rattle.mistakes.specs.Places.{is_end, is_quoted, is_same_slot, text_of};
ghost use Rattle.mistakes.specs.SeenForms.{seen_row, seen_slot};
ghost use Rattle.mistakes.specs.Tokens.{is_mark, is_mark_word};

use texts::number;

/// What a form has at one place of its line.
#[derive(Clone, Copy)]
pub(crate) enum Slot {
    /// This word or mark.
    Fixed(&'static [u8]),
    /// This word, in any case of its letters.
    Keyword(&'static [u8]),
    /// A number; what it is called.
    Number(&'static [u8]),
    /// Any word; what it is called.
    Word(&'static [u8]),
    /// The name of a net in a .bench line.
    Name,
    /// A word for a gate.
    Gate,
    /// What comes after a name in a list: a comma and a name, or the end of the list. It is the last of
    /// its row.
    More,
    End,
}

/// What is left of a row after a comma in a list.
static AFTER_COMMA: [Slot; 2] = [Slot::Name, Slot::More];

/// What is left of a row after the end of a list.
static AFTER_LIST: [Slot; 1] = [Slot::End];

/// Returns what is left of a row after a word or a mark, if the row takes it.
pub(crate) fn next(row: &'static [Slot], token: &[u8]) -> Option<&'static [Slot]>
    ensures { option_map (λ row. seen_row row.now) result ≡ next (seen_row row.now) token.now }
{
    let (slot, rest) = row.split_first()?;
    match slot {
        Slot::More => after_name(token),
        _ => takes(*slot, token).then_some(rest),
    }
}

/// Does the same after a name in a list.
fn after_name(token: &[u8]) -> Option<&'static [Slot]>
    ensures { option_map (λ row. seen_row row.now) result ≡ after_name token.now }
{
    match token {
        b"," => Some(&AFTER_COMMA),
        b")" => Some(&AFTER_LIST),
        _ => None,
    }
}

/// Returns whether a slot takes a word or a mark.
fn takes(slot: Slot, token: &[u8]) -> bool
    ensures { result ≡ takes (seen_slot slot) token.now }
{
    match slot {
        Slot::Fixed(text) => token == text,
        Slot::Keyword(text) => token.eq_ignore_ascii_case(text),
        Slot::Number(_) => number(token).is_some(),
        Slot::Word(_) => true,
        Slot::Name => !begins_with_mark(token) && token.first() != Some(&b'$'),
        Slot::Gate => !begins_with_mark(token),
        Slot::More | Slot::End => false,
    }
}

/// Returns whether a word begins with a mark of a .bench line, or is one.
pub fn begins_with_mark(token: &[u8]) -> bool
    ensures { result ≡ is_mark_word token.now }
{
    match token.first() {
        Some(byte) => is_mark(*byte),
        None => false,
    }
}

/// Returns whether a byte is a mark of a .bench line.
pub(crate) fn is_mark(byte: u8) -> bool
    ensures { result ≡ is_mark byte }
{
    b"(),=".contains(&byte)
}

impl Slot {
    /// Returns the text of the slot, as it is printed.
    pub(crate) fn text(self) -> &'static [u8]
        ensures { result.now ≡ text_of (seen_slot self) }
    {
        match self {
            Slot::Fixed(text) | Slot::Keyword(text) | Slot::Number(text) | Slot::Word(text) => text,
            Slot::Name => b"a name",
            Slot::Gate => b"a gate word",
            Slot::More => b"",
            Slot::End => b"the end of the line",
        }
    }

    /// Returns whether that text is printed in quotes.
    pub(crate) fn is_quoted(self) -> bool
        ensures { result ≡ is_quoted (seen_slot self) }
    {
        match self {
            Slot::Fixed(_) | Slot::Keyword(_) => true,
            _ => false,
        }
    }

    /// Returns whether both slots are printed alike.
    pub(crate) fn is_same(self, other: Slot) -> bool
        ensures { result ≡ is_same_slot (seen_slot self) (seen_slot other) }
    {
        self.text() == other.text()
    }

    /// Returns whether the slot is the end of the line.
    pub(crate) fn is_end(self) -> bool
        ensures { result ≡ is_end (seen_slot self) }
    {
        match self {
            Slot::End => true,
            _ => false,
        }
    }
}
