//! How far a line has a form, and what the forms take where the last of them ends.
ghost use Rattle.std.specs.Prelude.{◌≡◌, ◌==◌, ◌<◌, ◌^◌, if◌then◌else◌, length, option_map, slice_get, OnOk};
ghost use Rattle.std.specs.List.{list_any};
ghost use Rattle.mistakes.specs.Places.{heads, is_same_slot, left, place_of, taken, with_rows, with_slot, with_slots};
ghost use Rattle.mistakes.specs.SeenForms.{seen_row, seen_rows, seen_slot, seen_token, tokens_in, words_in};
ghost use Rattle.mistakes.specs.Tokens.{bytes_of};

use crate::places::slot::{Slot, next};
use crate::places::tokens::{Token, Tokens, tokens_of};
use crate::subject::Subject;
use std::alloc::AllocError;

/// A line without its comment, of a text on a subject.
#[derive(Clone, Copy)]
pub(crate) struct Line<'a> {
    pub(crate) subject: Subject,
    pub(crate) code: &'a [u8],
}

/// How far a form goes in a line.
#[derive(Clone, Copy)]
struct Reach {
    /// The number of tokens at the front of the line that the form takes.
    taken: usize,
    /// What is left of its row after them.
    left: &'static [Slot],
}

impl<'a> Line<'a> {
    /// Returns the tokens of the line.
    pub(crate) fn tokens(self) -> Tokens<'a>
        ensures tokens { result ≡ tokens_in self.entry }
        ensures few { length result < 2 ^ 63 }
    {
        tokens_of(self.subject, self.code)
    }

    /// Returns the token at a place of the line, from 0.
    pub(crate) fn token(self, place: usize) -> Option<Token<'a>>
        ensures { option_map seen_token result ≡ slice_get (tokens_in self.entry) place }
    {
        self.tokens().nth(place)
    }

    /// Returns the place of the line: the largest number of tokens at its front that a form takes. Reads
    /// the line once for each form.
    pub(crate) fn place(self, forms: &'static [&'static [Slot]]) -> usize
        ensures { result ≡ place_of (seen_rows forms.now) (words_in self.entry) }
    {
        match forms.split_first() {
            Some((row, rest)) => reach_of(row, self.tokens()).taken.max(self.place(rest)),
            None => 0,
        }
    }

    /// Adds what the forms take at a place of the line, unless it is there already.
    pub(crate) fn push_expected(
        self,
        place: usize,
        slots: &mut Vec<Slot>,
        forms: &'static [&'static [Slot]],
    ) -> Result<(), AllocError>
        ensures { OnOk result (seen_row slots.new.items
            ≡ with_rows place (words_in self.entry) (seen_row slots.old.items) (seen_rows forms.now)) }
    {
        match forms.split_first() {
            Some((row, rest)) => {
                push_heads(place, slots, reach_of(row, self.tokens()))?;
                self.push_expected(place, slots, rest)
            }
            None => Ok(()),
        }
    }
}

/// Returns how far a form goes in a line with these tokens.
fn reach_of(row: &'static [Slot], tokens: Tokens<'_>) -> Reach
    requires { length tokens < 2 ^ 63 }
    ensures taken { result.taken ≡ taken (seen_row row.now) (bytes_of tokens.entry) }
    ensures left { seen_row result.left.now ≡ left (seen_row row.now) (bytes_of tokens.entry) }
{
    let mut taken = 0;
    let mut left = row;
    for token in tokens {
        match next(left, token.bytes) {
            Some(after) => {
                taken += 1;
                left = after;
            }
            None => return Reach { taken, left },
        }
    }
    Reach { taken, left }
}

/// Adds what a form takes at a place, if it goes that far.
fn push_heads(place: usize, slots: &mut Vec<Slot>, reach: Reach) -> Result<(), AllocError>
    ensures { OnOk result (seen_row slots.new.items
        ≡ (if reach.taken == place then with_slots (seen_row slots.old.items) (heads (seen_row reach.left.now)) else seen_row slots.old.items)) }
{
    if reach.taken == place {
        push_heads_of(slots, reach.left)
    } else {
        Ok(())
    }
}

/// Adds what a row takes first.
fn push_heads_of(slots: &mut Vec<Slot>, left: &[Slot]) -> Result<(), AllocError>
    ensures { OnOk result (seen_row slots.new.items ≡ with_slots (seen_row slots.old.items) (heads (seen_row left.now))) }
{
    match left.first() {
        Some(Slot::More) => {
            push_slot(slots, Slot::Fixed(b","))?;
            push_slot(slots, Slot::Fixed(b")"))
        }
        Some(slot) => push_slot(slots, *slot),
        None => Ok(()),
    }
}

/// Adds a slot, unless one with its text is there.
fn push_slot(slots: &mut Vec<Slot>, slot: Slot) -> Result<(), AllocError>
    ensures { OnOk result (seen_row slots.new.items ≡ with_slot (seen_row slots.old.items) (seen_slot slot)) }
{
    if !has_slot(slots, slot) {
        slots.push(slot)?;
    }
    Ok(())
}

fn has_slot(slots: &[Slot], slot: Slot) -> bool
    ensures { result ≡ list_any (is_same_slot (seen_slot slot)) (seen_row slots.now) }
{
    slots.iter().any(|other| slot.is_same(*other))
}
