//! Which nets a word means: one net by its name, or the bits of a bus by a range.
ghost use Rattle.std.specs.Prelude.{◌≡◌, ◌≤◌, ◌<◌, ◌++◌, ◌^◌, length, option_map, All, IfOk, IfSome, OnOk};
ghost use Rattle.net_words.specs.Meant.{bit_after, bit_before, bit_name, bit_of, cut_at, ends_of, last_of, nets_meant, nets_of_range, range_at, range_of, seen_range, steps_of};

use netlist::Netlist;
use std::alloc::{AllocError, Global};
use texts::{first_place, number, push_number};

/// Some bits of a bus, `BASE[FIRST:LAST]`.
#[derive(Clone, Copy)]
struct BusRange<'a> {
    base: &'a [u8],
    first: u64,
    last: u64,
}

/// Returns the numbers of the nets that a word means: the net with exactly this name, or else, of a range such as
/// `data[7:0]`, the nets `data[7]` to `data[0]`, from the first number to the last. It means none if no net has the name,
/// and the word isn't a range or some bit of it isn't a net.
///
/// # Errors
/// An allocation failed.
#[tactic(auto, unfolding(crate::specs::Meant::nets_meant))]
pub fn nets_meant(
    alloc: Global,
    netlist: &Netlist,
    word: &[u8],
) -> Result<Option<Vec<u32>>, AllocError>
    ensures nets { IfOk result (λ nets. option_map (λ nets. nets.items) nets ≡ nets_meant netlist.now word.now) }
    ensures exist { IfOk result (λ nets. IfSome nets (λ nets. All (λ net. net < length netlist.now.nets) nets.items)) }
{
    if let Some(net) = netlist.find(word) {
        return Ok(Some(Vec::from_slice(alloc, &[net])?));
    }
    match range_of(word) {
        Some(range) => nets_of_range(alloc, netlist, range),
        None => Ok(None),
    }
}

/// Returns the nets of the bits of a range, if there is a net for each.
fn nets_of_range(
    alloc: Global,
    netlist: &Netlist,
    range: BusRange<'_>,
) -> Result<Option<Vec<u32>>, AllocError>
    requires first { range.first < 2 ^ 32 }
    requires last { range.last < 2 ^ 32 }
    ensures { IfOk result (λ nets. option_map (λ nets. nets.items) nets ≡ nets_of_range netlist.now (seen_range range.entry)) }
{
    let mut nets = Vec::new(alloc);
    let mut name = Vec::new(alloc);
    for step in 0..range.first.abs_diff(range.last) + 1 {
        name.clear();
        push_bit_name(&mut name, range, step)?;
        let Some(net) = netlist.find(name.as_slice()) else {
            return Ok(None);
        };
        nets.push(net)?;
    }
    Ok(Some(nets))
}

/// Adds the name of the bit that is this number of steps after the first one.
fn push_bit_name(text: &mut Vec<u8>, range: BusRange<'_>, step: u64) -> Result<(), AllocError>
    requires first { range.first < 2 ^ 32 }
    requires step { step ≤ steps_of (seen_range range) }
    ensures { OnOk result (text.new.items ≡ text.old.items ++ bit_name (seen_range range.entry) step) }
{
    text.extend_from_slice(range.base)?;
    text.push(b'[')?;
    push_number(text, bit_after(range, step))?;
    text.push(b']')?;
    Ok(())
}

fn bit_after(range: BusRange<'_>, step: u64) -> u64
    requires first { range.first < 2 ^ 32 }
    requires step { step ≤ steps_of (seen_range range) }
    ensures { result ≡ bit_after (seen_range range.entry) step }
{
    if range.last < range.first {
        range.first - step
    } else {
        range.first + step
    }
}

/// Returns the range that a word is.
fn range_of(word: &[u8]) -> Option<BusRange<'_>>
    ensures exact { option_map seen_range result ≡ range_of word.now }
    ensures first { IfSome result (λ range. range.first < 2 ^ 32) }
    ensures last { IfSome result (λ range. range.last < 2 ^ 32) }
{
    for place in 0..word.len() {
        if let Some(range) = range_at(word, place) {
            return Some(range);
        }
    }
    None
}

/// Returns the range whose bracket is at this place of a word.
fn range_at(word: &[u8], place: usize) -> Option<BusRange<'_>>
    requires { place < length word.now }
    ensures exact { option_map seen_range result ≡ range_at word.now place }
    ensures first { IfSome result (λ range. range.first < 2 ^ 32) }
    ensures last { IfSome result (λ range. range.last < 2 ^ 32) }
{
    if word[place] != b'[' {
        return None;
    }
    let (first, last) = ends_of(&word[place + 1..])?;
    Some(BusRange {
        base: &word[..place],
        first,
        last,
    })
}

/// Returns the numbers of `FIRST:LAST]`.
fn ends_of(text: &[u8]) -> Option<(u64, u64)>
    ensures exact { result ≡ ends_of text.now }
    ensures first { IfSome result (λ ends. ends.0 < 2 ^ 32) }
    ensures last { IfSome result (λ ends. ends.1 < 2 ^ 32) }
{
    let (first, rest) = bit_before(b':', text)?;
    let last = last_of(rest)?;
    Some((first, last))
}

/// Returns the last number of `LAST]`.
fn last_of(text: &[u8]) -> Option<u64>
    ensures exact { result ≡ last_of text.now }
    ensures small { IfSome result (λ last. last < 2 ^ 32) }
{
    let (last, rest) = bit_before(b']', text)?;
    if rest.is_empty() { Some(last) } else { None }
}

/// Returns the number before the first such byte of a text, and what is after that.
fn bit_before(byte: u8, text: &[u8]) -> Option<(u64, &[u8])>
    ensures exact { option_map (λ parts. (parts.0, parts.1.now)) result ≡ bit_before byte text.now }
    ensures small { IfSome result (λ parts. parts.0 < 2 ^ 32) }
{
    let (word, rest) = cut_at(byte, text)?;
    let bit = bit_of(word)?;
    Some((bit, rest))
}

/// Returns the number of a bit, which has 32 bits at most.
fn bit_of(word: &[u8]) -> Option<u64>
    ensures exact { result ≡ bit_of word.now }
    ensures small { IfSome result (λ bit. bit < 2 ^ 32) }
{
    let bit = number(word)?;
    if bit < 1 << 32 { Some(bit) } else { None }
}

/// Returns what is before the first such byte of a text and what is after it, if there is one.
fn cut_at(byte: u8, text: &[u8]) -> Option<(&[u8], &[u8])>
    ensures { option_map (λ parts. (parts.0.now, parts.1.now)) result ≡ cut_at byte text.now }
{
    let place = first_place(text, byte);
    if place < text.len() {
        Some((&text[..place], &text[place + 1..]))
    } else {
        None
    }
}
