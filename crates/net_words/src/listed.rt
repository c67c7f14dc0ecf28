//! Which nets the words of a list mean.
ghost use Rattle.std.specs.Prelude.{◌≡◌, ◌<◌, length, option_map, All, IfOk, IfSome};
ghost use Rattle.netlist.specs.Names.{seen_names};
ghost use Rattle.net_words.specs.Listed.{nets_like, nets_listed, nets_of_words, other_nets};

use crate::meant::nets_meant;
use crate::pattern::has_pattern;
use netlist::Netlist;
use std::alloc::{AllocError, Global};

/// Returns the numbers of the nets that the words of a list mean, one word after the other, as [`nets_listed`] returns
/// those of each. It returns none if a word means none.
///
/// # Errors
/// An allocation failed.
#[tactic(auto, unfolding(crate::specs::Listed::nets_of_words))]
pub fn nets_of_words(
    alloc: Global,
    netlist: &Netlist,
    words: &[&[u8]],
) -> Result<Option<Vec<u32>>, AllocError>
    ensures nets { IfOk result (λ nets.
        option_map (λ nets. nets.items) nets ≡ nets_of_words netlist.now (seen_names words.now)) }
    ensures exist { IfOk result (λ nets. IfSome nets (λ nets. All (λ net. net < length netlist.now.nets) nets.items)) }
{
    let mut nets = Vec::new(alloc);
    for word in words {
        let Some(more) = nets_listed(alloc, netlist, word)? else {
            return Ok(None);
        };
        nets.extend_from_slice(more.as_slice())?;
    }
    Ok(Some(nets))
}

/// Returns the numbers of the nets that a word of a list means: those that [`nets_meant`] returns; or else of `outputs`
/// all outputs, in their order, and of any other word the nets whose names have it as a pattern, in the order of their
/// numbers. In a pattern, each `*` takes any number of bytes. It returns none if there is no such net.
///
/// # Errors
/// An allocation failed.
#[tactic(auto, unfolding(crate::specs::Listed::nets_listed))]
pub fn nets_listed(
    alloc: Global,
    netlist: &Netlist,
    word: &[u8],
) -> Result<Option<Vec<u32>>, AllocError>
    ensures nets { IfOk result (λ nets. option_map (λ nets. nets.items) nets ≡ nets_listed netlist.now word.now) }
    ensures exist { IfOk result (λ nets. IfSome nets (λ nets. All (λ net. net < length netlist.now.nets) nets.items)) }
    ensures some { IfOk result (λ nets. IfSome nets (λ nets. 0 < length nets.items)) }
{
    if let Some(nets) = nets_meant(alloc, netlist, word)? {
        return Ok(Some(nets));
    }
    let nets = other_nets(alloc, netlist, word)?;
    if nets.is_empty() {
        Ok(None)
    } else {
        Ok(Some(nets))
    }
}

/// Returns the nets that a word means which is neither a name nor a range.
fn other_nets(alloc: Global, netlist: &Netlist, word: &[u8]) -> Result<Vec<u32>, AllocError>
    ensures nets { IfOk result (λ nets. nets.items ≡ other_nets netlist.now word.now) }
    ensures exist { IfOk result (λ nets. All (λ net. net < length netlist.now.nets) nets.items) }
{
    if word == b"outputs".as_slice() {
        Vec::from_slice(alloc, netlist.outputs())
    } else {
        nets_like(alloc, netlist, word)
    }
}

/// Returns the nets whose names have a pattern.
fn nets_like(alloc: Global, netlist: &Netlist, pattern: &[u8]) -> Result<Vec<u32>, AllocError>
    ensures nets { IfOk result (λ nets. nets.items ≡ nets_like netlist.now pattern.now) }
    ensures exist { IfOk result (λ nets. All (λ net. net < length netlist.now.nets) nets.items) }
{
    let mut nets = Vec::new(alloc);
    for net in 0..netlist.nets() {
        if has_pattern(alloc, pattern, netlist.name(net))? {
            nets.push(net)?;
        }
    }
    Ok(nets)
}
