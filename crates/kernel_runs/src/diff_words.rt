//! The words that mean the nets by which two runs are compared.
ghost use Rattle.std.specs.Prelude.{◌≡◌, ◌<◌, ◌++◌, flat_map, is_some, length, All, IfOk, OnOk};
ghost use Rattle.std.specs.List.{list_all};
ghost use Rattle.netlist.specs.Names.{seen_names};
ghost use Rattle.net_words.specs.Listed.{nets_listed};
ghost use Rattle.kernel_runs.specs.Diffs.{are_accepted, is_meant, names_of_word, nets_or_none};

use crate::diff_names::{is_known, mean_all, push_joined};
use net_words::nets_listed;
use netlist::Netlist;
use std::alloc::{AllocError, Global};

/// Returns whether each of these words means nets of one netlist or the other, or they mean all nets.
pub(crate) fn are_accepted(
    alloc: Global,
    first: &Netlist,
    second: &Netlist,
    words: &[&[u8]],
) -> Result<bool, AllocError>
    ensures { IfOk result (λ accepted. accepted ≡ are_accepted first.now second.now (seen_names words.now)) }
{
    if mean_all(first, second, words) {
        return Ok(true);
    }
    are_meant(alloc, first, second, words)
}

/// Returns whether each of these words means nets of one netlist or the other.
fn are_meant(
    alloc: Global,
    first: &Netlist,
    second: &Netlist,
    words: &[&[u8]],
) -> Result<bool, AllocError>
    ensures { IfOk result (λ meant. meant ≡ list_all (is_meant first.now second.now) (seen_names words.now)) }
{
    for word in words {
        let meant = is_meant(alloc, first, second, word)?;
        if !meant {
            return Ok(false);
        }
    }
    Ok(true)
}

fn is_meant(
    alloc: Global,
    first: &Netlist,
    second: &Netlist,
    word: &[u8],
) -> Result<bool, AllocError>
    ensures { IfOk result (λ meant. meant ≡ is_meant first.now second.now word.now) }
{
    let nets = nets_listed(alloc, first, word)?;
    let others = nets_listed(alloc, second, word)?;
    Ok(nets.is_some() || others.is_some())
}

/// Returns the names by which two netlists are compared for these words, one word after the other.
pub(crate) fn names_of_words<'n>(
    alloc: Global,
    first: &'n Netlist,
    second: &'n Netlist,
    words: &[&'n [u8]],
) -> Result<Vec<&'n [u8]>, AllocError>
    ensures { IfOk result (λ names.
        seen_names names.items ≡ flat_map (names_of_word first.now second.now) (seen_names words.now)) }
{
    let mut names = Vec::new(alloc);
    for word in words {
        push_names_of_word(alloc, first, second, word, &mut names)?;
    }
    Ok(names)
}

/// Adds the names by which two netlists are compared for a word.
fn push_names_of_word<'n>(
    alloc: Global,
    first: &'n Netlist,
    second: &'n Netlist,
    word: &'n [u8],
    names: &mut Vec<&'n [u8]>,
) -> Result<(), AllocError>
    ensures { OnOk result (seen_names names.new.items ≡ seen_names names.old.items
        ++ names_of_word first.now second.now word.now) }
{
    if is_known(first, second, word) {
        names.push(word)?;
        return Ok(());
    }
    let nets = nets_or_none(alloc, first, word)?;
    let others = nets_or_none(alloc, second, word)?;
    push_joined(
        alloc,
        first,
        nets.as_slice(),
        second,
        others.as_slice(),
        names,
    )
}

/// Returns the nets that a word means, or none.
fn nets_or_none(alloc: Global, netlist: &Netlist, word: &[u8]) -> Result<Vec<u32>, AllocError>
    ensures nets { IfOk result (λ nets. nets.items ≡ nets_or_none netlist.now word.now) }
    ensures exist { IfOk result (λ nets. All (λ net. net < length netlist.now.nets) nets.items) }
{
    match nets_listed(alloc, netlist, word)? {
        Some(nets) => Ok(nets),
        None => Ok(Vec::new(alloc)),
    }
}
