//! Which names have a pattern, such as `bit*`.
ghost use Rattle.std.specs.Prelude.{◌≡◌, ◌≤◌, ◌<◌, ◌+◌, ℕ, Bool, List, length, IfOk};
ghost use Rattle.texts.specs.Text.{is_empty};
ghost use Rattle.net_words.specs.Pattern.{has_pattern, last_bytes, passing, takes};

use std::alloc::{AllocError, Global};

/// Returns whether a name has a pattern: each `*` takes any number of bytes of the name, and each other byte takes
/// itself. Its time grows with the product of their lengths.
///
/// # Errors
/// An allocation failed.
pub(crate) fn has_pattern(alloc: Global, pattern: &[u8], name: &[u8]) -> Result<bool, AllocError>
    ensures { IfOk result (λ has. has ≡ has_pattern pattern.now name.now) }
{
    let mut ends = none_left(alloc, name)?;
    for step in 0..pattern.len() {
        let byte = pattern[pattern.len() - (step + 1)];
        ends = one_more(alloc, byte, name, ends.as_slice())?;
    }
    Ok(ends.as_slice()[name.len()])
}

/// Returns for each number of last bytes of a name whether the empty pattern takes them.
fn none_left(alloc: Global, name: &[u8]) -> Result<Vec<bool>, AllocError>
    ensures { IfOk result (λ none. none.items ≡ passing is_empty name.now (length name.now + 1)) }
{
    let mut none = Vec::new(alloc);
    for left in 0..name.len() + 1 {
        none.push(left == 0)?;
    }
    Ok(none)
}

/// Returns for each number of last bytes of a name whether a pattern takes them that has this byte before another
/// pattern, for which that is known.
fn one_more(alloc: Global, byte: u8, name: &[u8], ends: &[bool]) -> Result<Vec<bool>, AllocError>
    requires { length ends.now ≡ length name.now + 1 }
    ensures { IfOk result (λ more. (passes : List ℕ → Bool) → ends.now ≡ passing passes name.now (length name.now + 1) →
        more.items ≡ passing (takes byte passes) name.now (length name.now + 1)) }
{
    let mut more = Vec::new(alloc);
    for left in 0..name.len() + 1 {
        let takes = takes(byte, name, ends, more.as_slice(), left);
        more.push(takes)?;
    }
    Ok(more)
}

/// Returns whether this byte and the other pattern take this number of last bytes of a name, if it is known of fewer.
fn takes(byte: u8, name: &[u8], ends: &[bool], more: &[bool], left: usize) -> bool
    requires left { left ≤ length name.now }
    requires ends { length ends.now ≡ length name.now + 1 }
    requires more { length more.now ≡ left }
    ensures { (passes : List ℕ → Bool) → ends.now ≡ passing passes name.now (length name.now + 1) →
        more.now ≡ passing (takes byte passes) name.now left → result ≡ takes byte passes (last_bytes name.now left) }
{
    if byte == b'*' {
        ends[left] || (left > 0 && more[left - 1])
    } else {
        left > 0 && name[name.len() - left] == byte && ends[left - 1]
    }
}
