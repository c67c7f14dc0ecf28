//! The nets that a line of a .bench text defines and uses.
ghost use Rattle.std.specs.Prelude.{◌≡◌, if◌then◌else◌, drop, map, option_map, IfOk};
ghost use Rattle.std.specs.List.{find};
ghost use Rattle.mistakes.specs.BenchLines.{begins_with_input, defined_by, is_assignment, is_gap, is_long, long_net, names_in, nth_name, used_by};

use std::alloc::{AllocError, Global};
use texts::is_white;

/// The largest number of bytes in a name.
const LONGEST_NAME: usize = 255;

/// Returns the net that a line without its comment defines.
pub fn defined_by(code: &[u8]) -> Option<&[u8]>
    ensures { option_map (λ net. net.now) result ≡ defined_by code.now }
{
    if is_assignment(code) {
        nth_name(code, 0)
    } else if begins_with_input(code) {
        nth_name(code, 1)
    } else {
        None
    }
}

/// Returns the nets that a line without its comment uses.
pub fn used_by(alloc: Global, code: &[u8]) -> Result<Vec<&[u8]>, AllocError>
    ensures { IfOk result (λ nets. map (λ net. net.now) nets.items ≡ used_by code.now) }
{
    names_behind(alloc, code, before_nets(code))
}

/// Returns the number of names before those that are used.
fn before_nets(code: &[u8]) -> usize
    ensures { result ≡ (if is_assignment code.now then 2 else 1) }
{
    if is_assignment(code) { 2 } else { 1 }
}

/// Returns the names of a line after the first `count`.
fn names_behind(alloc: Global, code: &[u8], count: usize) -> Result<Vec<&[u8]>, AllocError>
    ensures { IfOk result (λ names. map (λ name. name.now) names.items ≡ drop count (names_in code.now)) }
{
    code.split(|byte| is_gap(*byte))
        .filter(|name| !name.is_empty())
        .skip(count)
        .collect(alloc)
}

/// Returns the name at a place of a line, from 0.
pub fn nth_name(code: &[u8], place: usize) -> Option<&[u8]>
    ensures { option_map (λ name. name.now) result ≡ nth_name place code.now }
{
    code.split(|byte| is_gap(*byte))
        .filter(|name| !name.is_empty())
        .nth(place)
}

/// Returns the first net of a line whose name is too long.
pub fn long_net(code: &[u8]) -> Option<&[u8]>
    ensures { option_map (λ net. net.now) result ≡ long_net code.now }
{
    let first = nth_name(code, 0);
    if is_assignment(code) && is_long(first.unwrap_or(b"")) {
        first
    } else {
        long_name_behind(code, before_nets(code))
    }
}

fn is_long(name: &[u8]) -> bool
    ensures { result ≡ is_long name.now }
{
    name.len() > LONGEST_NAME
}

/// Returns the first name that is too long among those of a line after the first `count`.
fn long_name_behind(code: &[u8], count: usize) -> Option<&[u8]>
    ensures { option_map (λ name. name.now) result ≡ find is_long (drop count (names_in code.now)) }
{
    code.split(|byte| is_gap(*byte))
        .filter(|name| !name.is_empty())
        .skip(count)
        .find(|name| is_long(name))
}

/// Returns whether a byte separates names.
fn is_gap(byte: u8) -> bool
    ensures { result ≡ is_gap byte }
{
    is_white(byte) || b"(),=".contains(&byte)
}

/// Returns whether a line without its comment has the form `NAME = GATE(NAME, NAME)`.
pub fn is_assignment(code: &[u8]) -> bool
    ensures { result ≡ is_assignment code.now }
{
    code.contains(&b'=')
}

fn begins_with_input(code: &[u8]) -> bool
    ensures { result ≡ begins_with_input code.now }
{
    match nth_name(code, 0) {
        Some(word) => word.eq_ignore_ascii_case(b"INPUT"),
        None => false,
    }
}
