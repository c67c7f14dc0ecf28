//! Names that are near to each other: they differ by the case of letters alone, or by one edit.
ghost use Rattle.std.specs.Prelude.{◌≡◌, ◌↔◌, IsTrue, bytes_eq, filter, map, option_map};
ghost use Rattle.std.specs.List.{list_all, list_any};
ghost use Rattle.mistakes.specs.Near.{IsOneEdit, differ_by_case, differ_by_edit, edits_first, inserts_first, is_near, is_one_edit, near_among, only_one, replaces_first, swaps_first};

/// The least number of bytes in each of two names that may differ by an edit.
const SHORTEST_EDITED: usize = 3;

/// Returns the name that is near to another among some names, if it is the only one. If any differ by the case
/// of letters alone, only these count.
pub fn near_among<'a>(name: &[u8], names: Vec<&'a [u8]>) -> Option<&'a [u8]>
    ensures { option_map (λ near. near.now) result ≡ near_among name.now (map (λ one. one.now) names.entry.items) }
{
    let mut near = names;
    keep_near(&mut near, name);
    if has_by_case(near.as_slice(), name) {
        keep_by_case(&mut near, name);
    }
    only_one(near.as_slice())
}

/// Removes the names that aren't near to a name.
fn keep_near(names: &mut Vec<&[u8]>, name: &[u8])
    ensures { map (λ one. one.now) names.new.items ≡ filter (is_near name.now) (map (λ one. one.now) names.old.items) }
{
    names.retain(|other| is_near(name, other));
}

/// Removes the names that don't differ from a name by the case of letters alone.
fn keep_by_case(names: &mut Vec<&[u8]>, name: &[u8])
    ensures { map (λ one. one.now) names.new.items ≡ filter (differ_by_case name.now) (map (λ one. one.now) names.old.items) }
{
    names.retain(|other| differ_by_case(name, other));
}

/// Returns whether any of the names differs from a name by the case of letters alone.
pub fn has_by_case(names: &[&[u8]], name: &[u8]) -> bool
    ensures { result ≡ list_any (differ_by_case name.now) (map (λ one. one.now) names.now) }
{
    names.iter().any(|other| differ_by_case(name, other))
}

/// Returns the only one of some names, which may be there more than once.
pub fn only_one<'a>(names: &[&'a [u8]]) -> Option<&'a [u8]>
    ensures { option_map (λ one. one.now) result ≡ only_one (map (λ one. one.now) names.now) }
{
    let (first, others) = names.split_first()?;
    if are_all(others, first) {
        Some(*first)
    } else {
        None
    }
}

/// Returns whether all of the names are this one.
fn are_all(names: &[&[u8]], name: &[u8]) -> bool
    ensures { result ≡ list_all (bytes_eq name.now) (map (λ one. one.now) names.now) }
{
    names.iter().all(|other| name == *other)
}

/// Returns whether two names differ by the case of letters alone, or by one edit.
fn is_near(name: &[u8], other: &[u8]) -> bool
    ensures { result ≡ is_near name.now other.now }
{
    differ_by_case(name, other) || differ_by_edit(name, other)
}

/// Returns whether two names differ by the case of letters alone.
fn differ_by_case(one: &[u8], other: &[u8]) -> bool
    ensures { result ≡ differ_by_case one.now other.now }
{
    one != other && one.eq_ignore_ascii_case(other)
}

/// Returns whether two names differ by one edit, and neither is too short for that.
fn differ_by_edit(one: &[u8], other: &[u8]) -> bool
    ensures { result ≡ differ_by_edit one.now other.now }
{
    one.len() >= SHORTEST_EDITED && other.len() >= SHORTEST_EDITED && is_one_edit(one, other)
}

/// Returns whether one edit makes one name of the other: one byte is inserted, deleted or replaced, or two
/// neighbours are swapped, and these bytes are no digits.
pub fn is_one_edit(one: &[u8], other: &[u8]) -> bool
    ensures exact { IsTrue result ↔ IsOneEdit one.now other.now }
    ensures value { result ≡ is_one_edit one.now other.now }
{
    let (one, other) = after_same(one, other);
    edits_first(one, other)
}

/// Returns what follows the bytes with which both names begin.
fn after_same<'a, 'b>(one: &'a [u8], other: &'b [u8]) -> (&'a [u8], &'b [u8])
    ensures { edits_first result.0.now result.1.now ≡ is_one_edit one.now other.now }
{
    let (mut one, mut other) = (one, other);
    while let ([byte, after @ ..], [first, others @ ..]) = (one, other) {
        if byte != first {
            break;
        }
        (one, other) = (after, others);
    }
    (one, other)
}

/// Returns whether one edit makes one name of the other, given that their first bytes differ or one is empty.
fn edits_first(one: &[u8], other: &[u8]) -> bool
    ensures { result ≡ edits_first one.now other.now }
{
    inserts_first(one, other)
        || inserts_first(other, one)
        || replaces_first(one, other)
        || swaps_first(one, other)
}

/// Returns whether a byte, and then the shorter name, is the longer one.
fn inserts_first(shorter: &[u8], longer: &[u8]) -> bool
    ensures { result ≡ inserts_first shorter.now longer.now }
{
    match longer {
        [byte, after @ ..] => !byte.is_ascii_digit() && after == shorter,
        [] => false,
    }
}

/// Returns whether two names are the same after their first bytes.
fn replaces_first(one: &[u8], other: &[u8]) -> bool
    ensures { result ≡ replaces_first one.now other.now }
{
    match (one, other) {
        ([old, after @ ..], [new, others @ ..]) => !old.is_ascii_digit()
            && !new.is_ascii_digit()
            && after == others,
        _ => false,
    }
}

/// Returns whether two names begin with the same two bytes in either order, and are the same after these.
fn swaps_first(one: &[u8], other: &[u8]) -> bool
    ensures { result ≡ swaps_first one.now other.now }
{
    match (one, other) {
        ([first, second, after @ ..], [third, fourth, others @ ..]) => !first.is_ascii_digit()
            && !second.is_ascii_digit()
            && first == fourth
            && second == third
            && after == others,
        _ => false,
    }
}
