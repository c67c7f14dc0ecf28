ghost use Rattle.std.specs.Prelude.{◌≡◌, ◌<◌, ◌≤◌, [], ◌∷◌, ◌++◌, length, map, slice_index_or, slice_range, IfOk, OnOk, OnErr};
ghost use Rattle.flat_lists.specs.Parts.{parts, AreBounds};

use std::alloc::{AllocError, Global};
use std::convert::AsSlice;
use std::marker::Model;

/// Lists, numbered from 0, whose items are in one block of memory: one list after another.
///
/// Beside its items, a list takes four bytes. Lists are added at the end, and none is changed.
#[derive(Debug, Drop)]
pub struct FlatLists<T> {
    items: Vec<T>,
    // The place in `items` at which each list begins, and the place after the last.
    bounds: Vec<u32>,
}

impl<T> Model for FlatLists<T> {
    ghost use Rattle.std.specs.Prelude.{List};
    ghost use Rattle.flat_lists.specs.Parts.{parts, AreBounds};

    ghost Value = { List (List T) };

    ghost view = { λ l. parts l.bounds.items l.items.items };

    ghost invariant = { λ l. AreBounds l.bounds.items l.items.items };
}

impl<T: Copy> FlatLists<T> {
    /// Returns no lists, with room for this number of lists and of items.
    pub fn with_capacity(
        alloc: Global,
        lists: usize,
        items: usize,
    ) -> Result<FlatLists<T>, AllocError>
        ensures { IfOk result (λ none. none ≡ []) }
    {
        let mut bounds = Vec::new(alloc);
        bounds.push(0)?;
        bounds.reserve(lists)?;
        Ok(FlatLists {
            items: Vec::with_capacity(alloc, items)?,
            bounds,
        })
    }

    /// Returns copies of these lists, in order.
    pub fn of_lists<L: AsSlice<T>>(alloc: Global, lists: &[L]) -> Result<FlatLists<T>, AllocError>
        ensures { IfOk result (λ flat. flat ≡ map L.items lists.now) }
    {
        let mut flat = FlatLists::with_capacity(alloc, lists.len(), 0)?;
        for list in lists {
            flat.push(list.as_slice())?;
        }
        Ok(flat)
    }

    /// Returns the number of lists.
    pub fn len(&self) -> usize
        ensures { result ≡ length self.now }
    {
        self.bounds.len() - 1
    }

    /// Adds a list at the end.
    ///
    /// All lists together have fewer than 2^32 items. One that would make them more is refused as if
    /// memory had run out. An `AllocError` leaves the lists unchanged.
    pub fn push(&mut self, list: &[T]) -> Result<(), AllocError>
        ensures ok { OnOk result (self.new ≡ self.old ++ list.now ∷ []) }
        ensures err { OnErr result (self.new ≡ self.old) }
    {
        let end = self.items.len().saturating_add(list.len());
        if end > u32::MAX as usize {
            return Err(AllocError);
        }
        self.bounds.reserve(1)?;
        self.items.extend_from_slice(list)?;
        self.bounds.push_reserved(end as u32);
        Ok(())
    }

    /// Returns the list with this number.
    pub fn list(&self, number: usize) -> &[T]
        requires { number < length self.now }
        ensures { result.now ≡ slice_index_or self.now number [] }
    {
        list_of(self.items.as_slice(), self.bounds.as_slice(), number)
    }

    /// Returns the items, one list after another, and their bounds: the place at which each list begins,
    /// and the place after the last. [`list_of`] finds a list in them.
    pub fn into_parts(self) -> (Vec<T>, Vec<u32>)
        ensures lists { parts result.1.items result.0.items ≡ self }
        ensures bounds { AreBounds result.1.items result.0.items }
    {
        (self.items, self.bounds)
    }
}

/// Returns the list with this number of those that bounds make of these items.
pub fn list_of<'l, T>(items: &'l [T], bounds: &[u32], number: usize) -> &'l [T]
    requires bounds { AreBounds bounds.now items.now }
    requires number { number < length (parts bounds.now items.now) }
    ensures { result.now ≡ slice_index_or (parts bounds.now items.now) number [] }
{
    let start = bounds[number] as usize;
    let end = bounds[number + 1] as usize;
    between(items, start, end)
}

/// Returns the items from one place up to another.
fn between<T>(items: &[T], start: usize, end: usize) -> &[T]
    requires rising { start ≤ end }
    requires within { end ≤ length items.now }
    ensures { result.now ≡ slice_range items.now start end }
{
    &items[start..end]
}
