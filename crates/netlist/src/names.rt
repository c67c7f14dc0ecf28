ghost use Rattle.std.specs.Prelude.{◌≡◌, ◌<◌, ◌^◌, ◌++◌, ◌∷◌, [], OnOk, OnErr, bytes_eq, length, position, slice_get};
ghost use Rattle.netlist.specs.Names.{IsNames};

use indexmap::{Equivalent, IndexSet};
use smallvec::SmallVec;
use std::alloc::{AllocError, Global};
use std::marker::Model;

// A name of at most this number of bytes needs no allocation: it fits in the place of a list's pointer, length
// and capacity.
const SHORT: usize = 16;

/// Distinct names, numbered from 0 in the order in which they were added.
#[derive(Debug, Drop)]
pub struct Names {
    set: IndexSet<SmallVec<u8, SHORT>>,
}

impl Model for Names {
    ghost use Rattle.std.specs.Prelude.{ℕ, List, map};
    ghost use Rattle.netlist.specs.Names.{IsNames};

    ghost Value = { List (List ℕ) };

    ghost view = { λ n. map (λ v. v.items) n.set.keys };

    ghost invariant = { λ n. IsNames (map (λ v. v.items) n.set.keys) };
}

impl Names {
    /// Makes an empty list of names.
    pub fn new(alloc: Global) -> Names
        ensures { result ≡ [] }
    {
        Names {
            set: IndexSet::new(alloc),
        }
    }

    /// Returns the number of names, which fits in 32 bits.
    pub fn len(&self) -> usize
        ensures len { result ≡ length self.now }
        ensures well_formed { IsNames self.now }
    {
        self.set.len()
    }

    /// Returns the name with this number.
    pub fn name(&self, number: u32) -> &[u8]
        requires { number < length self.now }
        ensures { slice_get self.now number ≡ Some result.now }
    {
        self.set.as_slice()[number as usize].as_slice()
    }

    /// Returns the number of a name, if it is among the names.
    pub fn find(&self, name: &[u8]) -> Option<u32>
        ensures { result ≡ position (bytes_eq name.now) self.now }
    {
        let index = self.set.get_index_of(Spelling { bytes: name })?;
        Some(index as u32)
    }

    /// Adds a name that isn't among the names yet; its number is the length before the call. All
    /// numbers fit in 32 bits.
    ///
    /// An `AllocError` leaves the names unchanged.
    pub fn push(&mut self, name: &[u8]) -> Result<(), AllocError>
        requires new { position (bytes_eq name.now) self.old ≡ None }
        requires room { length self.old < 2 ^ 32 }
        ensures ok { OnOk result (self.new ≡ self.old ++ name.now ∷ []) }
        ensures err { OnErr result (self.new ≡ self.old) }
    {
        let key = SmallVec::from_slice(*self.set.allocator(), name)?;
        self.set.insert(key)?;
        Ok(())
    }
}

/// The bytes of a name that is looked up, which needn't be copied for that.
#[derive(Clone, Copy, PartialEq, Eq, Hash)]
struct Spelling<'n> {
    bytes: &'n [u8],
}

impl<'n> Equivalent<SmallVec<u8, SHORT>> for Spelling<'n> {
    ghost use Rattle.std.specs.Prelude.{bytes_eq};
    ghost use Rattle.std.specs.Cmp.Lexicographic.{bytes_decides, nat_list_eq_equiv};
    ghost use Rattle.std.specs.Hash as fed;
    ghost use Rattle.std.proofs.Common.{ap};

    ghost equivalent = { λ q k. bytes_eq q.bytes.now k.items };

    ghost respects_hash = { λ q k h. ap (fed.slice fed.u8) ((bytes_decides q.bytes.now k.items).0 h) };

    ghost respects_eq = { λ q x y. nat_list_eq_equiv.congr q.bytes.now x.items y.items };

    fn equivalent(&self, key: &SmallVec<u8, SHORT>) -> bool {
        self.bytes == key.as_slice()
    }
}
