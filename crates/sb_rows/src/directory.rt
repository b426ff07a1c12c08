//! The directory: which place each customer has.
ghost use Rattle.std.specs.Prelude.{◌≡◌, ◌<◌, [], ◌∷◌, ◌++◌, ◌↔◌, length, None, slice_get, IsTrue, IfOk, OnOk, OnErr};
ghost use Rattle.sb_rows.specs.Directory.{IsDirectory, place_of};
ghost use Rattle.sb_rows.specs.declared.columns.TheConstants.{CUSTOMERS};

use crate::columns::CUSTOMERS;
use crate::name::Name;
use indexmap::IndexSet;
use std::alloc::{AllocError, Global};
use std::marker::Model;

/// The customers' names in opening order, all different. A customer's place is the place of its
/// name, from 0.
#[derive(Drop)]
pub struct Directory {
    names: IndexSet<Name>,
}

impl Model for Directory {
    ghost use Rattle.std.specs.Prelude.{ℕ, List};
    ghost use Rattle.sb_rows.specs.Directory.{IsDirectory};

    ghost Value = { List (List ℕ) };

    ghost view = { λ d. d.names.keys };

    ghost invariant = { λ d. IsDirectory d.names.keys };
}

impl Directory {
    /// A directory without names.
    pub fn new(alloc: Global) -> Directory
        ensures { result ≡ [] }
    {
        Directory {
            names: IndexSet::new(alloc),
        }
    }

    /// The number of names.
    #[inline]
    pub fn len(&self) -> usize
        ensures value { result ≡ length self.now }
        ensures valid { IsDirectory self.now }
    {
        self.names.len()
    }

    /// Whether there are no names.
    pub fn is_empty(&self) -> bool
        ensures { IsTrue result ↔ (self.now ≡ []) }
    {
        self.names.is_empty()
    }

    /// The place of a name, or `None` if the directory doesn't have it.
    #[inline]
    pub fn place(&self, name: &Name) -> Option<u32>
        ensures { result ≡ place_of self.now name.now }
    {
        let place = self.names.get_index_of(name)?;
        Some(place as u32)
    }

    /// The name at a place, or `None` if there is no such place.
    #[inline]
    pub fn name(&self, place: u32) -> Option<Name>
        ensures { result ≡ slice_get self.now place }
    {
        self.names.get_index(place as usize).copied()
    }

    /// Appends a new name. If memory is refused, nothing changes.
    pub fn push(&mut self, name: Name) -> Result<(), AllocError>
        requires new { place_of self.old name ≡ None }
        requires room { length self.old < CUSTOMERS }
        ensures ok { OnOk result (self.new ≡ self.old ++ name ∷ []) }
        ensures err { OnErr result (self.new ≡ self.old) }
        ensures valid { IsDirectory self.new }
    {
        // Each name is valid, by the contract of `text`.
        let _valid = name.text();
        self.names.insert(name)?;
        Ok(())
    }

    /// A copy of the names. Fails if memory is refused.
    pub fn copy(&self) -> Result<Directory, AllocError>
        ensures { IfOk result (λ copy. copy ≡ self.now) }
    {
        Ok(Directory {
            names: self.names.clone()?,
        })
    }
}
