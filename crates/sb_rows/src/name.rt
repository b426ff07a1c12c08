//! Names of customers.
ghost use Rattle.std.specs.Prelude.{◌≡◌, [], ◌∷◌, SomeIff};
ghost use Rattle.std.specs.Cmp.{partial_equiv_from_equiv};
ghost use Rattle.std.specs.Cmp.Lexicographic.{nat_list_eq_equiv};
ghost use Rattle.std.specs.Str.{bytes_eq};
ghost use Rattle.sb_rows.specs.Name as spec;
ghost use Rattle.sb_rows.specs.Name.{IsName};

use crate::name_bytes::are_name_bytes;
use std::hash::{Hash, Hasher};
use std::marker::Model;

/// The greatest length of a name, in bytes.
pub const NAME_BYTES: usize = 20;

/// The name of a customer: 1 to 20 bytes of `a` to `z`, `0` to `9` and `_`.
#[derive(Clone, Copy, Debug)]
pub struct Name {
    // The length comes first, at the place of a refusal's one byte, so that the bytes are copied as
    // one piece.
    len: u8,
    // The text, with zeros after it.
    bytes: [u8; NAME_BYTES],
    // Always 0. With it the second name of a call ends at a multiple of 4, so that calls are copied
    // by fewer pieces that overlap. Reading a piece back at once stalls only where they do.
    pad: u8,
}

impl Model for Name {
    ghost use Rattle.std.specs.Prelude.{ℕ, ◌-◌, List, ◌++◌, take, length, replicate};
    ghost use Rattle.sb_rows.specs.inner.PaddedName.{IsPaddedName, padded_from_text};
    ghost use Rattle.sb_rows.specs.declared.name.TheConstants.{NAME_BYTES};

    ghost Value = { List ℕ };

    ghost view = { λ n. take n.len n.bytes };

    ghost invariant = { λ n. IsPaddedName n.bytes n.len n.pad };

    ghost inverse = { λ text. record {
      bytes = text ++ replicate (NAME_BYTES - length text) 0;
      len = length text;
      pad = 0;
    } };

    ghost inverse_ok = { λ n h i.
        let back = padded_from_text n.bytes n.len n.pad h in
        record { bytes = back.0 i; len = back.1 i; pad = back.2 i } };
}

// Whether a text is a valid name.
fn is_name(text: &[u8]) -> bool
    ensures { result ≡ spec.is_name text.now }
{
    1 <= text.len() && text.len() <= NAME_BYTES && are_name_bytes(text)
}

impl Name {
    /// The name with this text, or `None` if the text isn't a valid name.
    pub fn new(text: &[u8]) -> Option<Name>
        ensures { SomeIff result (IsName text.now) text.now }
    {
        if !is_name(text) {
            return None;
        }
        let mut bytes = [0; NAME_BYTES];
        bytes[..text.len()].copy_from_slice(text);
        Some(Name {
            bytes,
            len: text.len() as u8,
            pad: 0,
        })
    }

    /// The text of the name.
    #[inline]
    pub fn text(&self) -> &[u8]
        ensures value { result.now ≡ self.now }
        ensures valid { IsName self.now }
    {
        &self.bytes[..self.len as usize]
    }
}

impl PartialEq for Name {
    ghost eq = { bytes_eq };

    ghost laws = { partial_equiv_from_equiv nat_list_eq_equiv };

    fn eq(&self, other: &Name) -> bool {
        self.text() == other.text()
    }
}

impl Eq for Name {
    ghost laws = { nat_list_eq_equiv };
}

impl Hash for Name {
    ghost use Rattle.sb_rows.specs.inner.PaddedName.{same_hash_input};

    ghost hash_input = { λ name. name ∷ [] };

    ghost respects_eq = { same_hash_input };

    fn hash<H: Hasher>(&self, state: &mut H) {
        state.write(self.text());
    }
}
