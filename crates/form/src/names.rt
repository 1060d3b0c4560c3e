ghost use Rattle.std.specs.Prelude.{◌≡◌, [], ◌∷◌, ◌++◌, take, length, if◌then◌else◌, Some, None, nat_le};
ghost use Rattle.std.specs.Option.{option_map};
ghost use Rattle.form.specs.HeldBytes.{held_bytes};
ghost use Rattle.form.specs.Names.{name_of, letter_of};
ghost use Rattle.form.specs.NameBytes.{name_bytes, named};
ghost use Rattle.form.specs.SameName.{same_name, same_name_per, same_name_equiv};

use super::name::{Bytes, MOST, Name};
use super::refusal::{LetterFault, NameFault};
use std::convert::AsSlice;

impl<const N: usize> Bytes<N> {
    /// No bytes.
    pub fn new() -> Bytes<N>
        ensures { held_bytes result ≡ [] }
    {
        Bytes {
            items: [0; N],
            len: 0,
        }
    }

    /// The same bytes, if there are at most `N`.
    pub fn copied(bytes: &[u8]) -> Option<Bytes<N>>
        ensures { option_map held_bytes result ≡ (if nat_le (length bytes.now) N then Some bytes.now else None) }
    {
        let len = bytes.len();
        if len > N {
            return None;
        }
        let mut items = [0; N];
        let room = &mut items[..];
        room[0..len].copy_from_slice(bytes);
        Some(Bytes { items, len })
    }

    /// One byte more, as far as there is room.
    pub fn push(&mut self, byte: u8)
        ensures { held_bytes self.new ≡ take N (held_bytes self.old ++ byte ∷ []) }
    {
        if self.len < N {
            self.items[self.len] = byte;
            self.len += 1;
        }
    }
}

impl<const N: usize> AsSlice<u8> for Bytes<N> {
    ghost items = { held_bytes };

    fn as_slice(&self) -> &[u8] {
        let room = &self.items[..];
        &room[0..self.len]
    }
}

impl Name {
    /// The most bytes of a name.
    pub const MOST: usize = MOST;

    /// A name of the bytes; refused unless there are 1 to 32.
    pub fn new(bytes: &[u8]) -> Result<Name, NameFault>
        ensures { named result ≡ name_of bytes.now }
    {
        if bytes.is_empty() {
            return Err(NameFault::Empty);
        }
        let held: Bytes<MOST> = Bytes::copied(bytes).ok_or(NameFault::TooLong)?;
        let bytes = held.items;
        Ok(Name {
            bytes,
            len: held.len as u8,
        })
    }

    /// The bytes of the name.
    pub fn as_bytes(&self) -> &[u8]
        ensures { result.now ≡ name_bytes self.now }
    {
        &self.bytes[0..usize::from(self.len)]
    }
}

impl AsSlice<u8> for Name {
    ghost items = { name_bytes };

    fn as_slice(&self) -> &[u8] {
        self.as_bytes()
    }
}

/// Names are equal where their bytes are; what stands behind the last byte does not count.
impl PartialEq for Name {
    ghost eq = { same_name };

    ghost laws = { same_name_per };

    fn eq(&self, other: &Name) -> bool {
        self.as_bytes() == other.as_bytes()
    }
}

impl Eq for Name {
    ghost laws = { same_name_equiv };
}

/// The letter of a code of 32 bits; refused unless the code is a Unicode scalar value.
pub fn letter(code: u32) -> Result<char, LetterFault>
    ensures { result ≡ letter_of code }
{
    char::from_u32(code).ok_or(LetterFault::NotScalar)
}
