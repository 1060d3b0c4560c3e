ghost use Rattle.std.specs.Prelude.{◌≤◌};

/// Up to `N` bytes, of any value, held in place.
#[derive(Clone, Copy)]
pub struct Bytes<const N: usize> {
    pub(crate) items: [u8; N],
    pub(crate) len: usize,
    ghost short: { len ≤ N },
}

// the most bytes of a name
pub(crate) const MOST: usize = 32;

/// A name: 1 to 32 bytes, held in place.
// Not a `Bytes`, whose length of eight bytes is aligned as such: the tables of a book would take a third more memory.
#[derive(Clone, Copy)]
pub struct Name {
    pub(crate) bytes: [u8; MOST],
    pub(crate) len: u8,
    ghost some: { 1 ≤ len },
    ghost short: { len ≤ 32 },
}
