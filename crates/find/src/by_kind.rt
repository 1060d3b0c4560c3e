ghost use Rattle.std.specs.Prelude.{◌≡◌};
ghost use Rattle.form.specs.Keys.{KeyName, position, letter, long, same_key};
ghost use Rattle.form.specs.Shown.{key_name};

use form::KeyType;
use std::marker::PhantomData;

/// A kind of key: what is sought by it, and which keys are the one sought.
pub trait KeyKind {
    /// A number, a letter or bytes.
    type Sought: Copy;

    // the key that is sought
    ghost key: { Self.Sought → KeyName };

    /// Whether a key is the one sought; a key of another kind never is.
    fn matches(name: KeyType<&[u8]>, sought: Self::Sought) -> bool
        ensures { result ≡ same_key (key sought) (key_name name.entry) };
}

/// By position: a number is sought.
pub struct ByPosition;

impl KeyKind for ByPosition {
    type Sought = u16;

    ghost key = { position };

    fn matches(name: KeyType<&[u8]>, sought: u16) -> bool {
        matches!(name, KeyType::Position(index) if sought == index)
    }
}

/// By letter.
pub struct ByLetter;

impl KeyKind for ByLetter {
    type Sought = char;

    ghost key = { letter };

    fn matches(name: KeyType<&[u8]>, sought: char) -> bool {
        matches!(name, KeyType::Short(c) if sought == c)
    }
}

/// By long name: bytes are sought.
pub struct ByLong<'a>(PhantomData<&'a u8>);

impl<'a> KeyKind for ByLong<'a> {
    type Sought = &'a [u8];

    ghost key = { λ s. long s.now };

    fn matches(name: KeyType<&[u8]>, sought: &'a [u8]) -> bool {
        matches!(name, KeyType::Long(x) if sought == x)
    }
}
