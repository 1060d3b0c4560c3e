ghost use Rattle.std.specs.Prelude.{◌≡◌};
ghost use Rattle.notation.specs.Small.{narrowed, count_written_below, letter_written};

use super::digits::{read_count, read_digits};

/// A number of 16 bits, in decimal digits or after `0x` in hexadecimal ones.
pub fn read_u16(text: &[u8]) -> Option<u16>
    ensures { result ≡ count_written_below 65536 text.now }
{
    u16::try_from(read_count(text)?).ok()
}

/// A number of 8 bits, in the same notation.
pub fn read_u8(text: &[u8]) -> Option<u8>
    ensures { result ≡ count_written_below 256 text.now }
{
    u8::try_from(read_count(text)?).ok()
}

/// The code of a letter: `U+` and one to eight hexadecimal digits. It need not be a scalar value.
pub fn read_letter(text: &[u8]) -> Option<u32>
    ensures { result ≡ letter_written text.now }
{
    match text {
        [b'U', b'+', digits @ ..] if digits.len() <= 8 => read_code(digits),
        _ => None,
    }
}

// a number of 32 bits in hexadecimal digits
fn read_code(digits: &[u8]) -> Option<u32>
    ensures { result ≡ narrowed 4294967296 digits.now }
{
    u32::try_from(read_digits(digits, 16)?).ok()
}
