ghost use Rattle.std.specs.Prelude.{◌≡◌, ◌<◌, [], length, take, if◌then◌else◌, Some, None};
ghost use Rattle.std.specs.Option.{option_map};
ghost use Rattle.form.specs.HeldBytes.{held_bytes};
ghost use Rattle.script.specs.Spelling.{spelled, is_byte, byte_of, FirstByte};

use form::Bytes;
use notation::digit_value;

/// A name as a script gives it: its first 33 bytes. No name has more than 32, so a longer one is refused by these alone.
pub type Spelled = Bytes<33>;

// the byte that a backslash begins
fn escaped(x: u8, high: u8, low: u8) -> Option<u8>
    ensures { result ≡ (if is_byte x high low then Some (byte_of high low) else None) }
{
    let h = digit_value(high);
    let l = digit_value(low);
    if x == b'x' && h < 16 && l < 16 {
        Some((h * 16 + l) as u8)
    } else {
        None
    }
}

// the first byte that a text spells, and what follows it; none where a backslash begins no byte
fn next_byte(text: &[u8]) -> Option<(u8, &[u8])>
    ensures { FirstByte text.now (option_map (λ p. (p.0, p.1.now)) result) }
{
    match text {
        [b'\\', x, high, low, rest @ ..] => Some((escaped(*x, *high, *low)?, rest)),
        [b'\\', ..] => None,
        [byte, rest @ ..] => Some((*byte, rest)),
        [] => None,
    }
}

/// The name that a text spells; none where a backslash begins no byte.
pub fn read_name(text: &[u8]) -> Option<Spelled>
    ensures { option_map held_bytes result ≡ option_map (take 33) (spelled text.now) }
{
    let mut name = Spelled::new();
    let mut rest = text;
    // a byte takes one or four of the text: an iterator of its own for this one loop would be no plainer
    while !rest.is_empty() {
        let (byte, later) = next_byte(rest)?;
        name.push(byte);
        rest = later;
    }
    Some(name)
}
