ghost use Rattle.std.specs.Prelude.{◌≡◌};
ghost use Rattle.notation.specs.Digits.{number_in, more_digits_in, digit_value, count_written};

/// A number in decimal digits, or after `0x` in hexadecimal ones.
pub fn read_count(text: &[u8]) -> Option<u64>
    ensures { result ≡ count_written text.now }
{
    match text {
        [b'0', b'x', digits @ ..] => read_digits(digits, 16),
        _ => read_digits(text, 10),
    }
}

/// The number that the digits spell in the base, if there is at least one and it fits 64 bits.
pub fn read_digits(text: &[u8], base: u64) -> Option<u64>
    ensures { result ≡ number_in base text.now }
{
    if text.is_empty() {
        return None;
    }
    // a `for` with `?`: `try_fold` would be no plainer
    let mut value = 0;
    for digit in text {
        value = with_digit(value, *digit, base)?;
    }
    Some(value)
}

// the number with one digit more
fn with_digit(value: u64, digit: u8, base: u64) -> Option<u64>
    ensures { result ≡ more_digits_in base value digit }
{
    let units = digit_value(digit);
    if units >= base {
        return None;
    }
    value.checked_mul(base)?.checked_add(units)
}

/// What a digit is worth, 0 to 15; 16 for any other byte.
// 16 and not an `Option`: it is below no base that is read, so one comparison refuses both
pub fn digit_value(digit: u8) -> u64
    ensures { result ≡ digit_value digit }
{
    match digit {
        b'0'..=b'9' => u64::from(digit - b'0'),
        b'a'..=b'f' => u64::from(digit - b'a') + 10,
        b'A'..=b'F' => u64::from(digit - b'A') + 10,
        _ => 16,
    }
}
