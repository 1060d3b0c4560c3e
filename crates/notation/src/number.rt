ghost use Rattle.std.specs.Prelude.{◌≡◌};
ghost use Rattle.notation.specs.Numbers.{number};

use super::digits::read_digits;

/// The number that the decimal digits spell, if there is at least one and it fits 64 bits.
#[tactic(auto, using(crate::proofs::Decimal::number_in_ten))]
pub fn read_number(text: &[u8]) -> Option<u64>
    ensures { result ≡ number text.now }
{
    read_digits(text, 10)
}
