ghost use Rattle.std.specs.Prelude.{◌≡◌, ℕ, ◌^◌, ◌<◌, ◌≤◌};
ghost use Rattle.form.specs.Settings.{bit, kept};

use std::marker::PhantomData;

/// Settings that are told by their bits, from 0 on.
pub trait Setting {
    // how many bits have a name
    ghost named: { ℕ };

    ghost bit_of: { Self → ℕ };

    ghost COUNT: { ℕ };

    /// two to the number of named bits
    const COUNT: u16;

    /// The bit of the setting.
    fn bit(self) -> u32
        ensures { result ≡ bit_of self };

    ghost counts: { COUNT ≡ 2 ^ named };

    ghost some: { 1 ≤ named };

    ghost within: { (s : Self) → bit_of s < 16 };
}

/// The settings of a kind that something has.
#[derive(Clone, Copy, PartialEq, Eq)]
pub struct Flags<S> {
    bits: u16,
    of: PhantomData<S>,
}

impl<S: Setting> Flags<S> {
    /// The settings of a number's bits; bits that have no name are dropped.
    pub fn from_bits(bits: u16) -> Flags<S>
        ensures { result.bits ≡ kept S.named bits }
    {
        Flags {
            bits: bits % S::COUNT,
            of: PhantomData,
        }
    }

    /// The number whose bits are the settings.
    pub fn bits(self) -> u16
        ensures { result ≡ self.bits }
    {
        self.bits
    }

    /// Whether the setting is on.
    pub fn is_set(self, setting: S) -> bool
        ensures { result ≡ bit self.bits (S.bit_of setting) }
    {
        (self.bits >> setting.bit()) % 2 == 1
    }
}
