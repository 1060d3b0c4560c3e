ghost use Rattle.std.specs.Prelude.{refl};
ghost use Rattle.std.proofs.Common.{rules};
ghost use Rattle.form.specs.Settings.{arg_bit, arg_bit_within};

use super::flags::{Flags, Setting};

/// The settings of an argument, by their bits from 0 on.
#[derive(Clone, Copy, PartialEq, Eq)]
pub enum ArgSettings {
    Required,
    Global,
    Hidden,
    NextLineHelp,
    HidePossibleValues,
    AllowHyphenValues,
    AllowNegativeNumbers,
    RequireEquals,
    Last,
    TrailingVarArg,
    HideDefaultValue,
    IgnoreCase,
}

impl Setting for ArgSettings {
    ghost named = { 12 };

    ghost bit_of = { arg_bit };

    ghost COUNT = { 0x1000 };

    const COUNT: u16 = 0x1000;

    ghost counts = { refl };

    ghost some = { Prim.search rules };

    ghost within = { arg_bit_within };

    fn bit(self) -> u32 {
        self as u32
    }
}

/// The settings that an argument has.
pub type ArgFlags = Flags<ArgSettings>;
