ghost use Rattle.std.specs.Prelude.{refl};
ghost use Rattle.std.proofs.Common.{rules};
ghost use Rattle.form.specs.Settings.{app_bit, app_bit_within};

use super::flags::{Flags, Setting};

/// The settings of a form, by their bits from 0 on.
#[derive(Clone, Copy, PartialEq, Eq)]
pub enum AppSettings {
    Multicall,
    NoBinaryName,
    PropagateVersion,
    SubcommandsNegateReqs,
    DisableHelpFlag,
    DisableVersionFlag,
    HasVersion,
}

impl Setting for AppSettings {
    ghost named = { 7 };

    ghost bit_of = { app_bit };

    ghost COUNT = { 0x80 };

    const COUNT: u16 = 0x80;

    ghost counts = { refl };

    ghost some = { Prim.search rules };

    ghost within = { app_bit_within };

    fn bit(self) -> u32 {
        self as u32
    }
}

/// The settings that a form has.
pub type AppFlags = Flags<AppSettings>;
