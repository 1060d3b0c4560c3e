ghost use Rattle.std.specs.Prelude.{◌≡◌};
ghost use Rattle.form.specs.Actions.{action_code, action_coded, allowed, default_range};
ghost use Rattle.form.specs.Bounds.{bounds};
ghost use Rattle.form.specs.Refusals.{no_such_code};
ghost use Rattle.std.specs.Option.{ok_or};

use super::range::ValueRange;
use super::refusal::NoSuchCode;

/// What an argument does where it is met on a command line.
#[derive(Clone, Copy, PartialEq, Eq)]
pub enum ArgAction {
    Set,
    Append,
    SetTrue,
    SetFalse,
    Count,
    Help,
    HelpShort,
    HelpLong,
    Version,
}

impl ArgAction {
    /// The code, counting from 0 in the order above.
    // by its name, and not `u8::from`, which would not say what the number is
    pub fn code(self) -> u8
        ensures { result ≡ action_code self }
    {
        self as u8
    }

    /// The numbers of values that the action allows at the widest.
    pub fn max_num_args(self) -> ValueRange
        ensures { bounds result ≡ allowed self }
    {
        match self {
            ArgAction::Set | ArgAction::Append => ValueRange::FULL,
            ArgAction::SetTrue | ArgAction::SetFalse => ValueRange::OPTIONAL,
            _ => ValueRange::EMPTY,
        }
    }

    /// The range that the action has by default.
    pub fn default_num_args(self) -> ValueRange
        ensures { bounds result ≡ default_range self }
    {
        match self {
            ArgAction::Set | ArgAction::Append => ValueRange::SINGLE,
            _ => ValueRange::EMPTY,
        }
    }
}

/// The action of a code, if there is one.
impl TryFrom<u8> for ArgAction {
    type Error = NoSuchCode;

    ghost try_from_gives = { λ code r. r ≡ ok_or (action_coded code) no_such_code };

    fn try_from(code: u8) -> Result<ArgAction, NoSuchCode> {
        match code {
            0 => Ok(ArgAction::Set),
            1 => Ok(ArgAction::Append),
            2 => Ok(ArgAction::SetTrue),
            3 => Ok(ArgAction::SetFalse),
            4 => Ok(ArgAction::Count),
            5 => Ok(ArgAction::Help),
            6 => Ok(ArgAction::HelpShort),
            7 => Ok(ArgAction::HelpLong),
            8 => Ok(ArgAction::Version),
            _ => Err(NoSuchCode),
        }
    }
}
