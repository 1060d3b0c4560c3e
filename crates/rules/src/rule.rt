ghost use Rattle.std.specs.Prelude.{◌≡◌};
ghost use Rattle.rules.specs.Numbers.{rule_number};

/// The rules that a form can break; docs/FORMS.md states each under its number.
#[derive(Clone, Copy, PartialEq, Eq)]
pub enum Rule {
    PropagateWithoutVersion = 1,
    VersionActionWithoutVersion = 2,
    LongFlagDash = 3,
    ConflictsWithItself = 4,
    TooManyValues = 5,
    IndexWithFlag = 9,
    IndexZero = 10,
    IndexWithoutValue = 11,
    PositionalWithoutIndex = 12,
    RangeUnset = 13,
    EqualsWithMany = 15,
    SettingWithoutValue = 16,
    MulticallArgument = 17,
    LongNameDash = 18,
    SameId = 19,
    SameLongName = 20,
    SameLetter = 21,
    SameIndex = 22,
    RequiresItself = 23,
    RequiredConditionally = 24,
    MissingReference = 25,
    LastWithLong = 26,
    LastWithLetter = 27,
    RequiredGlobal = 28,
    SameGroupId = 31,
    GroupIdOfArgument = 32,
    MissingMember = 33,
    MissingGroupRequirement = 34,
    MissingGroupConflict = 35,
    SameLongFlag = 36,
    SameLetterFlag = 37,
    SubcommandNameTaken = 38,
    SubcommandAliasTaken = 39,
    PositionsWithGaps = 40,
    TrailingLast = 41,
    TrailingNotMultiple = 42,
    TrailingElsewhere = 43,
    OpenBeforeOptional = 44,
    MultipleElsewhere = 45,
    TooManyMultiple = 46,
    OptionalBeforeRequired = 47,
    TwoLast = 48,
    RequiredLastWithSubcommands = 49,
    MulticallWithoutBinaryName = 50,
    FormCut = 51,
}

impl Rule {
    /// The number of the rule.
    // by its name, and not `u8::from`, which would not say what the number is
    pub fn number(self) -> u8
        ensures { result ≡ rule_number self }
    {
        self as u8
    }
}
