ghost use Rattle.std.specs.Prelude.{◌≡◌};
ghost use Rattle.form.specs.Refusals.{refusal_number};
ghost use Rattle.form.specs.declared.refusal.Refusal.TheVariants as refusal;

/// Why a range is refused.
#[derive(Clone, Copy, PartialEq, Eq)]
pub enum RangeFault {
    /// the least number of values is above the most
    LeastAboveMost,
}

/// Why bytes are no name.
#[derive(Clone, Copy, PartialEq, Eq)]
pub enum NameFault {
    Empty,
    /// more than 32 bytes
    TooLong,
}

/// Why a number is no letter.
#[derive(Clone, Copy, PartialEq, Eq)]
pub enum LetterFault {
    /// no Unicode scalar value
    NotScalar,
}

/// A number that no case of an enum has.
#[derive(Clone, Copy, PartialEq, Eq)]
pub struct NoSuchCode;

/// Everything that a call, or the test of a sheet, can be refused for; docs/FORMS.md says when each comes.
#[derive(Clone, Copy, PartialEq, Eq)]
pub enum Refusal {
    /// a range whose least is above its most
    RangeOrder = 101,
    /// a name that has not 1 to 32 bytes
    NameLength = 102,
    /// a letter that is no Unicode scalar value
    NoScalar = 103,
    /// a table that is full
    TableFull = 104,
    /// no mark is left
    MarksSpent = 105,
    /// no entry, or none of that kind, bears the mark
    NoSuchMark = 106,
    /// a list that is not one of the entry, or holds the other sort of item
    WrongList = 107,
    /// no row is left for an item
    RowsTaken = 108,
    /// a list that is shorter than the breaches
    ListShort = 109,
    /// no key equals the one sought
    NoSuchKey = 110,
    /// a sheet that is too short or has a wrong end
    NoTrailer = 111,
    /// a body that is longer than the bytes before the trailer
    BodyTooLong = 112,
    /// what goes past the end of its entry or body, or leaves bytes over
    WrongLength = 113,
    /// a code or bit that has no meaning
    UnknownCode = 114,
    /// an item before any entry
    ItemFirst = 115,
    /// more than a form can hold
    BeyondLimits = 116,
}

impl Refusal {
    /// The number of the refusal, 101 to 116.
    // by its name, and not `u8::from`, which would not say what the number is
    pub fn number(self) -> u8
        ensures { result ≡ refusal_number self }
    {
        self as u8
    }
}

impl From<RangeFault> for Refusal {
    ghost from_gives = { λ _ r. r ≡ refusal.RangeOrder };

    fn from(fault: RangeFault) -> Refusal {
        match fault {
            RangeFault::LeastAboveMost => Refusal::RangeOrder,
        }
    }
}

impl From<NameFault> for Refusal {
    ghost from_gives = { λ _ r. r ≡ refusal.NameLength };

    fn from(fault: NameFault) -> Refusal {
        match fault {
            NameFault::Empty | NameFault::TooLong => Refusal::NameLength,
        }
    }
}

impl From<LetterFault> for Refusal {
    ghost from_gives = { λ _ r. r ≡ refusal.NoScalar };

    fn from(fault: LetterFault) -> Refusal {
        match fault {
            LetterFault::NotScalar => Refusal::NoScalar,
        }
    }
}

impl From<NoSuchCode> for Refusal {
    ghost from_gives = { λ _ r. r ≡ refusal.UnknownCode };

    fn from(_code: NoSuchCode) -> Refusal {
        Refusal::UnknownCode
    }
}
