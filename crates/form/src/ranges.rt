ghost use Rattle.std.specs.Prelude.{◌≡◌, ℕ, Some, Decides, MatchOption};
ghost use Rattle.form.specs.Ranges.{fixed, through, to_before, from_on, up_to_before, up_to, all, takes_values, is_fixed, is_multiple, is_unbounded, fixed_number, accepts_more, range_text, Fewest, Greatest, MoreThan, Only};
ghost use Rattle.form.specs.Bounds.{bounds, bounded};
ghost use Rattle.std.specs.Range.{range_inclusive_start, range_inclusive_end};

use super::range::ValueRange;
use super::refusal::RangeFault;
use std::fmt;
use std::ops::{Range, RangeFrom, RangeFull, RangeInclusive, RangeTo, RangeToInclusive};

impl ValueRange {
    /// No values: a flag.
    pub const EMPTY: ValueRange = ValueRange {
        start_inclusive: 0,
        end_inclusive: 0,
    };

    /// One value, the commonest case for options.
    pub const SINGLE: ValueRange = ValueRange {
        start_inclusive: 1,
        end_inclusive: 1,
    };

    /// One value or none.
    pub const OPTIONAL: ValueRange = ValueRange {
        start_inclusive: 0,
        end_inclusive: 1,
    };

    /// Any number of values.
    pub const FULL: ValueRange = ValueRange {
        start_inclusive: 0,
        end_inclusive: u64::MAX,
    };

    // from `least` through `most`
    fn raw(least: u64, most: u64) -> Result<ValueRange, RangeFault>
        ensures { bounded result ≡ through least most }
    {
        if least > most {
            return Err(RangeFault::LeastAboveMost);
        }
        Ok(ValueRange {
            start_inclusive: least,
            end_inclusive: most,
        })
    }

    /// The fewest values that the argument accepts.
    pub fn min_values(&self) -> u64
        ensures value { result ≡ (bounds self.now).least }
        ensures means { Fewest (bounds self.now) result }
    {
        let fewest = self.start_inclusive;
        fewest
    }

    /// The most values that the argument accepts.
    pub fn max_values(&self) -> u64
        ensures value { result ≡ (bounds self.now).most }
        ensures means { Greatest (bounds self.now) result }
    {
        let greatest = self.end_inclusive;
        greatest
    }

    /// Whether the argument takes any values; a flag takes none.
    pub fn takes_values(&self) -> bool
        ensures value { result ≡ takes_values (bounds self.now) }
        ensures means { Decides result (MoreThan (bounds self.now) 0) }
    {
        self.end_inclusive != 0
    }

    /// Whether there is no upper end.
    pub fn is_unbounded(&self) -> bool
        ensures { result ≡ is_unbounded (bounds self.now) }
    {
        self.end_inclusive == u64::MAX
    }

    /// Whether one number of values only is accepted.
    pub fn is_fixed(&self) -> bool
        ensures value { result ≡ is_fixed (bounds self.now) }
        ensures means { Decides result (Only (bounds self.now) (bounds self.now).least) }
    {
        self.start_inclusive == self.end_inclusive
    }

    /// Whether more than one value is accepted, or the number may vary.
    pub fn is_multiple(&self) -> bool
        ensures { result ≡ is_multiple (bounds self.now) }
    {
        self.start_inclusive != self.end_inclusive || 1 < self.start_inclusive
    }

    /// The number of values, where it is fixed.
    pub fn num_values(&self) -> Option<u64>
        ensures value { result ≡ fixed_number (bounds self.now) }
        ensures means { MatchOption result ((n : ℕ) → Only (bounds self.now) n → ⊥) (λ n. Only (bounds self.now) n) }
    {
        self.is_fixed().then_some(self.start_inclusive)
    }

    /// Whether another value is accepted after `current`.
    pub fn accepts_more(&self, current: u64) -> bool
        ensures value { result ≡ accepts_more (bounds self.now) current }
        ensures means { Decides result (MoreThan (bounds self.now) current) }
    {
        current < self.end_inclusive
    }
}

/// `n`: just n values.
impl From<u64> for ValueRange {
    ghost from_gives = { λ n r. bounds r ≡ fixed n };

    fn from(n: u64) -> ValueRange {
        ValueRange {
            start_inclusive: n,
            end_inclusive: n,
        }
    }
}

/// `a..`: a values or more.
impl From<RangeFrom<u64>> for ValueRange {
    ghost from_gives = { λ a r. bounds r ≡ from_on a.start };

    fn from(a: RangeFrom<u64>) -> ValueRange {
        ValueRange {
            start_inclusive: a.start,
            end_inclusive: u64::MAX,
        }
    }
}

/// `..b`: fewer than b values, and none where b is 0.
impl From<RangeTo<u64>> for ValueRange {
    ghost from_gives = { λ b r. bounds r ≡ up_to_before b.end };

    fn from(b: RangeTo<u64>) -> ValueRange {
        ValueRange {
            start_inclusive: 0,
            end_inclusive: b.end.saturating_sub(1),
        }
    }
}

/// `..=b`: at most b values.
impl From<RangeToInclusive<u64>> for ValueRange {
    ghost from_gives = { λ b r. bounds r ≡ up_to b.end };

    fn from(b: RangeToInclusive<u64>) -> ValueRange {
        ValueRange {
            start_inclusive: 0,
            end_inclusive: b.end,
        }
    }
}

/// `..`: any number of values.
impl From<RangeFull> for ValueRange {
    ghost from_gives = { λ _ r. bounds r ≡ all };

    fn from(_all: RangeFull) -> ValueRange {
        ValueRange::FULL
    }
}

/// `a..b`: from a to before b; refused where that leaves least above most.
impl TryFrom<Range<u64>> for ValueRange {
    type Error = RangeFault;

    ghost try_from_gives = { λ s r. bounded r ≡ to_before s.start s.end };

    fn try_from(s: Range<u64>) -> Result<ValueRange, RangeFault> {
        ValueRange::raw(s.start, s.end.saturating_sub(1))
    }
}

/// `a..=b`: from a through b; refused where a is above b.
impl TryFrom<RangeInclusive<u64>> for ValueRange {
    type Error = RangeFault;

    ghost try_from_gives = { λ s r. bounded r ≡ through (range_inclusive_start s) (range_inclusive_end s) };

    fn try_from(s: RangeInclusive<u64>) -> Result<ValueRange, RangeFault> {
        ValueRange::raw(*s.start(), *s.end())
    }
}

/// As in Rust: `3`, `1..=4`, or `1..` where there is no upper end.
impl fmt::Display for ValueRange {
    ghost output = { λ r. Some (range_text (bounds r)) };

    fn fmt<W: fmt::Write>(&self, f: &mut fmt::Formatter<W>) -> fmt::Result {
        let least = self.start_inclusive;
        let most = self.end_inclusive;
        if least == most {
            write!(f, "{least}")
        } else if most == u64::MAX {
            write!(f, "{least}..")
        } else {
            write!(f, "{least}..={most}")
        }
    }
}
