use form::Refusal;

/// Why a call was refused. Words for people stand in the crate that speaks, and not in a `Display` of `form`.
pub(crate) fn refusal_words(refusal: Refusal) -> &'static str {
    match refusal {
        Refusal::RangeOrder => "the least number of values would be above the most",
        Refusal::NameLength => "a name has 1 to 32 bytes",
        Refusal::NoScalar => "a letter is a Unicode scalar value",
        Refusal::TableFull => "the table is full: strike an entry first",
        Refusal::MarksSpent => "all 60,000 marks have been given",
        Refusal::NoSuchMark => "no entry, or none of that kind, bears the mark",
        Refusal::WrongList => "the list is not one of that entry, or holds the other sort of item",
        Refusal::RowsTaken => "all 512 rows for items are taken",
        Refusal::ListShort => "the list is shorter than the breaches",
        Refusal::NoSuchKey => "no argument has that key",
        Refusal::NoTrailer => "the sheet is too short or has a wrong end",
        Refusal::BodyTooLong => "the body is longer than the bytes before the trailer",
        Refusal::WrongLength => "something goes past its end, or leaves bytes over",
        Refusal::UnknownCode => "a code or bit has no meaning",
        Refusal::ItemFirst => "an item stands before any entry",
        Refusal::BeyondLimits => "it is more than a form can hold",
    }
}
