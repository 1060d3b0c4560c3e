/// How answers are told.
#[derive(Clone, Copy, PartialEq, Eq)]
pub enum Style {
    /// for people
    Words,
    /// for other programs
    Plain,
}
