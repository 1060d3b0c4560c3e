/// Why a table takes no more.
#[derive(Clone, Copy, PartialEq, Eq)]
pub enum TableFault {
    /// no room is left
    Full,
}
