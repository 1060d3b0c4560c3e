//! What a form can hold; specs/Limits.antt says what of it.

pub const MAX_ARGS: usize = 80;

pub const MAX_GROUPS: usize = 16;

pub const MAX_SUBCOMMANDS: usize = 32;

/// over all lists of all entries
pub const MAX_ITEMS: usize = 1024;
