ghost use Rattle.std.specs.Prelude.{◌≡◌, true, [], map};
ghost use Rattle.form.specs.Keys.{keys_of};
ghost use Rattle.calls.specs.Marked.{form_of};
ghost use Rattle.book_tables.specs.Tables.{tables_marked};
ghost use Rattle.book.specs.KeyRows.{key_held};
ghost use Rattle.book.specs.SameKeys.{same_keys};

use book_tables::{Table, Tables};
use form::{Key, Name};

/// The keys of a book: two of each argument at most, and one of each item.
pub(crate) type Keys = Table<Key<Name>, 640>;

/// A book that takes enter, alter, strike, attach, set and build.
#[derive(Drop)]
pub struct OpenBook {
    pub(crate) tables: Tables,
    pub(crate) keys: Keys,
    ghost none: { keys.list.items ≡ [] },
}

/// A book that shows its form and its keys, and takes reopen.
#[derive(Drop)]
pub struct BuiltBook {
    pub(crate) tables: Tables,
    pub(crate) keys: Keys,
    ghost keyed: { same_keys (map key_held keys.list.items) (keys_of (form_of (tables_marked tables))) ≡ true },
}
