ghost use Rattle.std.specs.Prelude.{◌≡◌, ◌+◌, ◌<◌, ◌≤◌, [], ◌∷◌, ◌++◌, map, length};
ghost use Rattle.std.specs.Option.{option_map};
ghost use Rattle.form.specs.Keys.{listed, arg_keys, keys_from};
ghost use Rattle.calls.specs.Marked.{arg_entry};
ghost use Rattle.book_tables.specs.Held.{held, arg_held, item_held, row_held};
ghost use Rattle.book_tables.specs.Rows.{items_of};
ghost use Rattle.book.specs.KeyRows.{key_named, key_held, keyed_at, alias_key};

use super::states::Keys;
use book_tables::{Held, HeldItem, ItemRow};
use form::{ArgOf, ItemList, Key, KeyType, Name};

// by what an alias finds its argument
fn alias_key(item: HeldItem) -> KeyType<Name>
    ensures { key_named result ≡ alias_key (item_held item) }
{
    match item {
        HeldItem::Name(name) => KeyType::Long(name),
        HeldItem::Letter(letter) => KeyType::Short(letter),
    }
}

// one more key of the argument at the place
fn push_key(keys: &mut Keys, name: KeyType<Name>, place: usize)
    requires { length keys.old.list.items < 640 }
    ensures { map key_held keys.new.list.items ≡ map key_held keys.old.list.items ++ keyed_at place (key_named name) ∷ [] }
{
    // there is room, so it is not refused
    let _ = keys.push(Key { name, place });
}

// the same where there is a key
fn push_some(keys: &mut Keys, name: Option<KeyType<Name>>, place: usize)
    requires { length keys.old.list.items + length (listed (option_map key_named name)) ≤ 640 }
    ensures { map key_held keys.new.list.items ≡ map key_held keys.old.list.items ++ map (keyed_at place) (listed (option_map key_named name)) }
{
    if let Some(name) = name {
        push_key(keys, name, place);
    }
}

// the keys of the aliases that the marked argument has in the list
fn push_aliases(keys: &mut Keys, rows: &[ItemRow], mark: u16, list: ItemList, place: usize)
    requires { length keys.old.list.items + length (items_of mark list (map row_held rows.now)) ≤ 640 }
    ensures { map key_held keys.new.list.items ≡ map key_held keys.old.list.items ++ map (keyed_at place) (map alias_key (items_of mark list (map row_held rows.now))) }
{
    // over a `filter` the invariant would speak of rows that are still to be skipped, and be no plainer
    for row in rows {
        if row.adds_to(mark, list) {
            push_key(keys, alias_key(row.item), place);
        }
    }
}

// the keys of the argument at the place
fn push_arg(keys: &mut Keys, arg: &Held<ArgOf<Name>>, rows: &[ItemRow], place: usize)
    requires { length keys.old.list.items + length (arg_keys place (arg_entry (map row_held rows.now) (held arg_held arg.now))) ≤ 640 }
    ensures { map key_held keys.new.list.items ≡ map key_held keys.old.list.items ++ arg_keys place (arg_entry (map row_held rows.now) (held arg_held arg.now)) }
{
    let of = &arg.of;
    if let Some(index) = of.index {
        push_key(keys, KeyType::Position(index), place);
        return;
    }
    push_some(keys, of.letter.map(KeyType::Short), place);
    push_some(keys, of.long.map(KeyType::Long), place);
    push_aliases(keys, rows, arg.mark, ItemList::LetterAliases, place);
    push_aliases(keys, rows, arg.mark, ItemList::LongAliases, place);
}

/// The keys of all arguments, in their order.
// a rule of the project names this form of the loop
pub(crate) fn push_all(keys: &mut Keys, args: &[Held<ArgOf<Name>>], rows: &[ItemRow])
    requires { length keys.old.list.items + length (keys_from 0 (map (arg_entry (map row_held rows.now)) (map (held arg_held) args.now))) ≤ 640 }
    ensures { map key_held keys.new.list.items ≡ map key_held keys.old.list.items ++ keys_from 0 (map (arg_entry (map row_held rows.now)) (map (held arg_held) args.now)) }
{
    for (place, arg) in args.iter().enumerate() {
        push_arg(keys, arg, rows, place);
    }
}
