ghost use Rattle.std.specs.Prelude.{◌≡◌, ◌<◌, length, Some};
ghost use Rattle.std.specs.List.{slice_get};
ghost use Rattle.std.specs.Option.{option_map};
ghost use Rattle.form.specs.Keys.{keys_of};
ghost use Rattle.keys.specs.KeysAt.{own_names, names_at_place};
ghost use Rattle.form.specs.Shown.{key_name, shown_key};

use form::{FormSource, ItemList, Key, KeyType};

// An argument's letter and long name are keys, in that order, before its aliases.
fn own_key<'a>(letter: Option<char>, long: Option<&'a [u8]>, n: usize) -> Option<KeyType<&'a [u8]>>
    ensures { option_map key_name result ≡ slice_get (own_names letter (option_map (λ x. x.now) long.entry)) n }
{
    match (letter, long, n) {
        (Some(letter), _, 0) => Some(KeyType::Short(letter)),
        (Some(_), Some(long), 1) | (None, Some(long), 0) => Some(KeyType::Long(long)),
        _ => None,
    }
}

fn own_key_count(letter: Option<char>, long: Option<&[u8]>) -> usize
    ensures { result ≡ length (own_names letter (option_map (λ x. x.now) long.entry)) }
{
    usize::from(letter.is_some()) + usize::from(long.is_some())
}

// how many keys the argument at the place has
fn arg_key_count<F: FormSource>(form: &F, place: usize) -> usize
    ensures { result ≡ length (names_at_place (F.FormSource.form form.now) place) }
{
    let arg = form.arg(place);
    if arg.index.is_some() {
        return 1;
    }
    let own = own_key_count(arg.letter, arg.long);
    let letters = form.letter_count(ItemList::LetterAliases, place);
    let longs = form.name_count(ItemList::LongAliases, place);
    own + letters + longs
}

// one of the keys of the argument at the place
fn arg_key<'a, F: FormSource>(form: &'a F, place: usize, n: usize) -> KeyType<&'a [u8]>
    requires { n < length (names_at_place (F.FormSource.form form.now) place) }
    ensures { Some (key_name result) ≡ slice_get (names_at_place (F.FormSource.form form.now) place) n }
{
    let arg = form.arg(place);
    if let Some(index) = arg.index {
        return KeyType::Position(index);
    }
    if let Some(own) = own_key(arg.letter, arg.long, n) {
        return own;
    }
    let n = n - own_key_count(arg.letter, arg.long);
    let letters = form.letter_count(ItemList::LetterAliases, place);
    if n < letters {
        return KeyType::Short(form.letter(ItemList::LetterAliases, place, n));
    }
    KeyType::Long(form.name(ItemList::LongAliases, place, n - letters))
}

/// How many keys a form has, worked out from its arguments: for sources that do not store their keys.
pub fn count_keys<F: FormSource>(form: &F) -> usize
    ensures { result ≡ length (keys_of (F.FormSource.form form.now)) }
{
    // not `sum`: that each total of it fits was tried, and the proof did not close
    let mut count = 0;
    for place in 0..form.arg_count() {
        count += arg_key_count(form, place);
    }
    count
}

/// A key of a form, or none past the last, worked out in the same way.
pub fn key_at<'a, F: FormSource>(form: &'a F, i: usize) -> Option<Key<&'a [u8]>>
    ensures { option_map shown_key result ≡ slice_get (keys_of (F.FormSource.form form.now)) i }
{
    // a chain of all keys and its `nth` would be no plainer: each key needs that it is one of its argument's
    let mut rest = i;
    for place in 0..form.arg_count() {
        let count = arg_key_count(form, place);
        if rest < count {
            return Some(Key {
                name: arg_key(form, place, rest),
                place,
            });
        }
        rest -= count;
    }
    None
}
