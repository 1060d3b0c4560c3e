ghost use Rattle.std.specs.Prelude.{◌≡◌, length};
ghost use Rattle.std.specs.List.{slice_get};
ghost use Rattle.std.specs.Option.{option_map};
ghost use Rattle.form.specs.Keys.{keys_of};
ghost use Rattle.layers.specs.Flags.{wants_help, wants_version, wanted, with_flags};
ghost use Rattle.layers.specs.Room.{fitting};
ghost use Rattle.layers.specs.Named.{flag_arg};
ghost use Rattle.layers.specs.Fitted.{flags_fit};

use super::flag::Flag;
use form::{
    AppFlags, AppSettings, ArgView, FormSource, GroupView, ItemList, Key, KeyType, Keyed, MAX_ARGS,
    SubcommandView,
};

/// The form below with its standard flags: after its own arguments stand one for help and one for the version,
/// as far as its settings want them and there is room.
#[derive(Clone, Copy)]
pub struct StandardFlags<K> {
    pub inner: K,
}

impl<K> StandardFlags<K> {
    /// Lays the standard flags over a form, or over a reference to one.
    pub fn new(inner: K) -> StandardFlags<K>
        ensures { result.inner ≡ inner }
    {
        StandardFlags { inner }
    }
}

impl<K: FormSource> StandardFlags<K> {
    fn wants_help(&self) -> bool
        ensures { result ≡ wants_help (K.FormSource.form self.now.inner) }
    {
        !self.inner.settings().is_set(AppSettings::DisableHelpFlag)
    }

    fn wants_version(&self) -> bool
        ensures { result ≡ wants_version (K.FormSource.form self.now.inner) }
    {
        let settings = self.inner.settings();
        !settings.is_set(AppSettings::DisableVersionFlag)
            && settings.is_set(AppSettings::HasVersion)
    }

    // how many flags are wanted
    fn wanted_count(&self) -> usize
        ensures { result ≡ length (wanted (K.FormSource.form self.now.inner)) }
    {
        usize::from(self.wants_help()) + usize::from(self.wants_version())
    }

    // how many of them find room
    fn flag_count(&self) -> usize
        ensures { result ≡ length (fitting (K.FormSource.form self.now.inner)) }
    {
        self.wanted_count().min(MAX_ARGS - self.inner.arg_count())
    }

    // a flag that finds room, or none past the last
    fn flag(&self, n: usize) -> Option<Flag>
        ensures { option_map flag_arg result ≡ slice_get (fitting (K.FormSource.form self.now.inner)) n }
    {
        if n >= self.flag_count() {
            None
        } else if n == 0 && self.wants_help() {
            Some(Flag::Help)
        } else {
            Some(Flag::Version)
        }
    }
}

impl<K: FormSource> FormSource for StandardFlags<K> {
    ghost form = { λ s. with_flags (K.FormSource.form s.inner) };

    ghost fits = { λ s. flags_fit (K.FormSource.form s.inner) (K.FormSource.fits s.inner) };

    fn settings(&self) -> AppFlags {
        self.inner.settings()
    }

    fn is_cut(&self) -> bool {
        self.inner.is_cut() || self.inner.arg_count() + self.wanted_count() > MAX_ARGS
    }

    fn arg_count(&self) -> usize {
        self.inner.arg_count() + self.flag_count()
    }

    fn group_count(&self) -> usize {
        self.inner.group_count()
    }

    fn subcommand_count(&self) -> usize {
        self.inner.subcommand_count()
    }

    fn arg(&self, place: usize) -> ArgView<'_> {
        let own = self.inner.arg_count();
        if place < own {
            return self.inner.arg(place);
        }
        match self.flag(place - own) {
            Some(flag) => flag.view(),
            None => ArgView::new(b""),
        }
    }

    fn group(&self, place: usize) -> GroupView<'_> {
        self.inner.group(place)
    }

    fn subcommand(&self, place: usize) -> SubcommandView<'_> {
        self.inner.subcommand(place)
    }

    fn name_count(&self, list: ItemList, place: usize) -> usize {
        self.inner.name_count(list, place)
    }

    fn name(&self, list: ItemList, place: usize, item: usize) -> &[u8] {
        self.inner.name(list, place, item)
    }

    fn letter_count(&self, list: ItemList, place: usize) -> usize {
        self.inner.letter_count(list, place)
    }

    fn letter(&self, list: ItemList, place: usize, item: usize) -> char {
        self.inner.letter(list, place, item)
    }
}

impl<K: Keyed> Keyed for StandardFlags<K> {
    fn key_count(&self) -> usize {
        self.inner.key_count() + 2 * self.flag_count()
    }

    // a flag has two keys, its letter and its long name
    fn key(&self, i: usize) -> Option<Key<&[u8]>> {
        let own = self.inner.key_count();
        if i < own {
            return self.inner.key(i);
        }
        let n = (i - own) / 2;
        let flag = self.flag(n)?;
        let name = if (i - own) % 2 == 0 {
            KeyType::Short(flag.letter())
        } else {
            KeyType::Long(flag.name())
        };
        Some(Key {
            name,
            place: self.inner.arg_count() + n,
        })
    }
}

/// The number of keys of a form with the standard flags laid over it twice.
pub fn pile_key_count<F: Keyed>(form: &F) -> usize
    ensures { result ≡ length (keys_of (with_flags (with_flags (F.FormSource.form form.now)))) }
{
    StandardFlags::new(StandardFlags::new(form)).key_count()
}
