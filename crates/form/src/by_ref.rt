use super::app_settings::AppFlags;
use super::lists::ItemList;
use super::source::{FormSource, Keyed};
use super::views::{ArgView, GroupView, Key, SubcommandView};

/// A reference means the form that it points to, so a layer can lie over a form that it does not own.
impl<K: FormSource> FormSource for &K {
    ghost form = { λ s. K.FormSource.form s.now };

    ghost fits = { λ s. K.FormSource.fits s.now };

    fn settings(&self) -> AppFlags {
        (**self).settings()
    }

    fn is_cut(&self) -> bool {
        (**self).is_cut()
    }

    fn arg_count(&self) -> usize {
        (**self).arg_count()
    }

    fn group_count(&self) -> usize {
        (**self).group_count()
    }

    fn subcommand_count(&self) -> usize {
        (**self).subcommand_count()
    }

    fn arg(&self, place: usize) -> ArgView<'_> {
        (**self).arg(place)
    }

    fn group(&self, place: usize) -> GroupView<'_> {
        (**self).group(place)
    }

    fn subcommand(&self, place: usize) -> SubcommandView<'_> {
        (**self).subcommand(place)
    }

    fn name_count(&self, list: ItemList, place: usize) -> usize {
        (**self).name_count(list, place)
    }

    fn name(&self, list: ItemList, place: usize, item: usize) -> &[u8] {
        (**self).name(list, place, item)
    }

    fn letter_count(&self, list: ItemList, place: usize) -> usize {
        (**self).letter_count(list, place)
    }

    fn letter(&self, list: ItemList, place: usize, item: usize) -> char {
        (**self).letter(list, place, item)
    }
}

impl<K: Keyed> Keyed for &K {
    fn key_count(&self) -> usize {
        (**self).key_count()
    }

    fn key(&self, i: usize) -> Option<Key<&[u8]>> {
        (**self).key(i)
    }
}
