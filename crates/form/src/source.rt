ghost use Rattle.std.specs.Prelude.{◌≡◌, ℕ, [], length, slice_index, slice_index_or};
ghost use Rattle.std.specs.Option.{option_map};
ghost use Rattle.std.specs.List.{slice_get};
ghost use Rattle.form.specs.Model.{Form, blank_arg, blank_group, blank_subcommand};
ghost use Rattle.form.specs.Limits.{Fits};
ghost use Rattle.form.specs.Lists.{names_at, letters_at};
ghost use Rattle.form.specs.Keys.{keys_of};
ghost use Rattle.form.specs.Shown.{shown, arg_record, shown_subcommand, subcommand_record, shown_key};

use super::app_settings::AppFlags;
use super::lists::ItemList;
use super::views::{ArgView, GroupView, Key, SubcommandView};

/// Something that means a form. Past an end it shows 0 or a blank record; no question is refused or alters the form.
// Entries and items are asked for by place, and not by iterators over them: a breach tells the place.
pub trait FormSource {
    // the form that the source means
    ghost form: { Self → Form };

    // it is within the limits of a form
    ghost fits: { (s : Self) → Fits (form s) };

    /// The settings of the form.
    fn settings(&self) -> AppFlags
        ensures { result.bits ≡ (form self.now).settings };

    /// Whether something was cut off the form.
    fn is_cut(&self) -> bool
        ensures { result ≡ (form self.now).cut };

    fn arg_count(&self) -> usize
        ensures { result ≡ length (form self.now).args };

    fn group_count(&self) -> usize
        ensures { result ≡ length (form self.now).groups };

    fn subcommand_count(&self) -> usize
        ensures { result ≡ length (form self.now).subcommands };

    fn arg(&self, place: usize) -> ArgView<'_>
        ensures { shown result ≡ arg_record (slice_index_or (form self.now).args place blank_arg) };

    fn group(&self, place: usize) -> GroupView<'_>
        ensures { result.id.now ≡ (slice_index_or (form self.now).groups place blank_group).id };

    fn subcommand(&self, place: usize) -> SubcommandView<'_>
        ensures { shown_subcommand result ≡ subcommand_record (slice_index_or (form self.now).subcommands place blank_subcommand) };

    /// How many names the list of the entry at the place has; 0 for a list of letters.
    fn name_count(&self, list: ItemList, place: usize) -> usize
        ensures { result ≡ length (names_at (form self.now) list place) };

    /// A name of the list; empty past its end.
    fn name(&self, list: ItemList, place: usize, item: usize) -> &[u8]
        ensures { result.now ≡ slice_index_or (names_at (form self.now) list place) item [] };

    /// How many letters the list of the entry at the place has; 0 for a list of names.
    fn letter_count(&self, list: ItemList, place: usize) -> usize
        ensures { result ≡ length (letters_at (form self.now) list place) };

    /// A letter of the list; U+0000 past its end.
    fn letter(&self, list: ItemList, place: usize, item: usize) -> char
        ensures { result ≡ slice_index (letters_at (form self.now) list place) item };
}

/// A source that also tells the keys of its form.
pub trait Keyed: FormSource {
    fn key_count(&self) -> usize
        ensures { result ≡ length (keys_of (Self.FormSource.form self.now)) };

    /// A key, or none past the last.
    fn key(&self, i: usize) -> Option<Key<&[u8]>>
        ensures { option_map shown_key result ≡ slice_get (keys_of (Self.FormSource.form self.now)) i };
}
