ghost use Rattle.std.specs.Prelude.{◌≡◌, Some};
ghost use Rattle.form.specs.Shown.{shown, arg_record};
ghost use Rattle.layers.specs.Named.{flag_arg};

use form::{ArgAction, ArgView, ValueRange};

// One of the two standard flags.
#[derive(Clone, Copy)]
pub(crate) enum Flag {
    Help,
    Version,
}

// A match for each part, since a key is told by its letter or its name alone.
impl Flag {
    pub(crate) fn name(self) -> &'static [u8]
        ensures { result.now ≡ (flag_arg self).id }
    {
        match self {
            Flag::Help => b"help",
            Flag::Version => b"version",
        }
    }

    pub(crate) fn letter(self) -> char
        ensures { Some result ≡ (flag_arg self).letter }
    {
        match self {
            Flag::Help => 'h',
            Flag::Version => 'V',
        }
    }

    pub(crate) fn action(self) -> ArgAction
        ensures { result ≡ (flag_arg self).action }
    {
        match self {
            Flag::Help => ArgAction::Help,
            Flag::Version => ArgAction::Version,
        }
    }

    // the argument's record
    pub(crate) fn view(self) -> ArgView<'static>
        ensures { shown result ≡ arg_record (flag_arg self) }
    {
        ArgView {
            long: Some(self.name()),
            letter: Some(self.letter()),
            action: self.action(),
            range: Some(ValueRange::EMPTY),
            ..ArgView::new(self.name())
        }
    }
}
