ghost use Rattle.std.specs.Prelude.{◌≡◌, ◌<◌, length};
ghost use Rattle.rules.specs.Told.{argument};
ghost use Rattle.looks.specs.Records.{Shows};

use form::{ArgView, FormSource};
use rules::Entry;
use sinks::argument_at;

/// An argument of a form, with its place.
#[derive(Drop)]
pub(crate) struct ArgAt<'a, F: FormSource> {
    pub form: &'a F,
    pub place: usize,
    pub arg: ArgView<'a>,
    ghost shows: { Shows (F.FormSource.form form.now) place arg },
    ghost stands: { place < length (F.FormSource.form form.now).args },
}

impl<'a, F: FormSource> ArgAt<'a, F> {
    pub(crate) fn new(form: &'a F, place: usize) -> ArgAt<'a, F>
        requires { place < length (F.FormSource.form form.now).args }
        ensures form { F.FormSource.form result.form.now ≡ F.FormSource.form form.now }
        ensures place { result.place ≡ place }
    {
        ArgAt {
            form,
            place,
            arg: form.arg(place),
        }
    }

    /// The argument, as a breach names it.
    pub(crate) fn entry(&self) -> Entry
        ensures { result ≡ argument self.now.place }
    {
        argument_at(self.place)
    }
}
