ghost use Rattle.std.specs.Prelude.{◌≡◌};
ghost use Rattle.std.specs.Option.{ok_or};
ghost use Rattle.form.specs.Keys.{keys_of, first_key, position as position_key};
ghost use Rattle.form.specs.declared.refusal.Refusal.TheVariants.{NoSuchKey};
ghost use Rattle.calls.specs.Marked.{form_of};
ghost use Rattle.calls.specs.Calls.{argument, entered};
ghost use Rattle.calls.specs.Given.{arg_given};
ghost use Rattle.book.specs.Books.{open_marked};

use book::OpenBook;
use calls::ArgRecord;
use find::{ByPosition, find};
use form::{Refusal, ValueRange};

/// Enters an argument in an open book, and seeks a position in the built one. The states of a book are types: a program
/// that enters something in a built book, or finds something in an open one, does not compile.
pub fn enter_then_find(
    mut book: OpenBook,
    details: ArgRecord<&[u8], ValueRange>,
    position: u16,
) -> Result<usize, Refusal>
    ensures { result ≡ ok_or (first_key (position_key position) (keys_of (form_of (entered (open_marked book) (argument (arg_given details.entry)))))) NoSuchKey }
{
    let _ = book.enter_arg(details);
    let built = book.build();
    find::<_, ByPosition>(&built, position)
}
