ghost use Rattle.std.specs.Prelude.{◌≡◌};
ghost use Rattle.std.specs.Option.{ok_or};
ghost use Rattle.form.specs.Keys.{keys_of, first_key};
ghost use Rattle.form.specs.declared.refusal.Refusal.TheVariants.{NoSuchKey};
ghost use Rattle.find.specs.Found.{Found};

use super::by_kind::KeyKind;
use form::{FormSource, Keyed, Refusal};

/// The place of the argument of the first key that is the one sought; refused with 110 where there is none.
pub fn find<F: Keyed, K: KeyKind>(form: &F, sought: K::Sought) -> Result<usize, Refusal>
    ensures value { result ≡ ok_or (first_key (K.KeyKind.key sought) (keys_of (F.FormSource.form form.now))) NoSuchKey }
    ensures means { Found (K.KeyKind.key sought) (keys_of (F.FormSource.form form.now)) result }
{
    // not `find_map` over the places: that was tried, and the proof did not close
    for i in 0..form.key_count() {
        let key = form.key(i).ok_or(Refusal::NoSuchKey)?;
        if K::matches(key.name, sought) {
            return Ok(key.place);
        }
    }
    Err(Refusal::NoSuchKey)
}
