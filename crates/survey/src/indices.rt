ghost use Rattle.std.specs.Prelude.{◌≡◌};
ghost use Rattle.rules.specs.Rows as rows;
ghost use Rattle.rules.specs.Words as words;

use form::FormSource;

/// What a form's indices come to: how many there are, and the highest, 0 where there is none.
#[derive(Clone, Copy)]
pub struct Positions {
    pub count: usize,
    pub highest: u16,
}

/// The indices of the form, counted.
// One walk for both: a chain for each would be no plainer, and ask the source for every argument twice.
pub(crate) fn count_positions<F: FormSource>(form: &F) -> Positions
    ensures count { result.count ≡ words.position_count (F.FormSource.form form.now) }
    ensures highest { result.highest ≡ rows.highest (F.FormSource.form form.now) }
{
    let mut count = 0;
    let mut highest = 0;
    // over places: each breach tells its own
    for place in 0..form.arg_count() {
        if let Some(index) = form.arg(place).index {
            count += 1;
            highest = index.max(highest);
        }
    }
    Positions { count, highest }
}
