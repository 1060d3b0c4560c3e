ghost use Rattle.std.specs.Prelude.{◌≡◌};
ghost use Rattle.form.specs.declared.refusal.Refusal.TheVariants as refusal;

use form::Refusal;

/// A list that is shorter than the breaches of a form; refused with 109.
#[derive(Clone, Copy)]
pub struct ListShort {
    /// how many breaches there are
    pub needed: usize,
}

impl From<ListShort> for Refusal {
    ghost from_gives = { λ _ r. r ≡ refusal.ListShort };

    fn from(_short: ListShort) -> Refusal {
        Refusal::ListShort
    }
}
