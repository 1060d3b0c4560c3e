ghost use Rattle.std.specs.Prelude.{◌≡◌, map};
ghost use Rattle.std.specs.Str.{bytes_eq};
ghost use Rattle.rules.specs.Order.{some};
ghost use Rattle.rules.specs.Rows.{arg_ids, ids};

use form::FormSource;

/// Whether an argument has the name for its id.
pub(crate) fn names_argument<F: FormSource>(form: &F, name: &[u8]) -> bool
    ensures { result ≡ some (bytes_eq name.now) (arg_ids (F.FormSource.form form.now)) }
{
    (0..form.arg_count()).any(|place| name == form.arg(place).id)
}

/// Whether a group has the name for its id.
pub(crate) fn names_group<F: FormSource>(form: &F, name: &[u8]) -> bool
    ensures { result ≡ some (bytes_eq name.now) (map (λ g. g.id) (F.FormSource.form form.now).groups) }
{
    (0..form.group_count()).any(|place| name == form.group(place).id)
}

/// Whether an argument or a group has the name for its id.
pub(crate) fn names_entry<F: FormSource>(form: &F, name: &[u8]) -> bool
    ensures { result ≡ some (bytes_eq name.now) (ids (F.FormSource.form form.now)) }
{
    names_argument(form, name) || names_group(form, name)
}
