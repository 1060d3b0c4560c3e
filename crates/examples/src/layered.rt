ghost use Rattle.std.specs.Prelude.{◌≡◌, length};
ghost use Rattle.layers.specs.Flags.{with_flags};
ghost use Rattle.report.specs.Answers.{report_answer, reported};
ghost use Rattle.rules.specs.Report.{breaches};

use form::{FormSource, Keyed};
use layers::StandardFlags;
use report::{ListShort, report};
use rules::Breach;

/// A report under two layers of standard flags, over any keyed form: what holds of `report` holds of the pile.
pub fn report_under_flags<K: Keyed>(form: &K, list: &mut [Breach]) -> Result<usize, ListShort>
    ensures answer { result ≡ report_answer (breaches (with_flags (with_flags (K.FormSource.form form.now)))) (length list.old) }
    ensures list { list.new ≡ reported (breaches (with_flags (with_flags (K.FormSource.form form.now)))) list.old }
{
    let once = StandardFlags::new(form);
    let twice = StandardFlags::new(once);
    report(&twice, list)
}
