ghost use Rattle.std.specs.Prelude.{◌≡◌, ℕ, [], length, take, IfOk, Ok};
ghost use Rattle.rules.specs.Rank.{Lists};
ghost use Rattle.rules.specs.Report.{breaches};
ghost use Rattle.rules.specs.Tidy.{Tidy};
ghost use Rattle.report.specs.Answers.{report_answer, reported, first_of};
ghost use Rattle.sinks.specs.Sinks.{fold, bump, put};

use super::short::ListShort;
use form::FormSource;
use rules::Breach;
use sinks::{Count, Fill, First};
use std::alloc::{AllocError, Global};
use survey::survey;

/// Lists every breach of the form, each once, in order, at the front of the list, and answers their number.
/// A list that is shorter is refused with 109 and the number needed, and left as it was.
pub fn report<F: FormSource>(form: &F, list: &mut [Breach]) -> Result<usize, ListShort>
    ensures answer { result ≡ report_answer (breaches (F.FormSource.form form.now)) (length list.old) }
    ensures list { list.new ≡ reported (breaches (F.FormSource.form form.now)) list.old }
    ensures lists { (n : ℕ) → result ≡ Ok n → Lists (F.FormSource.form form.now) (take n list.new) }
    ensures tidy { result ≡ Ok 0 → Tidy (F.FormSource.form form.now) }
{
    let needed = count(form);
    if list.len() < needed {
        return Err(ListShort { needed });
    }
    fill(form, list);
    Ok(needed)
}

// the number of breaches
fn count<F: FormSource>(form: &F) -> usize
    ensures { result ≡ fold bump 0 (breaches (F.FormSource.form form.now)) }
{
    let mut counted = Count { count: 0 };
    let _ = survey(form, &mut counted);
    counted.count
}

// writes the breaches into the list, as far as it reaches
fn fill<F: FormSource>(form: &F, list: &mut [Breach])
    ensures { list.new ≡ (fold put (list.old, 0) (breaches (F.FormSource.form form.now))).0 }
{
    let mut filled = Fill {
        room: list,
        count: 0,
    };
    let _ = survey(form, &mut filled);
}

/// The first breach of the report, or none; the survey stops there.
pub fn first<F: FormSource>(form: &F) -> Option<Breach>
    ensures value { result ≡ first_of (breaches (F.FormSource.form form.now)) }
{
    let mut found = First { kept: None };
    let _ = survey(form, &mut found);
    found.kept
}

/// Every breach of the form, each once, in order, in a list made for them.
pub fn report_all<F: FormSource>(heap: Global, form: &F) -> Result<Vec<Breach>, AllocError>
    ensures value { IfOk result (λ v. v.items ≡ breaches (F.FormSource.form form.now)) }
    ensures lists { IfOk result (λ v. Lists (F.FormSource.form form.now) v.items) }
{
    let mut list = vec![in heap; Breach::UNUSED; count(form)]?;
    fill(form, list.as_mut_slice());
    Ok(list)
}
