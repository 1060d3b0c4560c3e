//! Runs of calls on one book, and the law over a whole run.
#![tactic(auto)]

mod answer;
mod ask;
mod book_held;
mod change;
mod held;
mod ranged;
mod run;
mod under;

pub use answer::Answer;
pub use book_held::HeldBook;
pub use run::{replay, replay_under};
pub use under::Layers;

#[cfg(test)]
mod tests {
    use super::{Answer, replay};
    use calls::{ArgRecord, Bounds, Call, Item, Record};
    use form::{ArgAction, Refusal};
    use std::test::Fail;

    fn commit() -> Record<&'static [u8], Bounds> {
        Record::Argument(ArgRecord {
            id: b"commit",
            long: Some(b"commit"),
            letter: None,
            index: None,
            settings: 0,
            action: ArgAction::SetTrue,
            terminated: false,
            range: Some(Bounds { least: 0, most: 0 }),
        })
    }

    // how many breaches an answer lists
    fn listed(answer: Option<&Answer>) -> Option<usize> {
        match answer {
            Some(Answer::Listed(breaches)) => Some(breaches.len()),
            _ => None,
        }
    }

    // a conflict names a group, which is then struck: the conflict names nothing from then on
    #[test]
    fn a_struck_group_is_missed(rt: HostRuntime) -> Result<(), Fail> {
        let calls: [Call<&'static [u8]>; 9] = [
            Call::Enter(commit()),
            Call::Enter(Record::Group(b"unpaid")),
            Call::Attach(1, 6, Item::Name(b"unpaid")),
            Call::Build,
            Call::Report(8),
            Call::Reopen,
            Call::Strike(2),
            Call::Build,
            Call::Report(8),
        ];
        let answers = replay(rt.alloc(), &calls)?;
        assert!(rt; answers.len() == 9);
        assert!(rt; listed(answers.get(4)) == Some(0));
        assert!(rt; listed(answers.get(8)) == Some(1));
        Ok(())
    }

    #[test]
    fn a_refused_call_is_answered_by_its_number(rt: HostRuntime) -> Result<(), Fail> {
        let calls: [Call<&'static [u8]>; 3] = [
            Call::Enter(Record::Group(b"")),
            Call::Strike(1),
            Call::Report(8),
        ];
        let answers = replay(rt.alloc(), &calls)?;
        assert!(rt; matches!(answers.get(0), Some(Answer::Refused(Refusal::NameLength))));
        assert!(rt; matches!(answers.get(1), Some(Answer::Refused(Refusal::NoSuchMark))));
        assert!(rt; matches!(answers.get(2), Some(Answer::NotNow)));
        Ok(())
    }
}
