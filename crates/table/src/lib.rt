//! Keyed forms over constant tables in code: for definitions that a program keeps itself, and for tests and examples.
#![tactic(auto)]

mod listed;
mod rows;
mod source;
mod table_form;
mod tables;

use form::{FormSource, Keyed};
pub use rows::{ArgRow, GroupRow, SubcommandRow};
pub use table_form::TableForm;

#[cfg(test)]
mod tests {
    use super::*;
    use form::{AppFlags, ArgView, FormSource, ItemList, Keyed};

    // -c --config, with an alias -k; it needs the first position
    fn config() -> ArgRow<'static> {
        ArgRow {
            arg: ArgView {
                letter: Some('c'),
                long: Some(b"config"),
                ..ArgView::new(b"config")
            },
            requirements: &[b"input"],
            letter_aliases: &['k'],
            ..ArgRow::new(b"config")
        }
    }

    fn input() -> ArgRow<'static> {
        ArgRow {
            arg: ArgView {
                index: Some(1),
                ..ArgView::new(b"input")
            },
            ..ArgRow::new(b"input")
        }
    }

    #[test]
    fn a_small_definition(rt: HostRuntime) {
        let args = [config(), input()];
        let form = TableForm::of_args(AppFlags::from_bits(0), &args);
        assert!(rt; form.check().is_ok());
        assert!(rt; form.arg_count() == 2);
        assert!(rt; form.name_count(ItemList::Requires, 0) == 1);
        assert!(rt; form.key_count() == 4);
        assert!(rt; form.key(3).is_some());
        assert!(rt; form.key(4).is_none());
    }

    #[test]
    fn too_many_groups_are_refused(rt: HostRuntime) {
        let args: [ArgRow<'static>; 0] = [];
        let groups: [GroupRow<'static>; 17] = [GroupRow::new(b"g"); 17];
        let subcommands: [SubcommandRow<'static>; 0] = [];
        let form = TableForm::new(AppFlags::from_bits(0), &args, &groups, &subcommands);
        assert!(rt; form.check().is_err());
        assert!(rt; form.group_count() == 0);
        assert!(rt;
            TableForm::try_new(AppFlags::from_bits(0), &args, &groups, &subcommands).is_err()
        );
    }

    #[test]
    fn tables_within_the_limits_are_taken(rt: HostRuntime) {
        let args = [config(), input()];
        let taken = TableForm::try_new(AppFlags::from_bits(0), &args, &[], &[]);
        assert!(rt; taken.is_ok_and(|form| form.arg_count() == 2));
    }
}
