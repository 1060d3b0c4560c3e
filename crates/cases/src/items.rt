use super::shown::*;
use std::test::Fail;
use table::{ArgRow, GroupRow, SubcommandRow};

#[test]
fn an_argument_that_requires_itself(rt: HostRuntime) -> Result<(), Fail> {
    let heap = rt.alloc();
    let own = ArgRow {
        arg: option(b"a"),
        requirements: &[b"b", b"a"],
        ..ArgRow::new(b"a")
    };
    let args = [own, row(option(b"b"))];
    expect_args(heap, 0, &args, "breaches 1\n23 a0 - 1 1 0\n")?;
    let harmless = ArgRow {
        arg: option(b"a"),
        requirements: &[b"b"],
        r_ifs: &[b"a"],
        overrides: &[b"a"],
        ..ArgRow::new(b"a")
    };
    let args = [harmless, row(option(b"b"))];
    expect_args(heap, 0, &args, SOUND)
}

#[test]
fn a_required_argument_with_conditions(rt: HostRuntime) -> Result<(), Fail> {
    let heap = rt.alloc();
    let b = row(option(b"b"));
    let optional = ArgRow {
        arg: option(b"a"),
        r_ifs: &[b"b"],
        r_ifs_all: &[b"b"],
        r_unless: &[b"b"],
        r_unless_all: &[b"b", b"b"],
        ..ArgRow::new(b"a")
    };
    let args = [optional, b];
    expect_args(heap, 0, &args, SOUND)?;
    let required = ArgRow {
        arg: with_bits(option(b"a"), REQUIRED),
        ..optional
    };
    let args = [required, b];
    let each =
        "breaches 5\n24 a0 - 2 0 0\n24 a0 - 3 0 0\n24 a0 - 4 0 0\n24 a0 - 5 0 0\n24 a0 - 5 1 0\n";
    expect_args(heap, 0, &args, each)?;
    let other = ArgRow {
        arg: with_bits(option(b"a"), REQUIRED),
        requirements: &[b"b"],
        conflicts: &[b"b"],
        overrides: &[b"b"],
        ..ArgRow::new(b"a")
    };
    let args = [other, b];
    expect_args(heap, 0, &args, SOUND)?;
    let args = [required];
    let both =
        "breaches 10\n24 a0 - 2 0 0\n25 a0 - 2 0 0\n24 a0 - 3 0 0\n25 a0 - 3 0 0\n24 a0 - 4 0 0\n25 a0 - 4 0 0\n24 a0 - 5 0 0\n25 a0 - 5 0 0\n24 a0 - 5 1 0\n25 a0 - 5 1 0\n";
    expect_args(heap, 0, &args, both)
}

#[test]
fn references_that_meet_nothing(rt: HostRuntime) -> Result<(), Fail> {
    let heap = rt.alloc();
    let all = ArgRow {
        arg: option(b"a"),
        requirements: &[b"x"],
        r_ifs: &[b"x"],
        r_ifs_all: &[b"x"],
        r_unless: &[b"x"],
        r_unless_all: &[b"x"],
        conflicts: &[b"b", b"x"],
        overrides: &[b"x"],
        long_aliases: &[b"z"],
        letter_aliases: &['z'],
    };
    let args = [all, row(option(b"b"))];
    let each =
        "breaches 7\n25 a0 - 1 0 0\n25 a0 - 2 0 0\n25 a0 - 3 0 0\n25 a0 - 4 0 0\n25 a0 - 5 0 0\n25 a0 - 6 1 0\n25 a0 - 7 0 0\n";
    expect_args(heap, 0, &args, each)?;
    let x = [GroupRow::new(b"x")];
    let none: [SubcommandRow<'static>; 0] = [];
    expect(heap, 0, &args, &x, &none, SOUND)?;
    let args = [all, row(option(b"b")), row(option(b"x"))];
    expect_args(heap, 0, &args, SOUND)
}

#[test]
fn a_conflict_that_names_only_a_subcommand(rt: HostRuntime) -> Result<(), Fail> {
    let heap = rt.alloc();
    let conflict = ArgRow {
        arg: option(b"a"),
        conflicts: &[b"x"],
        ..ArgRow::new(b"a")
    };
    let args = [conflict];
    let none: [GroupRow<'static>; 0] = [];
    let x = [SubcommandRow::new(b"x")];
    expect(heap, 0, &args, &none, &x, "breaches 1\n25 a0 - 6 0 0\n")?;
    let groups = [GroupRow::new(b"x")];
    expect(heap, 0, &args, &groups, &x, SOUND)
}

#[test]
fn references_of_groups(rt: HostRuntime) -> Result<(), Fail> {
    let heap = rt.alloc();
    let args = [row(option(b"a"))];
    let h = GroupRow::new(b"h");
    let none: [SubcommandRow<'static>; 0] = [];
    let x = [SubcommandRow::new(b"x")];
    let missing = GroupRow {
        members: &[b"a", b"x", b"h"],
        requirements: &[b"x", b"h"],
        conflicts: &[b"a", b"h", b"x"],
        ..GroupRow::new(b"g")
    };
    let groups = [missing, h];
    let each = "breaches 4\n33 g0 - 10 1 0\n33 g0 - 10 2 0\n34 g0 - 11 0 0\n35 g0 - 12 2 0\n";
    expect(heap, 0, &args, &groups, &none, each)?;
    expect(heap, 0, &args, &groups, &x, each)?;
    let groups = [missing, h, GroupRow::new(b"x")];
    let of_members = "breaches 2\n33 g0 - 10 1 0\n33 g0 - 10 2 0\n";
    expect(heap, 0, &args, &groups, &none, of_members)?;
    let met = GroupRow {
        members: &[b"a"],
        requirements: &[b"a", b"h", b"g"],
        conflicts: &[b"h", b"g"],
        ..GroupRow::new(b"g")
    };
    let groups = [met, h];
    expect(heap, 0, &args, &groups, &none, SOUND)
}
