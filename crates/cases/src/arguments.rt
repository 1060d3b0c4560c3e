use super::shown::*;
use form::{ArgAction, ArgView};
use std::test::Fail;
use table::ArgRow;

#[test]
fn an_argument_that_conflicts_with_itself(rt: HostRuntime) -> Result<(), Fail> {
    let heap = rt.alloc();
    let second = ArgRow {
        arg: option(b"a"),
        conflicts: &[b"b", b"a"],
        ..ArgRow::new(b"a")
    };
    let args = [second, row(option(b"b"))];
    expect_args(heap, 0, &args, "breaches 1\n4 a0 - 6 1 0\n")?;
    let other = ArgRow {
        arg: option(b"a"),
        conflicts: &[b"b"],
        ..ArgRow::new(b"a")
    };
    let args = [other, row(option(b"b"))];
    expect_args(heap, 0, &args, SOUND)
}

#[test]
fn more_values_than_the_action_allows(rt: HostRuntime) -> Result<(), Fail> {
    let heap = rt.alloc();
    let broken = "breaches 1\n5 a0 - 0 0 0\n";
    let a = option(b"a");
    expect_one(heap, 0, with_action(a, ArgAction::Count), broken)?;
    expect_one(
        heap,
        0,
        ranged(with_action(a, ArgAction::Count), 0, 0),
        SOUND,
    )?;
    expect_one(
        heap,
        0,
        ranged(with_action(a, ArgAction::SetTrue), 0, 2),
        broken,
    )?;
    expect_one(
        heap,
        0,
        ranged(with_action(a, ArgAction::SetTrue), 0, 1),
        SOUND,
    )?;
    expect_one(heap, 0, with_action(a, ArgAction::SetFalse), SOUND)?;
    expect_one(
        heap,
        0,
        ranged(with_action(a, ArgAction::Help), 0, 1),
        broken,
    )?;
    expect_one(heap, 64, with_action(a, ArgAction::Version), broken)?;
    expect_one(
        heap,
        0,
        ranged(with_action(a, ArgAction::Append), 0, u64::MAX),
        SOUND,
    )?;
    expect_one(heap, 0, ranged(a, 0, u64::MAX), SOUND)
}

#[test]
fn indices(rt: HostRuntime) -> Result<(), Fail> {
    let heap = rt.alloc();
    let first = place(b"a", 1);
    let beside_a_flag = "breaches 1\n9 a0 - 0 0 0\n";
    expect_one(heap, 0, first, SOUND)?;
    expect_one(
        heap,
        0,
        ArgView {
            index: Some(1),
            ..short(b"a", 'a')
        },
        beside_a_flag,
    )?;
    expect_one(
        heap,
        0,
        ArgView {
            index: Some(1),
            ..option(b"a")
        },
        beside_a_flag,
    )?;
    expect_one(
        heap,
        0,
        place(b"a", 0),
        "breaches 2\n10 a0 - 0 0 0\n40 - - 0 0 0\n",
    )?;
    let args = [row(place(b"a", 0)), row(place(b"b", 2))];
    expect_args(heap, 0, &args, "breaches 1\n10 a0 - 0 0 0\n")
}

#[test]
fn indices_and_values(rt: HostRuntime) -> Result<(), Fail> {
    let heap = rt.alloc();
    let first = place(b"a", 1);
    expect_one(heap, 0, ranged(first, 0, 0), "breaches 1\n11 a0 - 0 0 0\n")?;
    expect_one(heap, 0, ranged(first, 0, 1), SOUND)?;
    expect_one(
        heap,
        0,
        ArgView {
            index: None,
            ..first
        },
        "breaches 1\n12 a0 - 0 0 0\n",
    )?;
    expect_one(heap, 0, short(b"a", 'a'), SOUND)
}

#[test]
fn ranges(rt: HostRuntime) -> Result<(), Fail> {
    let heap = rt.alloc();
    let unset = ArgView {
        range: None,
        ..option(b"a")
    };
    expect_one(heap, 0, unset, "breaches 1\n13 a0 - 0 0 0\n")?;
    let counted = with_action(unset, ArgAction::Count);
    expect_one(
        heap,
        0,
        counted,
        "breaches 2\n5 a0 - 0 0 0\n13 a0 - 0 0 0\n",
    )?;
    let equals = with_bits(option(b"a"), EQUALS);
    expect_one(heap, 0, equals, SOUND)?;
    expect_one(heap, 0, ranged(equals, 2, 2), "breaches 1\n15 a0 - 0 0 0\n")?;
    expect_one(heap, 0, ranged(equals, 1, 9), SOUND)?;
    expect_one(heap, 0, ranged(option(b"a"), 2, 2), SOUND)
}

#[test]
fn settings_that_want_values(rt: HostRuntime) -> Result<(), Fail> {
    let heap = rt.alloc();
    let none = ranged(option(b"a"), 0, 0);
    let of_values = 16 + 32 + 64 + 128 + 1024 + 2048;
    let six =
        "breaches 6\n16 a0 - 0 4 0\n16 a0 - 0 5 0\n16 a0 - 0 6 0\n16 a0 - 0 7 0\n16 a0 - 0 10 0\n16 a0 - 0 11 0\n";
    expect_one(heap, 0, with_bits(none, of_values), six)?;
    expect_one(heap, 0, with_bits(option(b"a"), of_values), SOUND)?;
    expect_one(
        heap,
        0,
        with_bits(none, LAST),
        "breaches 2\n16 a0 - 0 8 0\n26 a0 - 0 0 0\n",
    )?;
    expect_one(heap, 0, with_bits(none, REQUIRED + 4 + 8), SOUND)?;
    expect_one(heap, 0, with_bits(none, GLOBAL), SOUND)?;
    expect_one(
        heap,
        0,
        with_bits(none, TRAILING),
        "breaches 1\n42 a0 - 0 0 0\n",
    )
}

#[test]
fn dashes_last_and_global(rt: HostRuntime) -> Result<(), Fail> {
    let heap = rt.alloc();
    expect_one(heap, 0, option(b"-a"), "breaches 1\n18 a0 - 0 0 0\n")?;
    expect_one(heap, 0, option(b"a-"), SOUND)?;
    let alias = ArgRow {
        arg: option(b"a"),
        long_aliases: &[b"-b"],
        ..ArgRow::new(b"a")
    };
    let args = [alias];
    expect_args(heap, 0, &args, SOUND)?;
    expect_one(
        heap,
        0,
        with_bits(option(b"a"), LAST),
        "breaches 1\n26 a0 - 0 0 0\n",
    )?;
    expect_one(
        heap,
        0,
        with_bits(short(b"a", 'a'), LAST),
        "breaches 1\n27 a0 - 0 0 0\n",
    )?;
    expect_one(heap, 0, with_bits(place(b"a", 1), LAST), SOUND)?;
    expect_one(
        heap,
        0,
        with_bits(option(b"a"), REQUIRED + GLOBAL),
        "breaches 1\n28 a0 - 0 0 0\n",
    )?;
    expect_one(heap, 0, with_bits(option(b"a"), REQUIRED), SOUND)?;
    expect_one(heap, 0, with_bits(option(b"a"), GLOBAL), SOUND)
}
