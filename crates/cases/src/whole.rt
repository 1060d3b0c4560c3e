use super::shown::*;
use form::{ArgAction, ArgView, SubcommandView};
use std::test::Fail;
use table::{ArgRow, GroupRow, SubcommandRow};

const MULTICALL: u16 = 1;

const NO_BINARY_NAME: u16 = 2;

const PROPAGATE: u16 = 4;

const NEGATE: u16 = 8;

const VERSION: u16 = 64;

#[test]
fn versions_and_multicall(rt: HostRuntime) -> Result<(), Fail> {
    let heap = rt.alloc();
    let none: [ArgRow<'static>; 0] = [];
    expect_args(heap, PROPAGATE, &none, "breaches 1\n1 - - 0 0 0\n")?;
    expect_args(heap, PROPAGATE + VERSION, &none, SOUND)?;
    let version = ranged(with_action(option(b"a"), ArgAction::Version), 0, 0);
    expect_one(heap, 0, version, "breaches 1\n2 a0 - 0 0 0\n")?;
    expect_one(heap, VERSION, version, SOUND)?;
    let args = [row(option(b"a")), row(option(b"b"))];
    expect_args(
        heap,
        MULTICALL,
        &args,
        "breaches 2\n17 a0 - 0 0 0\n17 a1 - 0 0 0\n",
    )?;
    expect_args(heap, NO_BINARY_NAME, &args, SOUND)?;
    expect_args(heap, MULTICALL, &none, SOUND)?;
    expect_args(
        heap,
        MULTICALL + NO_BINARY_NAME,
        &none,
        "breaches 1\n50 - - 0 0 0\n",
    )
}

#[test]
fn gaps_between_positions(rt: HostRuntime) -> Result<(), Fail> {
    let heap = rt.alloc();
    let gap = "breaches 1\n40 - - 0 0 0\n";
    let args = [row(place(b"a", 1)), row(place(b"b", 3))];
    expect_args(heap, 0, &args, gap)?;
    let args = [row(place(b"a", 1)), row(place(b"b", 2))];
    expect_args(heap, 0, &args, SOUND)?;
    let args = [row(ranged(place(b"a", 1), 1, 9)), row(place(b"b", 3))];
    expect_args(heap, 0, &args, gap)?;
    let flagged = ArgView {
        index: Some(2),
        ..option(b"b")
    };
    let args = [row(place(b"a", 1)), row(flagged)];
    expect_args(heap, 0, &args, "breaches 1\n9 a1 - 0 0 0\n")
}

#[test]
fn trailing_arguments(rt: HostRuntime) -> Result<(), Fail> {
    let heap = rt.alloc();
    let one = with_bits(place(b"a", 1), TRAILING);
    let last = with_bits(one, TRAILING + LAST);
    expect_one(heap, 0, ranged(one, 1, 9), SOUND)?;
    expect_one(heap, 0, ranged(last, 1, 9), "breaches 1\n41 a0 - 0 0 0\n")?;
    expect_one(heap, 0, one, "breaches 1\n42 a0 - 0 0 0\n")?;
    expect_one(heap, 0, with_action(one, ArgAction::Append), SOUND)?;
    expect_one(heap, 0, last, "breaches 2\n41 a0 - 0 0 0\n42 a0 - 0 0 0\n")?;
    let args = [row(one), row(place(b"b", 2))];
    expect_args(heap, 0, &args, "breaches 1\n43 a0 - 0 0 0\n")?;
    let flag = ranged(with_bits(option(b"a"), TRAILING), 1, 9);
    expect_one(heap, 0, flag, SOUND)?;
    let args = [row(flag), row(place(b"b", 1))];
    expect_args(heap, 0, &args, "breaches 1\n43 a0 - 0 0 0\n")
}

#[test]
fn an_open_argument_before_an_optional_one(rt: HostRuntime) -> Result<(), Fail> {
    let heap = rt.alloc();
    let open = ranged(place(b"a", 1), 1, 9);
    let second = place(b"b", 2);
    let args = [row(open), row(second)];
    expect_args(heap, 0, &args, "breaches 1\n44 a1 a0 0 0 0\n")?;
    let args = [
        row(ArgView {
            terminated: true,
            ..open
        }),
        row(second),
    ];
    expect_args(heap, 0, &args, SOUND)?;
    let args = [row(with_bits(open, LAST)), row(second)];
    expect_args(heap, 0, &args, SOUND)?;
    let args = [row(open), row(with_bits(second, LAST))];
    expect_args(heap, 0, &args, SOUND)?;
    let args = [
        row(with_bits(open, REQUIRED)),
        row(with_bits(second, REQUIRED)),
    ];
    expect_args(heap, 0, &args, SOUND)?;
    let args = [row(place(b"a", 1)), row(ranged(second, 1, 9))];
    expect_args(heap, 0, &args, SOUND)
}

#[test]
fn multiple_values_below_the_last_two(rt: HostRuntime) -> Result<(), Fail> {
    let heap = rt.alloc();
    let broken = "breaches 1\n45 a2 a1 0 0 0\n";
    let open = ranged(with_bits(place(b"a", 1), REQUIRED), 1, 9);
    let second = with_bits(place(b"b", 2), REQUIRED);
    let third = with_bits(place(b"c", 3), REQUIRED);
    let args = [row(open), row(ranged(second, 2, 2)), row(third)];
    expect_args(heap, 0, &args, broken)?;
    let ended = ArgView {
        terminated: true,
        ..open
    };
    let args = [row(ended), row(ranged(second, 2, 2)), row(third)];
    expect_args(heap, 0, &args, SOUND)?;
    let args = [row(ended), row(second), row(third)];
    expect_args(heap, 0, &args, broken)?;
    let args = [
        row(ended),
        row(second),
        row(with_bits(third, REQUIRED + LAST)),
    ];
    expect_args(heap, 0, &args, SOUND)
}

#[test]
fn more_than_one_argument_of_many_values(rt: HostRuntime) -> Result<(), Fail> {
    let heap = rt.alloc();
    let broken = "breaches 1\n46 a2 a1 0 0 0\n";
    let a = ranged(place(b"a", 1), 1, 9);
    let b = ranged(place(b"b", 2), 1, 9);
    let c = with_bits(place(b"c", 3), LAST);
    let args = [row(a), row(b), row(ranged(c, 2, 2))];
    expect_args(heap, 0, &args, broken)?;
    let args = [row(a), row(b), row(ranged(c, 1, 9))];
    expect_args(heap, 0, &args, broken)?;
    let args = [row(a), row(place(b"b", 2)), row(ranged(c, 1, 9))];
    expect_args(heap, 0, &args, broken)?;
    let args = [row(a), row(ranged(b, 2, 2)), row(ranged(c, 1, 9))];
    expect_args(heap, 0, &args, SOUND)?;
    let args = [row(a), row(with_bits(b, LAST))];
    expect_args(heap, 0, &args, SOUND)?;
    let args = [row(a), row(b)];
    expect_args(
        heap,
        0,
        &args,
        "breaches 2\n44 a1 a0 0 0 0\n46 a1 a0 0 0 0\n",
    )?;
    let args = [row(a), row(b), row(place(b"c", 3))];
    expect_args(
        heap,
        0,
        &args,
        "breaches 3\n44 a2 a1 0 0 0\n45 a2 a1 0 0 0\n46 a2 a1 0 0 0\n",
    )
}

#[test]
fn an_optional_position_before_a_required_one(rt: HostRuntime) -> Result<(), Fail> {
    let heap = rt.alloc();
    let a = place(b"a", 1);
    let b = place(b"b", 2);
    let args = [row(a), row(with_bits(b, REQUIRED))];
    expect_args(heap, 0, &args, "breaches 1\n47 a0 - 0 0 0\n")?;
    let args = [row(with_bits(b, REQUIRED)), row(a)];
    expect_args(heap, 0, &args, "breaches 1\n47 a1 - 0 0 0\n")?;
    let args = [row(with_bits(a, REQUIRED)), row(with_bits(b, REQUIRED))];
    expect_args(heap, 0, &args, SOUND)?;
    let args = [row(a), row(with_bits(b, REQUIRED + LAST))];
    expect_args(heap, 0, &args, SOUND)?;
    let args = [row(a), row(b), row(with_bits(place(b"c", 3), REQUIRED))];
    expect_args(heap, 0, &args, "breaches 2\n47 a1 - 0 0 0\n47 a0 - 0 0 0\n")
}

fn with_long(name: &'static [u8], long: &'static [u8]) -> SubcommandRow<'static> {
    let subcommand = SubcommandView {
        long: Some(long),
        ..SubcommandView::new(name)
    };
    SubcommandRow {
        subcommand,
        ..SubcommandRow::new(name)
    }
}

#[test]
fn beside_subcommands(rt: HostRuntime) -> Result<(), Fail> {
    let heap = rt.alloc();
    let none: [ArgRow<'static>; 0] = [];
    let groups: [GroupRow<'static>; 0] = [];
    let dashed = [with_long(b"s", b"-x")];
    expect(
        heap,
        0,
        &none,
        &groups,
        &dashed,
        "breaches 1\n3 s0 - 0 0 0\n",
    )?;
    let after = [with_long(b"s", b"x-")];
    expect(heap, 0, &none, &groups, &after, SOUND)?;
    let alias = SubcommandRow {
        long_aliases: &[b"-x"],
        ..SubcommandRow::new(b"-s")
    };
    let aliased = [alias];
    expect(heap, 0, &none, &groups, &aliased, SOUND)?;
    let args = [row(with_bits(place(b"a", 1), REQUIRED + LAST))];
    expect(
        heap,
        0,
        &args,
        &groups,
        &after,
        "breaches 1\n49 a0 - 0 0 0\n",
    )?;
    expect(heap, NEGATE, &args, &groups, &after, SOUND)?;
    expect_args(heap, 0, &args, SOUND)?;
    let optional = [row(with_bits(place(b"a", 1), LAST))];
    expect(heap, 0, &optional, &groups, &after, SOUND)
}

#[test]
fn the_order_of_a_report(rt: HostRuntime) -> Result<(), Fail> {
    let conflicts = ArgRow {
        arg: ArgView {
            id: b"a",
            ..option(b"-a")
        },
        conflicts: &[b"a", b"x"],
        ..ArgRow::new(b"a")
    };
    let args = [
        conflicts,
        row(place(b"b", 1)),
        row(with_bits(place(b"c", 3), REQUIRED)),
    ];
    let group = GroupRow {
        members: &[b"x"],
        ..GroupRow::new(b"a")
    };
    let groups = [group];
    let s = with_long(b"s", b"-a");
    let aliased = SubcommandRow {
        aliases: &[b"s"],
        ..s
    };
    let subcommands = [aliased];
    let all =
        "breaches 14\n1 - - 0 0 0\n3 s0 - 0 0 0\n4 a0 - 6 0 0\n17 a0 - 0 0 0\n18 a0 - 0 0 0\n25 a0 - 6 1 0\n17 a1 - 0 0 0\n17 a2 - 0 0 0\n32 g0 a0 0 0 0\n33 g0 - 10 0 0\n36 s0 a0 0 0 0\n39 s0 s0 0 1 0\n40 - - 0 0 0\n50 - - 0 0 0\n";
    expect(
        rt.alloc(),
        MULTICALL + NO_BINARY_NAME + PROPAGATE,
        &args,
        &groups,
        &subcommands,
        all,
    )
}
