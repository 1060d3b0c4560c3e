use super::shown::*;
use form::{ArgView, SubcommandView};
use std::test::Fail;
use table::{ArgRow, GroupRow, SubcommandRow};

fn subcommand(
    name: &'static [u8],
    long: Option<&'static [u8]>,
    letter: Option<char>,
) -> SubcommandRow<'static> {
    let subcommand = SubcommandView { name, long, letter };
    SubcommandRow {
        subcommand,
        ..SubcommandRow::new(name)
    }
}

#[test]
fn same_ids_and_long_names(rt: HostRuntime) -> Result<(), Fail> {
    let heap = rt.alloc();
    let a = option(b"a");
    let other = ArgView {
        id: b"a",
        ..option(b"b")
    };
    let third = ArgView {
        id: b"a",
        ..option(b"c")
    };
    let args = [row(a), row(other)];
    expect_args(heap, 0, &args, "breaches 1\n19 a0 a1 0 0 0\n")?;
    let args = [row(a), row(other), row(third)];
    expect_args(
        heap,
        0,
        &args,
        "breaches 3\n19 a0 a1 0 0 0\n19 a0 a2 0 0 0\n19 a1 a2 0 0 0\n",
    )?;
    let args = [row(a), row(option(b"A")), row(option(b"ab"))];
    expect_args(heap, 0, &args, SOUND)?;
    let twin = ArgView { id: b"b", ..a };
    let args = [row(a), row(twin)];
    expect_args(
        heap,
        0,
        &args,
        "breaches 2\n20 a0 a1 0 0 0\n36 a0 a1 0 0 0\n",
    )?;
    let args = [row(a), row(a)];
    expect_args(
        heap,
        0,
        &args,
        "breaches 2\n19 a0 a1 0 0 0\n20 a0 a1 0 0 0\n",
    )
}

#[test]
fn same_letters(rt: HostRuntime) -> Result<(), Fail> {
    let heap = rt.alloc();
    let args = [row(short(b"a", 'x')), row(short(b"b", 'x'))];
    expect_args(
        heap,
        0,
        &args,
        "breaches 2\n21 a0 a1 0 0 0\n37 a0 a1 0 0 0\n",
    )?;
    let args = [row(short(b"a", 'x')), row(short(b"b", 'X'))];
    expect_args(heap, 0, &args, SOUND)?;
    let args = [row(short(b"a", 'x')), row(short(b"a", 'x'))];
    expect_args(
        heap,
        0,
        &args,
        "breaches 2\n19 a0 a1 0 0 0\n21 a0 a1 0 0 0\n",
    )?;
    let args = [
        row(short(b"a", 'x')),
        row(short(b"b", 'x')),
        row(short(b"c", 'x')),
    ];
    let own =
        "breaches 6\n21 a0 a1 0 0 0\n21 a0 a2 0 0 0\n21 a1 a2 0 0 0\n37 a0 a1 0 0 0\n37 a0 a2 0 0 0\n37 a1 a2 0 0 0\n";
    expect_args(heap, 0, &args, own)
}

#[test]
fn same_indices_and_two_last(rt: HostRuntime) -> Result<(), Fail> {
    let heap = rt.alloc();
    let args = [row(place(b"a", 1)), row(place(b"b", 1))];
    expect_args(heap, 0, &args, "breaches 2\n22 a0 a1 0 0 0\n40 - - 0 0 0\n")?;
    let flagged = ArgView {
        letter: Some('b'),
        ..place(b"b", 1)
    };
    let args = [row(place(b"a", 1)), row(flagged)];
    expect_args(heap, 0, &args, "breaches 2\n9 a1 - 0 0 0\n40 - - 0 0 0\n")?;
    let a = with_bits(place(b"a", 1), LAST);
    let b = with_bits(place(b"b", 2), LAST);
    let c = with_bits(place(b"c", 3), LAST);
    let args = [row(a), row(b)];
    expect_args(heap, 0, &args, "breaches 1\n48 a0 a1 0 0 0\n")?;
    let args = [row(a), row(place(b"b", 2)), row(c)];
    expect_args(heap, 0, &args, "breaches 1\n48 a0 a2 0 0 0\n")?;
    let args = [row(a), row(with_bits(short(b"b", 'b'), LAST))];
    expect_args(heap, 0, &args, "breaches 1\n27 a1 - 0 0 0\n")
}

#[test]
fn ids_of_groups(rt: HostRuntime) -> Result<(), Fail> {
    let heap = rt.alloc();
    let none: [SubcommandRow<'static>; 0] = [];
    let args = [row(option(b"a"))];
    let g = GroupRow::new(b"g");
    let groups = [g, GroupRow::new(b"h"), g];
    expect(
        heap,
        0,
        &args,
        &groups,
        &none,
        "breaches 1\n31 g0 g2 0 0 0\n",
    )?;
    let groups = [g, GroupRow::new(b"h")];
    expect(heap, 0, &args, &groups, &none, SOUND)?;
    let groups = [g, GroupRow::new(b"a")];
    expect(
        heap,
        0,
        &args,
        &groups,
        &none,
        "breaches 1\n32 g1 a0 0 0 0\n",
    )?;
    let subcommands = [SubcommandRow::new(b"g")];
    let groups = [g];
    expect(heap, 0, &args, &groups, &subcommands, SOUND)
}

#[test]
fn long_flags_of_subcommands(rt: HostRuntime) -> Result<(), Fail> {
    let heap = rt.alloc();
    let none: [ArgRow<'static>; 0] = [];
    let groups: [GroupRow<'static>; 0] = [];
    let x = subcommand(b"s", Some(b"x"), None);
    let subcommands = [x, subcommand(b"t", Some(b"x"), None)];
    expect(
        heap,
        0,
        &none,
        &groups,
        &subcommands,
        "breaches 1\n36 s0 s1 0 0 0\n",
    )?;
    let subcommands = [x, subcommand(b"t", Some(b"y"), None)];
    expect(heap, 0, &none, &groups, &subcommands, SOUND)?;
    let subcommands = [x, x];
    expect(
        heap,
        0,
        &none,
        &groups,
        &subcommands,
        "breaches 1\n38 s1 s0 0 0 0\n",
    )
}

#[test]
fn long_flags_of_both_kinds(rt: HostRuntime) -> Result<(), Fail> {
    let heap = rt.alloc();
    let none: [ArgRow<'static>; 0] = [];
    let groups: [GroupRow<'static>; 0] = [];
    let x = subcommand(b"s", Some(b"x"), None);
    let subcommands = [x];
    let args = [row(ArgView {
        id: b"s",
        ..option(b"x")
    })];
    expect(
        heap,
        0,
        &args,
        &groups,
        &subcommands,
        "breaches 1\n36 s0 a0 0 0 0\n",
    )?;
    let alias = SubcommandRow {
        long_aliases: &[b"y", b"x"],
        ..SubcommandRow::new(b"t")
    };
    let subcommands = [alias, x];
    expect(
        heap,
        0,
        &none,
        &groups,
        &subcommands,
        "breaches 1\n36 s0 s1 0 2 0\n",
    )
}

#[test]
fn letter_flags_of_subcommands(rt: HostRuntime) -> Result<(), Fail> {
    let heap = rt.alloc();
    let none: [ArgRow<'static>; 0] = [];
    let groups: [GroupRow<'static>; 0] = [];
    let x = subcommand(b"s", None, Some('x'));
    let subcommands = [x, subcommand(b"t", None, Some('x'))];
    expect(
        heap,
        0,
        &none,
        &groups,
        &subcommands,
        "breaches 1\n37 s0 s1 0 0 0\n",
    )?;
    let subcommands = [x, subcommand(b"t", Some(b"x"), Some('X'))];
    expect(heap, 0, &none, &groups, &subcommands, SOUND)?;
    let subcommands = [x];
    let args = [row(short(b"s", 'x'))];
    expect(
        heap,
        0,
        &args,
        &groups,
        &subcommands,
        "breaches 1\n37 s0 a0 0 0 0\n",
    )?;
    let alias = SubcommandRow {
        letter_aliases: &['x'],
        ..SubcommandRow::new(b"t")
    };
    let subcommands = [x, alias];
    expect(
        heap,
        0,
        &none,
        &groups,
        &subcommands,
        "breaches 1\n37 s0 s1 0 0 1\n",
    )
}

#[test]
fn aliases_of_arguments(rt: HostRuntime) -> Result<(), Fail> {
    let heap = rt.alloc();
    let own = ArgRow {
        arg: option(b"a"),
        long_aliases: &[b"a", b"x", b"x"],
        letter_aliases: &['y', 'y'],
        ..ArgRow::new(b"a")
    };
    let args = [own];
    expect_args(heap, 0, &args, SOUND)?;
    let args = [own, row(option(b"x"))];
    expect_args(
        heap,
        0,
        &args,
        "breaches 2\n36 a0 a1 0 2 0\n36 a0 a1 0 3 0\n",
    )?;
    let args = [row(short(b"y", 'y')), own];
    expect_args(
        heap,
        0,
        &args,
        "breaches 2\n37 a0 a1 0 0 1\n37 a0 a1 0 0 2\n",
    )
}

#[test]
fn names_of_subcommands(rt: HostRuntime) -> Result<(), Fail> {
    let heap = rt.alloc();
    let args = [row(option(b"s"))];
    let groups: [GroupRow<'static>; 0] = [];
    let s = SubcommandRow::new(b"s");
    let t = SubcommandRow::new(b"t");
    let subcommands = [s, t, s];
    expect(
        heap,
        0,
        &args,
        &groups,
        &subcommands,
        "breaches 1\n38 s2 s0 0 0 0\n",
    )?;
    let subcommands = [s, t];
    expect(heap, 0, &args, &groups, &subcommands, SOUND)
}

#[test]
fn names_and_aliases_of_subcommands(rt: HostRuntime) -> Result<(), Fail> {
    let heap = rt.alloc();
    let args = [row(option(b"s"))];
    let groups: [GroupRow<'static>; 0] = [];
    let s = SubcommandRow::new(b"s");
    let t = SubcommandRow::new(b"t");
    let also_t = SubcommandRow {
        aliases: &[b"t"],
        ..s
    };
    let also_s = SubcommandRow {
        aliases: &[b"s"],
        ..t
    };
    let subcommands = [also_t, t];
    expect(
        heap,
        0,
        &args,
        &groups,
        &subcommands,
        "breaches 1\n38 s1 s0 0 0 1\n",
    )?;
    let subcommands = [s, also_s];
    expect(
        heap,
        0,
        &args,
        &groups,
        &subcommands,
        "breaches 1\n39 s1 s0 0 1 0\n",
    )
}

#[test]
fn aliases_of_subcommands(rt: HostRuntime) -> Result<(), Fail> {
    let heap = rt.alloc();
    let args = [row(option(b"s"))];
    let groups: [GroupRow<'static>; 0] = [];
    let s = SubcommandRow::new(b"s");
    let t = SubcommandRow::new(b"t");
    let also_t = SubcommandRow {
        aliases: &[b"t"],
        ..s
    };
    let also_s = SubcommandRow {
        aliases: &[b"s"],
        ..t
    };
    let subcommands = [also_t, also_s];
    expect(
        heap,
        0,
        &args,
        &groups,
        &subcommands,
        "breaches 2\n38 s1 s0 0 0 1\n39 s1 s0 0 1 0\n",
    )?;
    let own = SubcommandRow {
        aliases: &[b"u", b"s"],
        ..s
    };
    let subcommands = [own, t];
    expect(
        heap,
        0,
        &args,
        &groups,
        &subcommands,
        "breaches 1\n39 s0 s0 0 2 0\n",
    )
}
