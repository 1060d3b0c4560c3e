use super::shown::*;
use console::Text;
use form::{AppFlags, ArgView, FormSource};
use layers::StandardFlags;
use report::report;
use rules::Breach;
use std::alloc::Global;
use std::fmt::Write;
use std::test::Fail;
use table::{ArgRow, TableForm};

// the breaches of a form of arguments under the standard flags
fn expect_under(
    heap: Global,
    settings: u16,
    args: &[ArgRow<'static>],
    expected: &str,
) -> Result<(), Fail> {
    let form = TableForm::of_args(AppFlags::from_bits(settings), args);
    let layer = StandardFlags::new(form);
    let text = told(heap, &layer)?;
    same_text(text.as_str(), expected)
}

// the same under the standard flags twice
fn expect_twice(
    heap: Global,
    settings: u16,
    args: &[ArgRow<'static>],
    expected: &str,
) -> Result<(), Fail> {
    let form = TableForm::of_args(AppFlags::from_bits(settings), args);
    let layer = StandardFlags::new(StandardFlags::new(form));
    let text = told(heap, &layer)?;
    same_text(text.as_str(), expected)
}

// the number of arguments that the standard flags show over an empty form
fn shown_over_none(settings: u16) -> usize {
    let args: [ArgRow<'static>; 0] = [];
    let form = TableForm::of_args(AppFlags::from_bits(settings), &args);
    StandardFlags::new(form).arg_count()
}

// the id, the letter and the action's code of an argument
fn told_arg<F: FormSource>(heap: Global, form: &F, place: usize) -> Result<String, Fail> {
    let mut out = String::new(heap);
    let letter = form.arg(place).letter.unwrap_or('-');
    let code = form.arg(place).action.code();
    write!(out, "{} {letter} {code}", Text::new(form.arg(place).id))?;
    Ok(out)
}

// the number of breaches under the standard flags, where there is at least one
fn needed_under(settings: u16, args: &[ArgRow<'static>]) -> Result<usize, Fail> {
    let form = TableForm::of_args(AppFlags::from_bits(settings), args);
    let layer = StandardFlags::new(form);
    let mut none: [Breach; 0] = [];
    match report(&layer, &mut none) {
        Ok(_) => Err(Fail::new("there is no breach")),
        Err(fault) => Ok(fault.needed),
    }
}

#[test]
fn what_the_standard_flags_add(rt: HostRuntime) {
    assert_eq!(rt; shown_over_none(0), 1);
    assert_eq!(rt; shown_over_none(64), 2);
    assert_eq!(rt; shown_over_none(16), 0);
    assert_eq!(rt; shown_over_none(16 + 64), 1);
    assert_eq!(rt; shown_over_none(32 + 64), 1);
    assert_eq!(rt; shown_over_none(127), 0);
}

#[test]
fn the_standard_flags_follow_the_arguments(rt: HostRuntime) -> Result<(), Fail> {
    let args = [row(option(b"a"))];
    let form = TableForm::of_args(AppFlags::from_bits(64), &args);
    let layer = StandardFlags::new(form);
    let help = told_arg(rt.alloc(), &layer, 1)?;
    assert_eq!(rt; help.as_str(), "help h 5");
    let version = told_arg(rt.alloc(), &layer, 2)?;
    assert_eq!(rt; version.as_str(), "version V 8");
    Ok(())
}

#[test]
fn standard_flags_that_clash(rt: HostRuntime) -> Result<(), Fail> {
    let heap = rt.alloc();
    let args = [row(option(b"a"))];
    expect_under(heap, 64, &args, SOUND)?;
    expect_under(
        heap,
        1 + 32,
        &args,
        "breaches 2\n17 a0 - 0 0 0\n17 a1 - 0 0 0\n",
    )?;
    let both = ArgView {
        letter: Some('h'),
        id: b"assist",
        ..option(b"help")
    };
    let args = [row(both)];
    let clash = "breaches 4\n20 a0 a1 0 0 0\n21 a0 a1 0 0 0\n36 a0 a1 0 0 0\n37 a0 a1 0 0 0\n";
    expect_under(heap, 0, &args, clash)?;
    expect_under(heap, 16, &args, SOUND)?;
    let twice =
        "breaches 11\n20 a0 a1 0 0 0\n20 a0 a2 0 0 0\n21 a0 a1 0 0 0\n21 a0 a2 0 0 0\n19 a1 a2 0 0 0\n20 a1 a2 0 0 0\n21 a1 a2 0 0 0\n36 a0 a1 0 0 0\n36 a0 a2 0 0 0\n37 a0 a1 0 0 0\n37 a0 a2 0 0 0\n";
    expect_twice(heap, 0, &args, twice)?;
    let args = [row(option(b"help"))];
    expect_under(
        heap,
        0,
        &args,
        "breaches 2\n19 a0 a1 0 0 0\n20 a0 a1 0 0 0\n",
    )
}

#[test]
fn two_layers_clash_but_not_by_flags_of_one_id(rt: HostRuntime) -> Result<(), Fail> {
    let heap = rt.alloc();
    let none: [ArgRow<'static>; 0] = [];
    expect_twice(
        heap,
        0,
        &none,
        "breaches 3\n19 a0 a1 0 0 0\n20 a0 a1 0 0 0\n21 a0 a1 0 0 0\n",
    )?;
    expect_twice(heap, 16, &none, SOUND)?;
    let six =
        "breaches 6\n19 a0 a2 0 0 0\n20 a0 a2 0 0 0\n21 a0 a2 0 0 0\n19 a1 a3 0 0 0\n20 a1 a3 0 0 0\n21 a1 a3 0 0 0\n";
    expect_twice(heap, 64, &none, six)
}

// n equal arguments make n (n - 1) / 2 pairs, and each pair breaks 19 and 20
#[test]
fn a_flag_that_finds_no_room_cuts_the_form(rt: HostRuntime) -> Result<(), Fail> {
    let eighty = [row(option(b"a")); 80];
    assert_eq!(rt; needed_under(0, &eighty)?, 6320 + 1);
    assert_eq!(rt; needed_under(16, &eighty)?, 6320);
    assert_eq!(rt; needed_under(16 + 64, &eighty)?, 6320 + 1);
    let fewer = [row(option(b"a")); 79];
    assert_eq!(rt; needed_under(64, &fewer)?, 6162 + 1);
    assert_eq!(rt; needed_under(0, &fewer)?, 6162);
    let form = TableForm::of_args(AppFlags::from_bits(0), &eighty);
    assert!(rt; !form.is_cut());
    let layer = StandardFlags::new(form);
    assert!(rt; layer.is_cut());
    assert_eq!(rt; layer.arg_count(), 80);
    Ok(())
}

// names of one byte, all different and none a dash
static BYTES: [u8; 80] = [
    46, 47, 48, 49, 50, 51, 52, 53, 54, 55, 56, 57, 58, 59, 60, 61, 62, 63, 64, 65, 66, 67, 68, 69,
    70, 71, 72, 73, 74, 75, 76, 77, 78, 79, 80, 81, 82, 83, 84, 85, 86, 87, 88, 89, 90, 91, 92, 93,
    94, 95, 96, 97, 98, 99, 100, 101, 102, 103, 104, 105, 106, 107, 108, 109, 110, 111, 112, 113,
    114, 115, 116, 117, 118, 119, 120, 121, 122, 123, 124, 125,
];

// as many arguments as a form can hold, no two alike
fn eighty() -> [ArgRow<'static>; 80] {
    let mut args = [row(option(b"a")); 80];
    for (arg, name) in args.iter_mut().zip(BYTES.windows(1)) {
        *arg = row(option(name));
    }
    args
}

#[test]
fn a_cut_form_breaks_nothing_else(rt: HostRuntime) -> Result<(), Fail> {
    let heap = rt.alloc();
    let args = eighty();
    expect_args(heap, 0, &args, SOUND)?;
    expect_under(heap, 0, &args, "breaches 1\n51 - - 0 0 0\n")?;
    expect_under(heap, 16, &args, SOUND)?;
    expect_twice(heap, 0, &args, "breaches 1\n51 - - 0 0 0\n")
}
