use super::shown::*;
use console::{Style, say_plain_breach, say_report};
use form::AppFlags;
use report::{first, report};
use rules::Breach;
use std::alloc::Global;
use std::test::Fail;
use table::TableForm;

// a breach in plain notation
fn plain(heap: Global, breach: &Breach) -> Result<String, Fail> {
    let mut out = String::new(heap);
    say_plain_breach(&mut out, breach)?;
    Ok(out)
}

#[test]
fn a_short_list_is_refused_and_left_as_it_was(rt: HostRuntime) -> Result<(), Fail> {
    let heap = rt.alloc();
    let args = [row(option(b"-a")), row(option(b"-b"))];
    let form = TableForm::of_args(AppFlags::from_bits(0), &args);
    let mut list = [Breach::UNUSED; 1];
    match report(&form, &mut list) {
        Ok(_) => return Err(Fail::new("two breaches are put into a list of one")),
        Err(fault) => assert_eq!(rt; fault.needed, 2),
    }
    let left = plain(heap, &list[0])?;
    assert_eq!(rt; left.as_str(), "51 - - 0 0 0\n");
    Ok(())
}

#[test]
fn a_long_list_keeps_its_rest(rt: HostRuntime) -> Result<(), Fail> {
    let args = [row(option(b"-a")), row(option(b"-b"))];
    let form = TableForm::of_args(AppFlags::from_bits(0), &args);
    let mut list = [Breach::UNUSED; 3];
    match report(&form, &mut list) {
        Ok(count) => assert_eq!(rt; count, 2),
        Err(_) => return Err(Fail::new("a list of three is refused")),
    }
    let mut out = String::new(rt.alloc());
    say_report(&mut out, &form, &list, Style::Plain)?;
    assert_eq!(rt;
        out.as_str(),
        "breaches 3\n18 a0 - 0 0 0\n18 a1 - 0 0 0\n51 - - 0 0 0\n"
    );
    Ok(())
}

#[test]
fn first_is_the_first_breach_of_the_report(rt: HostRuntime) -> Result<(), Fail> {
    let args = [row(option(b"a")), row(option(b"-b")), row(option(b"-c"))];
    let form = TableForm::of_args(AppFlags::from_bits(0), &args);
    let breach = first(&form).ok_or("no breach is found")?;
    let text = plain(rt.alloc(), &breach)?;
    assert_eq!(rt; text.as_str(), "18 a1 - 0 0 0\n");
    let args = [row(option(b"a"))];
    let sound = TableForm::of_args(AppFlags::from_bits(0), &args);
    assert!(rt; first(&sound).is_none());
    Ok(())
}
