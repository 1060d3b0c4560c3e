use super::failure::Failure;
use super::files::read_file;
use super::options::{Options, read_options};
use super::usage::USAGE;
use console::{Style, say_ranges, say_tour};
use console_runs::{read_script, say_answers, say_faults, say_run};
use replay::Layers;
use std::env;

/// Does what the words after the program's name ask for.
pub fn run(rt: &HostRuntime) -> Result<(), Failure> {
    let mut words = env::args(rt)?;
    let _ = words.next();
    let Some(command) = words.next() else {
        return help(rt);
    };
    let options = read_options(rt.alloc(), command.as_str(), words)?;
    match command.as_str() {
        "ranges" => ranges(rt, &options),
        "replay" => replay(rt, &options),
        "tour" => print_tour(rt, options.style),
        "samples" => samples(rt),
        "help" | "--help" | "-h" => help(rt),
        other => {
            let message = format!(in rt.alloc();
                "there is no command `{other}`; `desk help` lists what there is"
            )?;
            Err(Failure::Refused(message))
        }
    }
}

fn help(rt: &HostRuntime) -> Result<(), Failure> {
    rt.print(USAGE)?;
    Ok(())
}

fn ranges(rt: &HostRuntime, options: &Options) -> Result<(), Failure> {
    let misused = Failure::Misused("`desk ranges` takes one file, or - for standard input");
    let file = options.only_file().ok_or(misused)?;
    print_ranges(rt, file, options.style)
}

fn print_ranges(rt: &HostRuntime, file: &str, style: Style) -> Result<(), Failure> {
    let input = read_file(rt, file)?;
    let mut out = String::new(rt.alloc());
    let _ = say_ranges(&mut out, &input, style)?;
    rt.print(out)?;
    Ok(())
}

fn replay(rt: &HostRuntime, options: &Options) -> Result<(), Failure> {
    let misused = Failure::Misused("`desk replay` takes one script, or - for standard input");
    let file = options.only_file().ok_or(misused)?;
    print_replay(rt, file, options.style, options.layers)
}

fn print_replay(rt: &HostRuntime, file: &str, style: Style, layers: Layers) -> Result<(), Failure> {
    let heap = rt.alloc();
    let script = read_file(rt, file)?;
    let text = read_script(heap, script.as_slice())?;
    let mut out = String::new(heap);
    if !text.faults.is_empty() {
        say_faults(&mut out, text.faults.as_slice())?;
        rt.eprint(out)?;
        return Err(Failure::Misused("the script has lines that are no calls, so nothing was run"));
    }
    match style {
        Style::Plain => say_answers(heap, &mut out, layers, text.lines.as_slice())?,
        Style::Words => say_run(heap, &mut out, layers, text.lines.as_slice())?,
    }
    rt.print(out)?;
    Ok(())
}

fn print_tour(rt: &HostRuntime, style: Style) -> Result<(), Failure> {
    let mut out = String::new(rt.alloc());
    say_tour(&mut out, style)?;
    rt.print(out)?;
    Ok(())
}

// Each command on the samples that come with the program.
fn samples(rt: &HostRuntime) -> Result<(), Failure> {
    println!(rt; "$ desk ranges samples/ranges.txt")?;
    print_ranges(rt, "samples/ranges.txt", Style::Words)?;
    println!(rt; "$ desk ranges --plain samples/ranges.txt")?;
    print_ranges(rt, "samples/ranges.txt", Style::Plain)?;
    println!(rt; "$ desk replay samples/incident.calls")?;
    print_replay(rt, "samples/incident.calls", Style::Words, Layers::None)?;
    println!(rt; "$ desk replay --plain samples/incident.calls")?;
    print_replay(rt, "samples/incident.calls", Style::Plain, Layers::None)?;
    println!(rt; "$ desk replay --plain --flags 2 samples/incident.calls")?;
    print_replay(rt, "samples/incident.calls", Style::Plain, Layers::Two)?;
    println!(rt; "$ desk tour")?;
    print_tour(rt, Style::Words)?;
    println!(rt; "$ desk tour --plain")?;
    print_tour(rt, Style::Plain)
}
