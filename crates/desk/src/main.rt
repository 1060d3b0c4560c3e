//! The order desk: a thin program over the libraries. It reads files, and prints what `console` says.
#![tactic(auto)]

mod commands;
mod failure;
mod files;
mod options;
mod usage;

use commands::run;
use std::process::ExitCode;

fn main(rt: HostRuntime) -> ExitCode {
    match run(&rt) {
        Ok(()) => ExitCode::SUCCESS,
        Err(failure) => {
            let _ = eprintln!(rt; "desk: {failure}");
            ExitCode::FAILURE
        }
    }
}
