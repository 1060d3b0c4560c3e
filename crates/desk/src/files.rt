use super::failure::Failure;
use std::alloc::{AllocError, Global};
use std::io::Read;
use std::{fs, io};

/// The bytes of a file, or of standard input where the file is `-`.
pub fn read_file(rt: &HostRuntime, file: &str) -> Result<Vec<u8>, Failure> {
    let read = if file == "-" {
        read_input(rt)
    } else {
        fs::read(rt, file)
    };
    read.try_map_err(|error| -> Result<Failure, Failure> {
        Ok(Failure::Refused(unreadable(rt.alloc(), file, error)?))
    })
}

fn read_input(rt: &HostRuntime) -> io::Result<Vec<u8>> {
    let mut input = Vec::new(rt.alloc());
    let _ = rt.stdin().read_to_end(&mut input)?;
    Ok(input)
}

fn unreadable(heap: Global, file: &str, error: io::Error) -> Result<String, AllocError> {
    format!(in heap; "cannot read `{file}`: {error}")
}
