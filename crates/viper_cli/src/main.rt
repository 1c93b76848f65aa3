//! The program viper: its arguments to `viper_main`, over files and standard output.
#![tactic(auto)]

#[cfg(test)]
mod certificates;
#[cfg(test)]
mod certify_tests;
#[cfg(test)]
mod check_tests;
#[cfg(test)]
mod content_tests;
#[cfg(test)]
mod format_tests;
#[cfg(test)]
mod run_tests;
#[cfg(test)]
mod source_tests;
#[cfg(test)]
mod tests;
#[cfg(test)]
mod upgrade_tests;

use std::alloc::{AllocError, Global};
use std::process::ExitCode;
use std::{env, io};
use viper_io::{FileStore, OutSink};
use viper_top::{Status, viper_main};

/// The words after the program's name.
fn words_of<'a>(alloc: Global, args: &'a [String]) -> Result<Vec<&'a str>, AllocError> {
    let mut words = Vec::new(alloc);
    for arg in args.iter().skip(1) {
        words.push(arg.as_str())?;
    }
    Ok(words)
}

/// Does what the arguments say, over the system's files and standard output.
fn run(rt: &HostRuntime, alloc: Global, args: &[String]) -> Status {
    let Ok(words) = words_of(alloc, args) else {
        return Status::Memory;
    };
    let mut store = FileStore::new(rt, alloc);
    let mut out = OutSink::new(io::writer(rt));
    viper_main(alloc, words.as_slice(), &mut store, &mut out)
}

/// The status where the arguments weren't read: Memory where there was none for them, else Outside.
fn unread_arguments(error: &io::Error) -> Status {
    if error.kind() == io::ErrorKind::OutOfMemory {
        Status::Memory
    } else {
        Status::Outside
    }
}

/// Reads the arguments, and runs them.
fn run_arguments(rt: &HostRuntime) -> Status {
    let alloc = rt.alloc();
    match env::args(rt) {
        Err(error) => unread_arguments(&error),
        Ok(args) => match args.collect::<Vec<String>>(alloc) {
            Err(_) => Status::Memory,
            Ok(args) => run(rt, alloc, &args),
        },
    }
}

/// Ends with the number of the status: with 4 where the arguments can't be read, and with 5 where
/// there is no memory for them.
fn main(rt: HostRuntime) -> ExitCode {
    ExitCode::from(run_arguments(&rt).number())
}
