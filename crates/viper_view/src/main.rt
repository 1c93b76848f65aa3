//! The program viper_view: certificates and refusals as people read them. It reads files and writes
//! standard output, and proves nothing itself (docs/VIEWING.md).
#![tactic(auto)]

mod answer;
mod conditions;
mod crowds;
mod differences;
mod drawing;
mod explaining;
mod fact_words;
mod flows;
mod form_words;
mod graph;
mod illegal;
mod judging;
mod lanes;
mod large;
mod listing;
mod number_words;
mod operands;
mod order;
mod paths;
mod places;
mod reading;
mod results;
mod steps;
mod sweep;
mod table;
#[cfg(test)]
mod tests;
mod unranked;
mod uses;
mod verdicts;
mod view;

use crate::view::view;
use std::alloc::{AllocError, Global};
use std::process::ExitCode;
use std::{env, io};
use viper_io::{FileStore, OutSink};
use viper_top::Status;

/// The words after the program's name.
fn words_of<'a>(alloc: Global, args: &'a [String]) -> Result<Vec<&'a str>, AllocError> {
    let mut words = Vec::new(alloc);
    for arg in args.iter().skip(1) {
        words.push(arg.as_str())?;
    }
    Ok(words)
}

/// Does what the arguments say, over the system's files and standard output.
fn run(rt: &HostRuntime, alloc: Global, args: &[String]) -> Status {
    let Ok(words) = words_of(alloc, args) else {
        return Status::Memory;
    };
    let mut store = FileStore::new(rt, alloc);
    let mut out = OutSink::new(io::writer(rt));
    view(alloc, words.as_slice(), &mut store, &mut out)
}

/// The status where the arguments weren't read: Memory where there was none for them, else Outside.
fn unread_arguments(error: &io::Error) -> Status {
    if error.kind() == io::ErrorKind::OutOfMemory {
        Status::Memory
    } else {
        Status::Outside
    }
}

/// Reads the arguments, and runs them.
fn run_arguments(rt: &HostRuntime) -> Status {
    let alloc = rt.alloc();
    match env::args(rt) {
        Err(error) => unread_arguments(&error),
        Ok(args) => match args.collect::<Vec<String>>(alloc) {
            Err(_) => Status::Memory,
            Ok(args) => run(rt, alloc, &args),
        },
    }
}

/// Ends with the number of the status.
fn main(rt: HostRuntime) -> ExitCode {
    ExitCode::from(run_arguments(&rt).number())
}
