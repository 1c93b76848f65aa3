//! What is put where the words are no command: `usage`, and the commands that there are.

ghost use Rattle.std.specs.Prelude.{IfOk};
ghost use Rattle.viper_top.specs.Promises.{IsUsage};

use crate::command_line::is_plain;
use clap::{Arg, Command};
use line_text::LineText;
use std::alloc::{AllocError, Global};
use viper_word::Memory;

/// A command: its name, the words behind it, and what the help says of it.
#[derive(Clone, Copy)]
struct Row {
    name: &'static str,
    words: &'static [&'static str],
    about: &'static str,
}

/// The commands, in the order in which the help lists them.
const ROWS: [Row; 7] = [
    Row {
        name: "check",
        words: &["IMAGE", "PLAN", "CERT"],
        about: "IMAGE PLAN CERT: judges a certificate",
    },
    Row {
        name: "certify",
        words: &["IMAGE", "PLAN", "CERT"],
        about: "IMAGE PLAN CERT: searches for a certificate and writes it",
    },
    Row {
        name: "run",
        words: &["IMAGE", "PLAN", "SCRIPT", "STEPS"],
        about: "IMAGE PLAN SCRIPT STEPS: runs a program over a script of answers",
    },
    Row {
        name: "upgrade",
        words: &["IMAGE", "PLAN", "CERT", "NEW"],
        about: "IMAGE PLAN CERT NEW: writes a certificate anew, in version 2",
    },
    Row {
        name: "assemble",
        words: &["SRC", "IMAGE"],
        about: "SRC IMAGE: writes the image of a source",
    },
    Row {
        name: "disasm",
        words: &["IMAGE"],
        about: "IMAGE: lists an image as a source",
    },
    Row {
        name: "sample",
        words: &["N"],
        about: "N: makes a program of N loops, certifies it and checks the certificate",
    },
];

/// A row as `clap` has it.
fn command(alloc: Global, row: Row) -> Result<Command<'static>, AllocError> {
    let mut command = Command::new(alloc, row.name).about(row.about);
    for word in row.words {
        command = command.arg(Arg::new(alloc, *word).required(true))?;
    }
    Ok(command)
}

/// The commands that there are.
fn commands(alloc: Global) -> Result<Command<'static>, AllocError> {
    let mut all = Command::new(alloc, "viper")
        .subcommand_required(true)
        .disable_help_subcommand(true)
        .disable_help_flag(true)
        .disable_version_flag(true);
    for row in ROWS {
        all = all.subcommand(command(alloc, row)?)?;
    }
    Ok(all)
}

/// Do the words get the commands shown? Not where one is empty or begins with `-`, nor where the
/// number of steps or of loops alone is refused.
fn want_help(words: &[&str]) -> bool {
    match words {
        ["run", _, _, _, _] | ["sample", _] => false,
        _ => words.iter().all(|word| is_plain(word)),
    }
}

/// The commands as text.
fn help(alloc: Global) -> Result<String, AllocError> {
    commands(alloc)?.render_help()
}

/// `usage`, and then the commands, where the words get them shown (README.md, "Statuses and texts").
pub fn usage_text(alloc: Global, words: &[&str]) -> Result<Vec<u8>, Memory>
    ensures { IfOk result (λ text. IsUsage text.items) }
{
    let mut text = LineText::new(alloc);
    text.plain("usage\n")?;
    if want_help(words) {
        let help = help(alloc)?;
        text.plain(help.as_str())?;
    }
    Ok(text.into_bytes())
}
