//! Words that both readers accept, and that they read alike.

use clap::{Arg, ArgMatches, Command as Stock};
use std::alloc::{AllocError, Global};
use std::test::Fail;
use wh_top_words::{Command, Limits, read_words};

/// The program's name and its words.
const ROWS: &[&[&str]] = &[
    &["wanda", "check", "system", "certificate"],
    &["wanda", "check", "--", "system", "certificate"],
    &["wanda", "show", "system"],
    &["wanda", "prove", "system"],
    &["wanda", "prove", "--tries=0", "system"],
    &[
        "wanda", "prove", "system", "--depth", "0", "--tries", "1000000",
    ],
    &["wanda", "prove", "--visited", "10", "--", "system"],
    &["wanda", "reduce", "system", "(f zero)"],
    &["wanda", "reduce", "--steps=3", "system", "(f zero)"],
    &["wanda", "reduce", "system", "(f zero)", "--steps", "10000"],
    &["wanda", "upgrade", "system", "certificate"],
    &["wanda", "refute", "system"],
    &["wanda", "refute", "--tries", "5", "system"],
];

/// The commands, each with its files and its options.
const COMMANDS: &[(&str, &[&str], &[&str])] = &[
    ("check", &["file", "cert"], &[]),
    ("show", &["file"], &[]),
    ("prove", &["file"], &["tries", "depth", "visited"]),
    ("reduce", &["file", "term"], &["steps"]),
    ("upgrade", &["file", "cert"], &[]),
    ("refute", &["file"], &["tries"]),
];

/// A command with these files and options.
fn command_of(
    alloc: Global,
    name: &'static str,
    files: &[&'static str],
    options: &[&'static str],
) -> Result<Stock<'static>, AllocError> {
    let mut command = Stock::new(alloc, name);
    for file in files {
        command = command.arg(Arg::new(alloc, *file))?;
    }
    for option in options {
        command = command.arg(Arg::new(alloc, *option).long(*option))?;
    }
    Ok(command)
}

/// A command line of the same commands, options and files.
fn stock(alloc: Global) -> Result<Stock<'static>, AllocError> {
    let mut program = Stock::new(alloc, "wanda");
    for (name, files, options) in COMMANDS {
        program = program.subcommand(command_of(alloc, *name, *files, *options)?)?;
    }
    Ok(program)
}

/// Whether the option has that number, or is not there and the number is the usual one.
fn is_number(matches: &ArgMatches<'_>, option: &str, number: u64, usual: u64) -> bool {
    match matches.get_str(option) {
        Some(text) => text.parse::<u64>().ok() == Some(number),
        None => number == usual,
    }
}

/// Whether the options have these limits.
fn are_limits(matches: &ArgMatches<'_>, limits: Limits) -> bool {
    is_number(matches, "tries", limits.tries, 10_000)
        && is_number(matches, "depth", u64::from(limits.depth), 6)
        && is_number(matches, "visited", u64::from(limits.visited), 500)
}

/// Whether the command is the same.
fn is_same(command: &Command<'_>, name: &str, matches: &ArgMatches<'_>) -> bool {
    match command {
        Command::Check { file, cert } => {
            name == "check"
                && matches.get_str("file") == Some(*file)
                && matches.get_str("cert") == Some(*cert)
        }
        Command::Prove { file, limits } => {
            name == "prove"
                && matches.get_str("file") == Some(*file)
                && are_limits(matches, *limits)
        }
        Command::Show { file } => name == "show" && matches.get_str("file") == Some(*file),
        Command::Reduce { file, term, steps } => {
            name == "reduce"
                && matches.get_str("file") == Some(*file)
                && matches.get_str("term") == Some(*term)
                && is_number(matches, "steps", u64::from(*steps), 1_000)
        }
        Command::Upgrade { file, cert } => {
            name == "upgrade"
                && matches.get_str("file") == Some(*file)
                && matches.get_str("cert") == Some(*cert)
        }
        Command::Refute { file, tries } => {
            name == "refute"
                && matches.get_str("file") == Some(*file)
                && is_number(matches, "tries", *tries, 10_000)
        }
        Command::Gen { .. } => false,
    }
}

/// The words behind the program's name.
fn words_of(alloc: Global, row: &[&str]) -> Result<Vec<String>, AllocError> {
    let mut words = Vec::new(alloc);
    for word in row.iter().skip(1) {
        words.push(String::from_str(alloc, *word)?)?;
    }
    Ok(words)
}

#[test]
fn reads_words_as_clap_does(rt: HostRuntime) -> Result<(), Fail> {
    for row in ROWS {
        let matches = stock(rt.alloc())?.try_get_matches_from(*row)?;
        let (name, inner) = matches.subcommand().ok_or("a command")?;
        let words = words_of(rt.alloc(), *row)?;
        let command = read_words(words.as_slice()).ok_or("words of the program")?;
        assert!(rt; is_same(&command, name, inner));
    }
    Ok(())
}
