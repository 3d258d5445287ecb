//! The arguments of a subcommand: its options and the files that it reads. Each is a row of the subcommand's page.
//!
//! A row has the form of the argument, and its lines in `-h` and in `--help`, or one line for both, with ` | ` between them.
//! The forms are
//!
//! - `--name`: an option without a value; `--name rare`: one that only `--help` lists;
//! - `--name 1-9`: an option whose value is a whole number in this range;
//! - `--name NAME`: an option whose value is a text of this name in the help;
//! - `name`: a file, with no option before it; `name ..`: any number of files.
//!
//! `progress`, `output`, `force` and `file` alone are rows that several pages have.

use clap::builder::ValueParser;
use clap::{Arg, ArgAction};
use std::alloc::Global;

/// The kind of value that an option takes, or a file argument.
#[derive(Clone, Copy)]
pub(crate) enum ValueKind {
    /// No value: the option is present or not.
    Nothing,
    /// No value, for an option that only `--help` lists.
    Rare,
    /// A whole number in a range.
    Number(u64, u64),
    /// A text of this name in the help.
    Value(&'static str),
    /// A file, with no option before it. `-h` has it in its usage alone.
    File,
    /// Any number of files, with no option before them.
    Files,
}

/// An option of a subcommand, or a file that it takes.
#[derive(Clone, Copy)]
pub(crate) struct Argument {
    /// The name; an option has two dashes before it.
    pub(crate) name: &'static str,
    pub(crate) takes: ValueKind,
    /// Its line of at most 80 columns in `-h`.
    short: &'static str,
    /// Its line in `--help`.
    help: &'static str,
}

/// The option that requests progress reports.
const PROGRESS: &str =
    "--progress rare | Report progress on standard error. Default: on if it is a terminal and the output is not";

/// The file to write in place of standard output.
const OUTPUT: &str =
    "--output FILE | Write to FILE, created or replaced when complete | Write to FILE, which is created or replaced when the output is complete. Default: standard output";

/// The option that allows an existing output file to be replaced.
const FORCE: &str = "--force rare | Replace the FILE of -o if it exists. Default: off";

/// A file that may be named.
const FILE: &str = "file | File to read; - is standard input. Default: standard input";

/// Returns the kind of an option whose form has this value.
fn kind_of(value: &'static str) -> ValueKind {
    match (value, value.split_once('-')) {
        ("", _) => ValueKind::Nothing,
        ("rare", _) => ValueKind::Rare,
        (_, None) => ValueKind::Value(value),
        (_, Some((least, most))) => ValueKind::Number(
            least.parse().unwrap_or(0),
            most.parse().unwrap_or(u64::MAX),
        ),
    }
}

impl Argument {
    /// Returns the argument of a row.
    pub(crate) fn of(row: &'static str) -> Argument {
        let row = match row {
            "progress" => PROGRESS,
            "output" => OUTPUT,
            "force" => FORCE,
            "file" => FILE,
            _ => row,
        };
        let (form, lines) = row.split_once(" | ").unwrap_or((row, ""));
        let (short, help) = lines.split_once(" | ").unwrap_or((lines, lines));
        let (name, value) = form.split_once(' ').unwrap_or((form, ""));
        let (name, takes) = match (name.strip_prefix("--"), value) {
            (Some(name), _) => (name, kind_of(value)),
            (None, "") => (name, ValueKind::File),
            (None, _) => (name, ValueKind::Files),
        };
        Argument {
            name,
            takes,
            short,
            help,
        }
    }
}

/// Returns the argument for `clap`.
pub(crate) fn arg_of<'a>(alloc: Global, argument: Argument) -> Arg<'a> {
    let (name, takes) = (argument.name, argument.takes);
    let action = match takes {
        ValueKind::Nothing | ValueKind::Rare => ArgAction::SetTrue,
        ValueKind::Files => ArgAction::Append,
        _ => ArgAction::Set,
    };
    let arg = Arg::new(alloc, name)
        .help(argument.short)
        .long_help(argument.help)
        .action(action)
        .hide_short_help(matches!(takes, ValueKind::Rare | ValueKind::File | ValueKind::Files));
    match takes {
        ValueKind::Nothing | ValueKind::Rare => arg.long(name),
        ValueKind::Number(least, most) => {
            let parser = ValueParser::unsigned(least, most);
            arg.long(name).value_name("N").value_parser(parser)
        }
        ValueKind::Value(value) if name == "output" => {
            arg.long(name).value_name(value).short('o')
        }
        ValueKind::Value(value) => arg.long(name).value_name(value),
        ValueKind::File | ValueKind::Files => arg.value_name("FILE"),
    }
}
