//! The command of `clap` for the command line, built from the tables of the subcommands.

use crate::options::advise_page::advise_page;
use crate::options::argument::{Argument, arg_of};
use crate::options::history_pages::{audit_page, cut_page, explain_page, migrate_page};
use crate::options::subcommand::{SUBCOMMANDS, Subcommand, Work};
use crate::options::trace_pages::{params_page, run_page, storm_page};
use crate::options::what_if_page::what_if_page;
use clap::Command;
use std::alloc::{AllocError, Global};
use std::str::from_utf8;

/// The version that `pie --version` prints after the name.
const VERSION: &str = "0.1.0";

/// The text of `pie --help` below its subcommands.
const PIE_HELP: &str =
    "Example: run a trace of one arrival and one departure, and print the decisions:

  printf 'open,0,4,16,100\\narrive,1,10,7,1500,ect0,0\\ndepart,2,25\\n' | pie run

The output of a run is its history. pie audit decides it again, and pie explain
explains it.";

/// The page of a subcommand.
#[derive(Clone, Copy)]
pub(crate) struct HelpPage {
    /// Its purpose, in one line.
    about: &'static str,
    /// The rows of its arguments (argument.rt).
    pub(crate) rows: &'static str,
    /// The help text below its options.
    help: &'static str,
}

/// Returns the page of a subcommand. Its text has the purpose, the rows of the arguments, an empty line and the help. (A text
/// of bytes in a function of its own is proved soonest.)
pub(crate) fn page_of(work: Work) -> HelpPage {
    let bytes = match work {
        Work::Run => run_page(),
        Work::Audit => audit_page(),
        Work::Explain => explain_page(),
        Work::Cut => cut_page(),
        Work::Migrate => migrate_page(),
        Work::Storm => storm_page(),
        Work::Params => params_page(),
        Work::WhatIf => what_if_page(),
        Work::Advise => advise_page(),
    };
    let text = from_utf8(bytes).unwrap_or("");
    let (head, help) = text.split_once("\n\n").unwrap_or((text, ""));
    let (about, rows) = head.split_once('\n').unwrap_or((head, ""));
    HelpPage { about, rows, help }
}

/// Builds the command of a subcommand, with its arguments.
fn command_of<'a>(alloc: Global, subcommand: Subcommand) -> Result<Command<'a>, AllocError> {
    let page = page_of(subcommand.work);
    let mut command = Command::new(alloc, subcommand.word)
        .about(page.about)
        .after_long_help(page.help);
    for row in page.rows.lines() {
        command = command.arg(arg_of(alloc, Argument::of(row)))?;
    }
    Ok(command)
}

/// Returns the command `pie` with its subcommands.
///
/// # Errors
///
/// `AllocError` if memory is short.
pub(crate) fn options<'a>(alloc: Global) -> Result<Command<'a>, AllocError> {
    let mut command = Command::new(alloc, "pie")
        .about("A PIE queue controller (RFC 8033) whose every decision is recorded")
        .version(VERSION)
        .after_long_help(PIE_HELP)
        .subcommand_required(true);
    for subcommand in SUBCOMMANDS {
        let built = command_of(alloc, subcommand)?;
        command = command.subcommand(built)?;
    }
    Ok(command)
}
