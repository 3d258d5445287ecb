//! The parser of the command line: its subcommands and their options.
//!
//! `options` returns the command of `clap`, or an error if memory is short. `number`,
//! `flag`, `file` and the other functions of values.rt read the options that `clap` matched. `subcommand_named`
//! returns the subcommand of a name.

mod advise_page;
mod argument;
mod command_line;
mod history_pages;
mod mistakes;
mod subcommand;
mod trace_pages;
mod values;
mod what_if_page;

pub(crate) use command_line::options;
pub(crate) use mistakes::{report_elements, report_nearest, report_numbers, report_two};
pub(crate) use subcommand::{Subcommand, Work, subcommand_named};
pub(crate) use values::{
    bound, bounds_of, file, file_of, flag, moment, number, number_or, output, parsed, text,
};
