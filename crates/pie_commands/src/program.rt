//! The whole program over a list of words, standard input, files and two writers.

use crate::advise::advise;
use crate::audit::audit;
use crate::call::Call;
use crate::cut::cut;
use crate::end::{End, end_failed};
use crate::explain::explain;
use crate::files::{Output, create_output, finish_output, is_input_written};
use crate::line::Part::Text;
use crate::line::say;
use crate::options::{
    Work, file, flag, options, output as output_file, report_elements, report_numbers,
    subcommand_named,
};
use crate::params::params;
use crate::run::{migrate, run};
use crate::storm::storm;
use crate::what_if::what_if;
use clap::error::ErrorKind;
use clap::{ArgMatches, Error};
use pie_trace::TraceFault;
use std::alloc::Global;
use std::io::{Stderr, Stdin, Write};
use std::marker::Sync;
use std::sync::Wait;
use std::thread::Threads;
use std::time::Clock;

/// Runs `pie` with the command line `words`, which begins with the program's name, and returns its end. The exit
/// status is 0 if done, 1 for a fault, whose line is on `errors`, and 2 if an audit, an explanation or a cut found
/// an event that differs. For a mistake in the command line, the message of `clap` is written to `errors` and the
/// status is 1. A request for help is written to `output` and the status is 0. Only `End::report` reports a
/// failure of `output`.
///
/// If the command line names a `FILE`, `system` opens it. Everything below about the reader then applies to the file's
/// text; `-` names the reader. If a file can't be opened, the status is 1 and nothing is written.
/// `Unopened` is the end of one text that can't be opened. If memory is short before the subcommand begins, the end is
/// `CannotStart`. `threads` is the same system, which starts the threads of a storm.
///
/// If `-o` names a file, everything below about `output` applies to a new empty file, and nothing is written to
/// `output`. With the status 0 or 2 that file then has the name. With the status 1 each existing file is unchanged.
/// With any status every existing file except the one of that name is unchanged. That one is also unchanged without
/// `--force`, and if it is the file that is read.
///
/// While `pie run`, `audit`, `explain`, `cut` and `migrate` read, progress is reported on `errors` if that is a terminal
/// or `--progress` is given. The report is cleared before anything else is written there. It changes
/// nothing of the following.
///
/// A run, a migration, an explanation and a cut write their output up to the first fault or the first event that
/// differs. An audit of one text writes nothing if the text has a fault. If the options are not valid together, the end is `Failed` and nothing is written. If the reader, the
/// writer or memory fails, the end names the failure.
///
/// An audit, an explanation and a cut also read a text of recorded steps of Linux (`is_linux_text`).
pub fn command<H: Threads + Wait + Clock + Sync>(
    threads: &H,
    system: &HostRuntime,
    words: &[String],
    input: Stdin,
    output: &mut Output,
    errors: Stderr,
) -> End {
    let alloc = system.alloc();
    let found = matches_of(alloc, words);
    let end = match &found {
        Ok(matches) => perform(threads, system, matches, input, output, errors),
        Err(why) => mistake(why, words, output, errors),
    };
    drop(found);
    end
}

/// Parses the command line with `clap`. An error is a request for help, a mistake, or a lack of memory.
fn matches_of<'a>(alloc: Global, words: &'a [String]) -> Result<ArgMatches<'a>, Error> {
    options(alloc)?.try_get_matches_from(words)
}

/// Writes the help that was requested to `output`, or the message of a mistake to `errors`. If `clap` refused the value of an
/// option, a line with the values that the option takes follows. If it refused an option of `pie what-if`, and this option can't
/// change a history, a line with the reason follows.
fn mistake(error: &Error, words: &[String], output: &mut Output, errors: Stderr) -> End {
    let kind = error.kind();
    if matches!(kind, ErrorKind::OutOfMemory) {
        say(errors, &[Text("out of memory")]);
        return End::CannotStart;
    }
    if !error.use_stderr() {
        return match write!(output, "{error}") {
            Ok(()) => End::Done,
            Err(_) => End::Fault(TraceFault::Write),
        };
    }
    let mut stream = errors;
    let _ = write!(stream, "{error}");
    match kind {
        ErrorKind::ValueValidation => report_numbers(words, errors),
        ErrorKind::UnknownArgument
            if matches!(words.get(1), Some(word) if word.as_str() == "what-if") => {
            report_elements(words, errors)
        }
        _ => {}
    }
    End::Failed
}

/// Performs the subcommand of the command line, whose output goes to `output` or to the file that its options name.
fn perform<H: Threads + Wait + Clock + Sync>(
    threads: &H,
    system: &HostRuntime,
    matches: &ArgMatches<'_>,
    input: Stdin,
    output: &mut Output,
    errors: Stderr,
) -> End {
    let Some((name, options)) = matches.subcommand() else {
        return end_failed(errors, "no subcommand");
    };
    let Some(subcommand) = subcommand_named(name) else {
        return end_failed(errors, "no subcommand");
    };
    let call = Call {
        system,
        alloc: system.alloc(),
        subcommand,
        options,
        input,
        errors,
    };
    if let Some(name) = output_file(options) {
        return dispatch_to_file(threads, &call, name);
    }
    if subcommand.reads.is_some() && is_input_written(&call) {
        return End::NoOutputFile;
    }
    dispatch(threads, &call, output)
}

/// Calls the function of a subcommand. The subcommand writes to `output`.
fn dispatch<H: Threads + Wait + Clock + Sync>(
    threads: &H,
    call: &Call<'_, '_>,
    output: &mut Output,
) -> End {
    match call.subcommand.work {
        Work::Run => run(call, output),
        Work::Audit => audit(call, output),
        Work::Explain => explain(call, output),
        Work::Cut => cut(call, output),
        Work::Migrate => migrate(call, output),
        Work::Storm => storm(threads, call, output),
        Work::Params => params(call, output),
        Work::WhatIf => what_if(call, output),
        Work::Advise => advise(call, output),
    }
}

/// Calls the function of a subcommand with a new file as its output. The file moves onto `name` once the output is
/// complete.
fn dispatch_to_file<H: Threads + Wait + Clock + Sync>(
    threads: &H,
    call: &Call<'_, '_>,
    name: &str,
) -> End {
    let (system, errors, is_forced) = (call.system, call.errors, flag(call.options, "force"));
    let Some(mut fresh) = create_output(system, name, file(call.options), is_forced, errors) else {
        return End::NoOutputFile;
    };
    let end = dispatch(threads, call, &mut fresh);
    let is_whole = end.is_whole();
    let is_there = finish_output(system, &mut fresh, name, is_forced, is_whole, errors);
    if is_whole && !is_there {
        return End::NoOutputFile;
    }
    end
}
