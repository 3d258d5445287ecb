//! The end of the program and its exit status.

use crate::line::Part::Text;
use crate::line::{say, say_text};
use pie_trace::TraceFault;
use std::io;
use std::io::{Stderr, Write};

/// The end of `pie`.
#[derive(Clone, Copy)]
pub enum End {
    /// The subcommand is done.
    Done,
    /// An event of a history differs.
    Differs,
    /// The trace or the history has this fault, or the reader, the writer or memory failed.
    Fault(TraceFault),
    /// The file to read can't be opened, or standard input was already read. Nothing was written.
    Unopened,
    /// Memory or a thread is missing at the start. Nothing was written.
    CannotStart,
    /// The output file can't be created, or can't be moved onto its name. Each file is unchanged.
    NoOutputFile,
    /// The command line is wrong, its options are not valid or select nothing that exists, recorded steps of Linux lack a
    /// column or the first step of a queue, or one of several files could not be audited. The error stream has a line
    /// for it.
    Failed,
}

impl End {
    /// Returns the exit status: 0 if done, 2 if an event differs, otherwise 1. If the writer failed because its reader
    /// is gone (`is_closed`), as with `head`, it is 141, the status of a program that SIGPIPE ended in a shell.
    pub fn status(self, is_closed: bool) -> u8 {
        match self {
            End::Done => 0,
            End::Differs => 2,
            End::Fault(TraceFault::Write) if is_closed => 141,
            _ => 1,
        }
    }

    /// Writes the lines of a failure of the writer to `errors`: the system's `reason` if there is one, and that the output
    /// failed. If its reader is gone (`is_closed`), or the writer did not fail, the second line is not written.
    pub fn report(self, reason: Option<io::Error>, is_closed: bool, errors: Stderr) {
        if let Some(why) = reason {
            say_text(errors, &[], why);
        }
        if !is_closed && matches!(self, End::Fault(TraceFault::Write)) {
            say(errors, &[Text("cannot write the output")]);
        }
    }

    /// Returns true if the output is complete.
    pub(crate) fn is_whole(self) -> bool {
        matches!(self, End::Done | End::Differs)
    }
}

/// Returns the end for a fault and writes its line to `errors`. A writer's fault has no line here: `End::report`
/// writes it later.
pub(crate) fn end_with_fault(errors: Stderr, why: TraceFault) -> End {
    if !matches!(why, TraceFault::Write) {
        say_text(errors, &[], why);
    }
    End::Fault(why)
}

/// Returns `Failed`, and writes its line to `errors`.
pub(crate) fn end_failed(errors: Stderr, text: &str) -> End {
    say(errors, &[Text(text)]);
    End::Failed
}

/// Writes a page, flushes the output, and returns the end.
pub(crate) fn end_of_page<W: Write>(page: &[u8], output: &mut W) -> End {
    if output.write_all(page).is_ok() && output.flush().is_ok() {
        End::Done
    } else {
        End::Fault(TraceFault::Write)
    }
}
