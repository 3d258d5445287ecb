//! A call of a subcommand, and its ends at a text.

use crate::difference::report_difference;
use crate::end::End;
use crate::files::{Source, open_again, open_text};
use crate::line::Part::{Text, Word};
use crate::line::{Part, lead, say, say_text};
use crate::name::write_word;
use crate::options::{Subcommand, file};
use crate::progress::{ProgressReader, shows_progress};
use crate::steps_fault::report_field;
use clap::ArgMatches;
use either::{Left, Right};
use pie_linux_history::{StepDifference, StepsFault};
use pie_trace::TraceFault;
use pie_trace::diagnosis::{Cause, TextKind, find_cause, write_cause};
use std::alloc::Global;
use std::fmt::Display;
use std::io::{Stderr, Stdin};
use std::str::from_utf8;

/// A call of a subcommand: the system, memory, the subcommand and its options, and the standard streams.
#[derive(Clone, Copy)]
pub(crate) struct Call<'c, 'w> {
    pub(crate) system: &'c HostRuntime,
    pub(crate) alloc: Global,
    pub(crate) subcommand: Subcommand,
    pub(crate) options: &'c ArgMatches<'w>,
    pub(crate) input: Stdin,
    pub(crate) errors: Stderr,
}

impl<'c> Call<'c, '_> {
    /// Opens the text in the file that the options name, or in standard input, and returns its reader. If the file can't be
    /// opened, writes a line and returns `None`.
    pub(crate) fn open(&self) -> Option<ProgressReader<'c, Source<'c>>> {
        let text = open_text(self, file(self.options))?;
        Some(ProgressReader::new(text, self, shows_progress(self, true)))
    }

    /// Opens the text in the file `name`, or in standard input without a name, as `open` does. Also returns true if it is a text
    /// of recorded steps of Linux. If the text can't be read, returns the end, whose line begins with `prefix`.
    pub(crate) fn open_either(
        &self,
        prefix: Option<&str>,
        name: Option<&str>,
        is_written: bool,
    ) -> Result<(ProgressReader<'c, Source<'c>>, bool), End> {
        let Some(text) = open_text(self, name) else {
            return Err(End::Unopened);
        };
        let is_shown = shows_progress(self, is_written);
        let (watched, kind) = ProgressReader::recognizing(text, self, is_shown);
        match kind {
            Ok(is_steps) => Ok((watched, is_steps)),
            Err(why) => {
                drop(watched);
                Err(self.end_of_text(prefix, name, why))
            }
        }
    }

    /// Opens the file `name` again. `None` if it is standard input (`-`), or can't be read again.
    pub(crate) fn open_again(&self, name: &str) -> Option<ProgressReader<'c, Source<'c>>> {
        if name == "-" {
            return None;
        }
        let text = Left(Right(open_again(self.system, name)?));
        Some(ProgressReader::new(text, self, false))
    }

    /// Returns a reader of a text in memory.
    pub(crate) fn reader_of<'t>(&self, text: &'t [u8]) -> ProgressReader<'c, Source<'t>> {
        ProgressReader::new(Right(text), self, false)
    }

    /// Returns the end of a call that fails by this line.
    pub(crate) fn failed(&self, parts: &[Part<'_>]) -> End {
        say(self.errors, parts);
        End::Failed
    }

    /// Returns the end of a call that fails for this reason. Writes its line.
    pub(crate) fn failed_by<D: Display + Drop>(&self, why: D) -> End {
        say_text(self.errors, &[], why);
        End::Failed
    }

    /// Returns the end for a fault of the text that the options name, or of standard input.
    pub(crate) fn end_at_fault(&self, why: TraceFault) -> End {
        self.end_of_text(None, file(self.options), why)
    }

    /// Returns the end for a fault of the text in the file `name`, if it has a name. Writes the line of the fault, which
    /// begins with `prefix`, and lines that describe the cause. A failed write has no line here: `End::report` writes it.
    pub(crate) fn end_of_text(
        &self,
        prefix: Option<&str>,
        name: Option<&str>,
        why: TraceFault,
    ) -> End {
        if !matches!(why, TraceFault::Write) {
            say_text(self.errors, &lead(prefix), why);
        }
        let is_of_text = !matches!(why, TraceFault::Write | TraceFault::Memory);
        match name {
            Some(name) if is_of_text && name != "-" => self.report_cause(name, why),
            _ => {}
        }
        End::Fault(why)
    }

    /// Reads the file `name` again, and returns the cause of its fault, if it is found.
    fn cause_of(&self, name: &str, why: TraceFault) -> Option<Cause> {
        let reads = self.subcommand.reads.unwrap_or(TextKind::Trace);
        let (reader, again) = (
            open_again(self.system, name)?,
            open_again(self.system, name)?,
        );
        find_cause(self.alloc, reads, why, reader, again)
    }

    /// Writes lines that describe the cause of the fault of the file `name`. If the cause is not found, writes a line with
    /// the name of the file.
    fn report_cause(&self, name: &str, why: TraceFault) {
        let Some(cause) = self.cause_of(name, why) else {
            return self.name_text(name);
        };
        let (mut shown, mut errors) = (Vec::new(self.alloc), self.errors);
        if write_word(name, &mut shown).is_ok() {
            let shown = from_utf8(&shown).unwrap_or(name);
            let _ = write_cause(&cause, shown, self.subcommand.word, &mut errors);
        }
    }

    /// Writes a line with the name of the file that has the text.
    fn name_text(&self, name: &str) {
        say(self.errors, &[Text("the text is in "), Word(name)]);
    }

    /// Returns the end at the event with this number, which differs. Writes the line `text`, and for a named file the event's
    /// record and the right one.
    pub(crate) fn end_at_event<D: Display + Drop>(&self, text: D, number: u64) -> End {
        say_text(self.errors, &[], text);
        if let Some(name) = file(self.options) {
            report_difference(self, name, number);
        }
        End::Differs
    }

    // ---- recorded steps of Linux

    /// Returns the end at a step that differs. Writes a line of these parts, and a line with the step.
    pub(crate) fn end_at_step(&self, parts: &[Part<'_>], found: StepDifference) -> End {
        say(self.errors, parts);
        say_text(self.errors, &[], found);
        End::Differs
    }

    /// Returns the end for a fault of recorded steps in the file `name`, as `end_of_text` does.
    pub(crate) fn end_of_steps(
        &self,
        prefix: Option<&str>,
        name: Option<&str>,
        why: StepsFault,
    ) -> End {
        let fault = match why {
            StepsFault::Trace(fault) => Some(fault),
            _ => None,
        };
        if !matches!(fault, Some(TraceFault::Write)) {
            say_text(self.errors, &lead(prefix), why);
        }
        let is_found = match (fault, name) {
            (Some(TraceFault::Write | TraceFault::Memory), _) => true,
            (Some(fault), Some(name)) => report_field(self, name, fault),
            _ => false,
        };
        if let (false, None, Some(name)) = (is_found, prefix, name) {
            self.name_text(name);
        }
        match fault {
            Some(fault) => End::Fault(fault),
            None => End::Failed,
        }
    }
}
