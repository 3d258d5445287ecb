//! The details of an event that differs: its record, the record that the rules give there, or the reason why they give none.

use crate::call::Call;
use crate::line::Part::{Name, Number, Text, Word};
use crate::line::{parts, put_parts, say_parts, say_text};
use crate::options::Work;
use pie_book::Event;
use pie_explain::{DecidedEvent, EventDecision, decide_event, push_words};
use pie_params::Params;
use pie_record::{Line, Page, RowBuffer, put_event, put_params};
use std::fmt;
use std::io::Write;

/// The details of an event that differs.
#[derive(Clone, Copy)]
pub(crate) struct Details {
    /// The number of the event.
    number: u64,
    decided: DecidedEvent,
}

/// The reason why the rules allow no event at its place.
#[derive(Clone, Copy)]
pub(crate) struct Reason<'a>(&'a DecidedEvent);

impl fmt::Display for Reason<'_> {
    fn fmt<W: fmt::Write>(&self, f: &mut fmt::Formatter<W>) -> fmt::Result {
        match (&self.0.decision, &self.0.recorded) {
            (EventDecision::Refused(why), _) => write!(f, "{why}"),
            (_, Line::Invalid(change)) => match Params::check(change.params) {
                Err(why) => write!(f, "{why}"),
                Ok(_) => Ok(()),
            },
            _ => Ok(()),
        }
    }
}

impl Details {
    /// Returns the record of the event.
    pub(crate) fn recorded(&self) -> RowBuffer {
        let mut row = RowBuffer::new();
        match &self.decided.recorded {
            Line::Valid(event) => put(&mut row, event),
            Line::Invalid(change) => {
                put_params(&mut row, change.caller, change.moment, change.params)
            }
            Line::Note | Line::Clock(_) => {}
        }
        row
    }

    /// Returns the record that the rules give, if they give one.
    pub(crate) fn right(&self) -> Option<RowBuffer> {
        let EventDecision::Answered(right) = &self.decided.decision else {
            return None;
        };
        let mut row = RowBuffer::new();
        put(&mut row, &right.explanation.event);
        Some(row)
    }

    /// Returns the reason why the rules give no record.
    pub(crate) fn reason(&self) -> Reason<'_> {
        Reason(&self.decided)
    }
}

/// Makes `row` the record of an event.
fn put(row: &mut RowBuffer, event: &Event) {
    put_event(row, event.caller, event.command, event.answer);
}

/// Decides the event with this number again. The text is in the file `name`, which is read again. `None` if the file can't be
/// read again, or is standard input (`-`).
pub(crate) fn details_of(call: &Call<'_, '_>, name: &str, number: u64) -> Option<Details> {
    match decide_event(call.alloc, call.open_again(name)?, number) {
        Ok(Some(decided)) => Some(Details { number, decided }),
        _ => None,
    }
}

/// Writes the lines about an event that differs, of the file `name`: its record, and the record that the rules give there, or
/// the reason why they give none. If the call explains events, the explanation of the right event follows, otherwise the
/// command that explains it. Ignores a failed write.
pub(crate) fn write_details(call: &Call<'_, '_>, name: &str, details: &Details) {
    let (mut errors, recorded, right) = (call.errors, details.recorded(), details.right());
    let _ = put_parts! { &mut errors;
        Text("pie: "), Name(name), Text(": event "), Number(details.number), Text(" is recorded as ")
    };
    let _ = errors.write_all(recorded.as_bytes());
    match &right {
        Some(right) => {
            let _ =
                put_parts! { &mut errors; Text("pie: "), Name(name), Text(": the rules give ") };
            let _ = errors.write_all(right.as_bytes());
        }
        None => {
            say_text(
                errors,
                parts! { Name(name), Text(": the rules allow no such event: ") },
                details.reason(),
            );
        }
    }
    if !matches!(call.subcommand.work, Work::Explain) {
        say_parts! { errors;
            Name(name), Text(": pie explain --event "), Number(details.number), Text(" "), Word(name),
            Text(" explains it")
        };
    } else if let EventDecision::Answered(right) = &details.decided.decision {
        let mut page = Page::new(call.alloc);
        if push_words(&mut page, None, right).is_ok() {
            let _ = errors.write_all(page.as_bytes());
        }
    }
}

/// Writes the lines about the event with this number, which differs, as `write_details` does. The text is in the file `name`,
/// which is read again. If it can't be read again, nothing is written.
pub(crate) fn report_difference(call: &Call<'_, '_>, name: &str, number: u64) {
    if let Some(details) = details_of(call, name, number) {
        write_details(call, name, &details);
    }
}
